//! Laws of the definitions: the first five functions do nothing, and their contracts are the laws.
ghost use Rattle.std.specs.Prelude.{◌≡◌};
ghost use Rattle.repo_config.specs.Laws.{SomeMeaning, NeverBoth, OneConfiguration, OneRefusal, AllSound, StoreKeysParted, RepoKeysParted};
ghost use Rattle.repo_config.specs.Model.{ReadsRepos, ReadsGroups, WritesToOne};
ghost use Rattle.repo_config.specs.Hosted.{ReadsHosted};

use crate::config::Config;

/// Each text gives a configuration or is refused, never both, and one only of either.
pub fn exactly_one_meaning()
    ensures some { SomeMeaning }
    ensures never_both { NeverBoth }
    ensures one_configuration { OneConfiguration }
    ensures one_refusal { OneRefusal }
{}

/// The key of a store's or a repository's name is taken apart into that name again, dots or not.
pub fn keys_are_parted()
    ensures stores { StoreKeysParted }
    ensures repos { RepoKeysParted }
{}

/// In every configuration each repository has a store that is a declared file store, the journal
/// takes 1 to 1,000,000 entries, and there are at most 64 file stores.
pub fn settings_are_sound()
    ensures { AllSound }
{}

/// The step of the one-thread repository finds in a configuration just the repositories and the
/// groups that [`Config::repo`] and [`Config::group`] answer. In every configuration that was read a
/// repository writes to its store, and to no other.
pub fn the_step_reads_the_same()
    ensures repos { ReadsRepos }
    ensures groups { ReadsGroups }
    ensures one { WritesToOne }
{}

/// In every configuration that was read each repository is hosted.
pub fn all_are_hosted()
    ensures { ReadsHosted }
{}

fn needs_send<T: Send>(value: T) -> T
    ensures { result ≡ value }
{
    value
}

/// A configuration may be handed to another thread, and is the same there.
pub fn sent(config: Config) -> Config
    ensures { result ≡ config }
{
    needs_send(config)
}
