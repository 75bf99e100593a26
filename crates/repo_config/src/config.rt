ghost use Rattle.std.specs.Prelude.{◌≡◌, IfOk, IfErr};
ghost use Rattle.std.specs.Option.{option_copied};
ghost use Rattle.repo_config.specs.Settings.{repo_at, group_at, layout_at};
ghost use Rattle.repo_config.specs.Model.{takes};

use crate::config_err::ConfigErr;
use crate::group::Group;
use crate::read::read_config;
use crate::repo::Repo;
use crate::store::Store;
use nx_base::{Layout, RepoName, StoreName};
use std::alloc::Global;
use std::collections::BTreeMap;
use std::marker::Model;

/// A configuration. Its accessors take no memory.
#[derive(Drop)]
pub struct Config {
    pub(crate) file_stores: Vec<StoreName>,
    pub(crate) stores: BTreeMap<StoreName, Store>,
    pub(crate) repos: BTreeMap<RepoName, Repo>,
    pub(crate) journal: u64,
    pub(crate) sha1: [u8; 20],
}

impl Model for Config {
    ghost use Rattle.repo_config.specs.Settings.{Settings};
    ghost use Rattle.repo_config.specs.Hosted.{AllUsable};

    ghost Value = { Settings };

    ghost view = { λ c. record { file_stores = c.file_stores.items; stores = c.stores.entries; repos = c.repos.entries; journal = c.journal; sha1 = c.sha1 } };

    ghost invariant = { λ c. AllUsable c.repos.entries };
}

impl Config {
    ghost use Rattle.std.specs.Prelude.{◌⊎◌};
    ghost use Rattle.repo_config.specs.declared.config_err.ConfigErr.TheVariants as refused;
    ghost use Rattle.repo_config.specs.Reading.{Configures, IsRefused};
    ghost use Rattle.repo_config.specs.Told.{IsToday};

    /// Reads the text of a configuration. `docs/CONFIGURATION.md` says what stands in one.
    ///
    /// Of several refusals the first is told: that of the text as a properties text; then each key
    /// in byte order, as `UnknownKey`, `DuplicateName` or `BadValue`; then required keys that aren't
    /// there; then the stores of repositories, as `NoStore`.
    pub fn read(alloc: Global, bytes: &[u8]) -> Result<Config, ConfigErr>
        ensures ok { IfOk result (λ config. Configures bytes.now config) }
        ensures err { IfErr result (λ e. (e ≡ refused.NoMemory) ⊎ IsRefused bytes.now e) }
        ensures today { IfErr result IsToday }
    {
        read_config(alloc, bytes)
    }

    /// The repository of that name, if it is declared.
    pub fn repo(&self, name: &RepoName) -> Option<&Repo>
        ensures { option_copied result ≡ repo_at self.now name.now }
    {
        self.repos.get(name)
    }

    /// The group that a declared store is: of a file store, the group of it alone.
    pub fn group(&self, name: &StoreName) -> Option<&Group>
        ensures { option_copied result ≡ group_at self.now name.now }
    {
        match self.stores.get(name) {
            Some(store) => Some(&store.group),
            None => None,
        }
    }

    /// Whether a repository may write to that store.
    pub fn takes(&self, repo: &Repo, store: &StoreName) -> bool
        ensures { result ≡ takes self.now repo.now store.now }
    {
        let Some(name) = &repo.store else {
            return false;
        };
        match self.group(name) {
            Some(group) => group.takes(store),
            None => false,
        }
    }

    /// How the places of the blobs of a file store are chosen.
    pub fn layout(&self, store: &StoreName) -> Option<Layout>
        ensures { result ≡ layout_at self.now store.now }
    {
        match self.stores.get(store) {
            Some(store) => store.layout,
            None => None,
        }
    }

    /// The file stores, in the order in which they are declared.
    pub fn file_stores(&self) -> &[StoreName]
        ensures { result.now ≡ self.now.file_stores }
    {
        self.file_stores.as_slice()
    }

    /// The most entries of the journal: 1 to 1,000,000.
    pub fn journal(&self) -> u64
        ensures { result ≡ self.now.journal }
    {
        self.journal
    }

    /// The SHA-1 of the bytes that were read.
    pub fn sha1(&self) -> [u8; 20]
        ensures { result ≡ self.now.sha1 }
    {
        self.sha1
    }
}
