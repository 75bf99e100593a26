//! The configuration of a repository server, read from a properties text.
//!
//! A text declares *stores* and *repositories* by name and says more of each by its keys:
//! `<word>` for the whole, `store.<name>.<word>` and `repo.<name>.<word>`. The *table* has a row for
//! each key: its word, the kinds that have it, the rule of its value, and what counts where it isn't
//! there (`specs/Table.antt`, and the same rows in `src/table.rt`). A key that is read later is a row
//! more in each.
//!
//! | key | value | where it isn't there |
//! |---|---|---|
//! | `stores`, `repositories` | at most 64 distinct names with commas between them; may be empty | empty |
//! | `journal` | 1 to 1,000,000 | 100,000 |
//! | `store.<name>.kind` | `file` | `file` |
//! | `store.<name>.layout` | `volume` | `volume` |
//! | `repo.<name>.kind` | `hosted` | `hosted` |
//! | `repo.<name>.store` | a declared store | refused |
//! | `repo.<name>.policy` | `redeploy`, `no-redeploy`, `read-only` | `redeploy` |
//!
//! What is promised: [`Config::read`] gives exactly the configuration of its text
//! (`specs/Settings.antt`), or exactly the first refusal (`specs/Refusals.antt`): of the text as a
//! properties text; then of the keys in byte order; then of required keys that aren't there; then of
//! the stores of repositories. Memory that is refused is the only other answer. All other calls on a
//! configuration take no memory.
#![tactic(auto)]

mod build;
mod checks;
mod config;
mod config_err;
mod form;
mod group;
mod key;
mod key_text;
mod laws;
mod names;
mod plain;
mod read;
mod repo;
mod settings;
mod store;
mod table;
mod values;

pub use config::Config;
pub use config_err::ConfigErr;
pub use group::Group;
pub use key_text::KeyText;
pub use laws::{
    all_are_hosted, exactly_one_meaning, keys_are_parted, sent, settings_are_sound,
    the_step_reads_the_same,
};
pub use repo::Repo;
