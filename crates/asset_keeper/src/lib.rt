//! The table of assets: which content each key has.
//!
//! - A *table* is a finite map from keys to assets, with one *generation*: a number and a random
//!   word that say which close of the repository wrote the table.
//! - A *keeper* holds a table ([`Keeper`]). It gives the row of a key, sets or removes one row in
//!   one commit, and gives the rows in pages, in the byte order of repository and then path.
//! - A keeper may tell contracts its table. [`MapKeeper`], in memory, does; [`CheckedKeeper`], over
//!   rows that somebody else may write, doesn't, and takes every answer for a fault that no table
//!   could give. Keepers of a type that `lasts` go on telling, once they tell.
//!
//! Each keeper has a count of faults. It never falls, and a call answers [`KeepErr::Failed`] only
//! where it rose in that call. After `Failed` the table is the old or the new one; after
//! [`KeepErr::NoMemory`] it is the old one. [`MapKeeper`] fails just the calls that are listed, without effect
//! (`specs/Plan.antt`). Both keepers here count their faults exactly, by one at each.
//!
//! Each keeper counts its changes: the calls of `apply`, whatever they answered.
//!
//! Timestamps, times and the number of a generation are below 2^48, sizes below 2^63, whether a keeper
//! tells or not.
#![tactic(auto)]

mod change;
mod checked_keeper;
mod generation;
mod keep_err;
mod keeper;
pub mod laws;
mod map_keeper;
mod page;
mod rows;
mod tree;

pub use change::Change;
pub use checked_keeper::{CheckedKeeper, RowStore};
pub use generation::Generation;
pub use keep_err::KeepErr;
pub use keeper::Keeper;
pub use map_keeper::MapKeeper;

#[cfg(test)]
mod tests;
