//! What a raw repository decides on its own, without a disk or a table.
//!
//! - A hosted repository has a *write policy*: [`may_write`] says whether a path may be written to.
//! - A proxy asks its remote only where what it has is too old: an asset is *fresh* for a while
//!   after it was verified ([`fresh`]), and a *note* that the remote has nothing of a key counts for
//!   a while ([`note_young`]). [`Notes`] keeps the newest 10,000 notes.
//! - A reader *holds* the blob that it reads, so that nobody removes it: [`Holds`] has one blob at
//!   most of each caller.
//!
//! Each promises just what the one-thread repository of `repo_model` says by the same word, so that a
//! core over devices decides as it does. Moments are milliseconds since 1970, ages are minutes, and
//! a difference of moments stops at 0.
#![tactic(auto)]

mod freshness;
mod holds;
pub mod laws;
mod notes;
mod write_policy;

pub use freshness::{fresh, note_young};
pub use holds::Holds;
pub use notes::Notes;
pub use write_policy::may_write;
