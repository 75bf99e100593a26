//! The repository as one thread sees it: its calls, its replies, and what each call changes.
//!
//! - A *call* is what a caller asks (`Call`), a *reply* what it is told (`Reply`), an *entry* both
//!   together (`Entry`). A `Journal` is a list of entries with a limit on their number.
//! - The *state* is what the repository holds: the rows, the deleted blobs, the names that are
//!   taken, the notes of what remotes lack, the last timestamp, and what broke it.
//! - The *step* says of a configuration, a state and a call which reply comes and which state
//!   follows. A *legal history* is a list of entries that are steps, one after another, among
//!   which calls may also be refused because a device, the memory or a stored content failed.
//!
//! `plain::step` computes the step, over ordered maps, for every call. The laws in `laws` say what
//! the definitions promise.
#![tactic(auto)]

mod call;
mod cursor;
mod deletion;
mod entry;
mod journal;
pub mod laws;
pub mod plain;
mod reply;
mod spot;
mod task;
mod transfer;
mod upload;

pub use call::{Begin, Call, Kind, Look, RemoteSaid};
pub use cursor::{CleanCursor, CompactCursor};
pub use deletion::Deletion;
pub use entry::Entry;
pub use journal::Journal;
pub use reply::{Cause, Fault, Refusal, Reply};
pub use spot::Spot;
pub use task::{Cleaned, Compacted, Why};
pub use transfer::{DownloadErr, GotOf, UploadErr};
pub use upload::Upload;
