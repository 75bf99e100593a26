//! A session over a repository: its requests, answered by the calls of a core.
//!
//! The words: a *core* is the repository over a disk and a table of rows (`repo_core`). A *turn* is one request with the entries
//! that its calls made and with what stopped it beside them (`http_front`). A *moment* is drawn for each request, and the last one
//! repeats ([`Draws`]). What an upload keeps while its content comes is an [`OpenUpload`].
//!
//! - `puts` ends an upload: by its put, or by what failed;
//! - `looks` says what a look replies and opens, and `downloads` gives out what is open, behind the head of its response;
//! - [`Answering`] makes the calls of the core, as its caller 0, and hands their answers to `session_driver`, which says the rest. What the
//!   core promises of each call is cited and not said again: with the contents beside, it is one call of the history (`proofs/CoreCalls.antt`);
//! - [`serve`] runs a session.
//!
//! What is promised of [`serve`]: the requests that were read made turns, in their order, whose entries are those by which the
//! journal grew. Over devices that tell what they hold, each state that they stand for leads on by these turns to one that they stand
//! for at the end, and what is said in them was written, or a prefix of it where the sink or a download failed; a content that is given
//! out is the very bytes of its file (`HasTurns`, specs/Serving.antt). An end tells of a device only where its count of faults rose.
#![tactic(auto)]

mod answering;
mod downloads;
mod draws;
mod looks;
mod open_upload;
mod puts;
mod serving;
mod writing;

pub use answering::Answering;
pub use draws::Draws;
pub use open_upload::OpenUpload;
pub use serving::serve;
