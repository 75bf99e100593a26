//! The repository over a disk and a keeper of rows: the files of blobs on one side, a table of rows on the other, and one
//! history of what was asked and answered.
//!
//! - A [`Core`] owns both devices, the journal, and what it keeps itself: the blobs that are deleted, the last timestamp, and
//!   who reads which blob ([`Own`], [`Hold`]).
//! - A core *stands for* a state of the one-thread repository (crate `repo_model`) where files, rows and its own parts are
//!   what the state says (`Tracks` in `specs/Standing.antt`, `FilesAgree` in `specs/Agree.antt`).
//! - A call has a *work* and an *end*. The work is refused before anything can be seen ([`Denial`]), or it is done, or a
//!   fault stops it from the first visible step on (`Stop`). The end makes of it the answer, one entry of the journal, and,
//!   after such a fault, the cause by which each later call is refused: then the core is broken until its folder is opened
//!   again.
//!
//! What is promised of each call is stated once, in two records that each call cites (`Called` in `specs/Called.antt`, `Survives` in
//! `specs/Survives.antt`): it has just one entry, with its caller, arguments and answer, unless the journal is full; from each state that
//! the core stands for, the entry leads to one that the core then stands for; at every moment of it each image that a crash may leave has
//! the contents before or after; a disk on which everything is settled is settled again, unless the core broke; a refusal that doesn't
//! break it leaves files, rows and its own parts; and a fault is answered only where the count of that device rose. Beside them a call
//! says only what is its own. What is asked of it is an `Ask` (`specs/Asks.antt`).
#![tactic(auto)]

mod admitting;
mod begin;
mod beginning;
mod choosing;
mod closing;
mod content;
mod delete;
mod deleting;
mod denial;
mod end;
mod end_get;
mod end_upload;
mod entries;
mod folder;
mod get;
mod getting;
mod given;
mod hold;
mod marking;
mod measuring;
mod noting;
mod opening;
mod own;
mod put;
mod putting;
mod repository;
mod rules;
mod staging;
mod stop;
mod telling;
#[cfg(test)]
mod tests;

pub use closing::{CloseErr, Closed};
pub use denial::Denial;
pub use folder::open_folder;
pub use get::Got;
pub use hold::Hold;
pub use opening::{NotOpen, OpenErr, Opening};
pub use own::Own;
pub use repository::Core;
pub use stop::Stop;
