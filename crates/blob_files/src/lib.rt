//! One blob on a disk: its content on the way in and out, and its two files.
//!
//! - An *upload* ([`Upload`]) takes the parts of a content into a temporary file, and keeps their size and SHA-1. Sealed, it is
//!   *ready* ([`Ready`]) to become a blob.
//! - A *download* ([`Download`]) gives the bytes of a blob's file in order, as many as its asset has.
//!
//! Both own their file alone: no repository and no lock is among their parameters, and they wait for nobody. A fault is
//! answered only where the count of that file rose. The words are in `specs/`: what an upload has taken (`HasTaken`), what a
//! download has still to give (`to_come`).
#![tactic(auto)]

mod creating;
mod download;
mod erasing;
mod reading;
mod ready;
mod taken;
mod upload;

pub use creating::create;
pub use download::Download;
pub use erasing::erase;
pub use reading::{open_bytes, read_props};
pub use ready::Ready;
pub use upload::{Target, Upload};

#[cfg(test)]
mod tests;
