//! The blobs that are deleted, in the order in which they were.
//!
//! A [`Queue`] is a finite map from blobs to their deletions. Beside it, it keeps the places of the blobs in the order of
//! deletion, so that whoever empties the trash walks it from a place on ([`Queue::after`]). Adding, taking out and stepping on
//! each look at no more elements than a search in an ordered tree.
#![tactic(auto)]

mod place;
mod places;
mod queue;

pub use place::QueuePlace;
pub use queue::Queue;
