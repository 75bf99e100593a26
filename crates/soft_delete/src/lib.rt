//! The mark of a deletion: a blob that is deleted is only marked, and its files are removed later.
//!
//! [`mark`] replaces the properties file of a blob by the text with a mark, and [`unmark`] by the text without one. Each is the
//! composition of two halves: what stages the new text in a temporary file ([`stage_mark`], [`stage_unmark`]), before which
//! nothing can be seen, and what shows it ([`place`]), from which on a crash may leave the new text. A caller that has to
//! know whether a refusal changed anything calls the halves.
//!
//! At every moment a crash leaves the old text or the new one, and no other file changes.
#![tactic(auto)]

mod mark_err;
mod marking;

pub use mark_err::MarkErr;
pub use marking::{mark, place, stage_mark, stage_unmark, unmark};

#[cfg(test)]
mod tests;
