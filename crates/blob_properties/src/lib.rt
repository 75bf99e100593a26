//! The properties of a blob: what its properties file says, and the text in which it is written.
//!
//! A properties file is a properties text (crate java_props) of at most 256 pairs. Nine of its keys have a meaning here: six
//! that each blob has, and three of a *mark*, which says that the blob is deleted, why and when (`specs/Keys.antt`,
//! `specs/Values.antt`). All other pairs are kept and written again. The keys and what they mean are those of Sonatype
//! Nexus (nexus-public); which are required, the rules of their values and all limits are this project's own.
//!
//! - A text is *readable* where it is read without a refusal, all six keys have good values, and there is room for a mark
//!   (`Readable` in `specs/Readable.antt`). [`read_blob`] answers whether, and what it says.
//! - [`of_pairs`] and [`to_pairs`] go between pairs and [`BlobProps`], each by its definition, and undo each other.
//! - [`marked_text`] and [`unmarked_text`] make the text of a blob with a mark and without one. Of a readable blob both are
//!   readable again, and say the same but for the mark: a readable blob always has room for a mark with a reason of up to
//!   100 written bytes.
#![tactic(auto)]

mod blob_props;
mod blob_props_err;
mod deleted;
mod found;
mod laws;
mod own_keys;
mod pairs;
mod props_read;
mod reading;
mod reason;
mod required;
mod texts;
mod to_pairs_err;
mod values;

pub use blob_props::BlobProps;
pub use blob_props_err::BlobPropsErr;
pub use deleted::Deleted;
pub use found::{Found, Verdict};
pub use laws::{pairs_say_the_same, plain_values_stay, the_prefix_is_enough, there_is_room};
pub use nx_base::Marked;
pub use pairs::to_pairs;
pub use props_read::PropsRead;
pub use reading::read_blob;
pub use reason::Reason;
pub use required::of_pairs;
pub use texts::{marked_text, unmarked_text};
pub use to_pairs_err::ToPairsErr;
