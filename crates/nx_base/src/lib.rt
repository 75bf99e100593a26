//! The words that every layer of the repository speaks: names, paths, ids, keys and rows.
//!
//! - A *key* is the name of a repository and the path of an asset in it. Keys are ordered by
//!   repository and then by path, byte by byte.
//! - A *blob* is named by its store, its id and its timestamp. Blobs are ordered by timestamp, then by
//!   store, then by id; the greatest is the newest.
//! - A *row* says which blob is the content of a key.
//!
//! Each text has one rule, and one definition of what a text of bytes gives: the text that is
//! kept, or why it is refused. The refusals are told by name and place, in the order of
//! [`NameErr`]: `Empty` before `TooLong` before `BadByte` before `BadSegment`; of several bad
//! places the least one counts. Places count bytes of the text as it was given.
//!
//! | type | rule (this project's own) |
//! |---|---|
//! | [`RepoName`], [`PolicyName`] | 1 to 64 of the bytes `a-z A-Z 0-9 . _ -` |
//! | [`StoreName`] | the same, but none of `.`, `..`, `tmp`, `state`, `config.properties`, `assets.db`: those are refused as `BadByte` at 0 |
//! | [`AssetPath`] | one leading `/` is dropped; then 1 to 512 bytes of UTF-8, none below 0x20 and none 0x7F, and no segment between slashes that is empty, `.` or `..` |
//! | [`Name`] | of a file on a disk: 1 to 1,000 bytes with the bytes and segments of an asset path; a leading `/` isn't dropped, so it is `BadSegment` at 0 |
//! | [`ContentType`] | 1 to 255 bytes from 0x20 to 0x7E, the first and the last no space |
//! | [`BlobId`] | 36 bytes: lower-case hexadecimal digits in groups of 8, 4, 4, 4 and 12, joined by `-` |
//!
//! For each of them the contract of `parse` says what is accepted and what is refused, both ways;
//! want of memory alone is left open, and answers only for a text that is good.
//!
//! The definitions of fill (which store of a group takes an upload) and of match (which rows a
//! cleanup policy takes) stand here too, so that each crate above cites one text.
#![tactic(auto)]

mod asset;
mod asset_path;
mod blob_id;
mod blob_ref;
mod content_type;
mod file_name;
mod fill;
mod key;
mod laws;
mod layout;
mod marked;
mod member;
mod moment;
mod name_err;
mod name_rule;
mod order;
mod path_rule;
mod policy;
mod policy_name;
mod repo_kind;
mod repo_name;
mod row;
mod store_name;
mod text;

pub use asset::Asset;
pub use asset_path::AssetPath;
pub use blob_id::BlobId;
pub use blob_ref::BlobRef;
pub use content_type::ContentType;
pub use file_name::Name;
pub use fill::Fill;
pub use key::Key;
pub use laws::{blobs_are_ordered, each_criterion_counts, keys_are_ordered};
pub use layout::Layout;
pub use marked::Marked;
pub use member::Member;
pub use moment::Moment;
pub use name_err::{NameErr, NoMemory};
pub use policy::Policy;
pub use policy_name::PolicyName;
pub use repo_kind::RepoKind;
pub use repo_name::RepoName;
pub use row::Row;
pub use store_name::StoreName;
