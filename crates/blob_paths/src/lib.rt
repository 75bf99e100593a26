//! The places of blobs, and the names of their files.
//!
//! Each blob has two files in the folder of its store: its bytes and its properties. Their names are the *place* of the
//! blob, `<store>/content/vol-VV/chap-CC/<id>`, with `.bytes` and with `.properties` behind it. The volume and the chapter
//! come from Java's hash of the id's text (`specs/Hash.antt`, `specs/Places.antt`).
//!
//! [`BlobFiles`] has both names of a blob.
//!
//! What is promised: [`location`] and [`file_name`] give these names, and [`id_of_name`] gives the id back from the name
//! of a file, or None exactly where the name is that of no id. No two files of blobs have one name, and none of them lies
//! in `tmp` ([`files_are_apart`], [`files_are_outside_tmp`]).
#![tactic(auto)]

mod ending;
mod files;
mod hash;
mod laws;
mod place;

pub use ending::Ending;
pub use files::BlobFiles;
pub use hash::{java_hash, tier};
pub use laws::{files_are_apart, files_are_outside_tmp};
pub use nx_base::Layout;
pub use place::{file_name, id_of_name, location};
