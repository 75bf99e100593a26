//! What a tree of files says of blobs, and how that changes.
//!
//! - A *blob* is a store and an id whose properties file is there (`specs/Blobs.antt`). It is *readable* where the text
//!   of that file can be read; *intact* where it is readable and its bytes file has the size and the SHA-1 that the
//!   properties say; *marked* where they say that it is deleted; a *stray* where its store isn't one of its key's
//!   repository; and *live* where it is intact, not marked and no stray.
//! - The *content* of a key is its newest live blob, or nothing where it has none (`specs/Contents.antt`). The newest has
//!   the greatest timestamp, then the greatest store name, then the greatest id.
//! - `specs/Files.antt` has the words on what a call does to the two files of one blob, and on what a crash inside the
//!   call leaves of them.
//!
//! Nothing here runs. What is promised are laws ([`laws`]): a key has one content at most; a new blob gives its key its
//! content, or leaves all contents; a marked blob leaves all contents but its own; an erased one leaves all; other files
//! play no part. Each is stated of two trees, and of each image that a crash may leave at a moment of such a call, in the
//! form in which calls promise it.
#![tactic(auto)]

pub mod laws;
