//! Properties files of blobs.
use crate::text::characters;
use blob_properties::{
    BlobProps, PropsRead, ToPairsErr, marked_text, of_pairs, read_blob, to_pairs, unmarked_text,
};
use java_props::Pairs;
use std::alloc::{AllocError, Global};

fn form(alloc: Global, text: Result<Vec<u8>, ToPairsErr>) -> Result<String, AllocError> {
    match text {
        Ok(text) => characters(alloc, text.as_slice()),
        Err(why) => format!(in alloc; "{why:?}"),
    }
}

/// The file without its mark.
pub(crate) fn unmarked(alloc: Global, text: &[u8]) -> Result<String, AllocError> {
    match read_blob(alloc, text) {
        Ok(PropsRead::Good(props)) => form(alloc, unmarked_text(alloc, &props)),
        Ok(PropsRead::Unreadable) => String::from_str(alloc, "Unreadable"),
        Err(why) => format!(in alloc; "{why:?}"),
    }
}

fn mark(alloc: Global, props: &BlobProps) -> Result<String, AllocError> {
    form(
        alloc,
        marked_text(alloc, props, "Deleted by request", 1_700_000_005_000),
    )
}

/// The file with a mark of 1700000005000.
pub(crate) fn marked(alloc: Global, text: &[u8]) -> Result<String, AllocError> {
    match read_blob(alloc, text) {
        Ok(PropsRead::Good(props)) => mark(alloc, &props),
        Ok(PropsRead::Unreadable) => String::from_str(alloc, "Unreadable"),
        Err(why) => format!(in alloc; "{why:?}"),
    }
}

fn pairs_of(alloc: Global, props: &BlobProps) -> Result<String, AllocError> {
    match to_pairs(alloc, props) {
        Ok(pairs) => {
            let count = pairs.len();
            let (date, reason) = (pairs.get("deletedDateTime"), pairs.get("deletedReason"));
            format!(in alloc; "{count} {date:?} {reason:?}")
        }
        Err(why) => format!(in alloc; "{why:?}"),
    }
}

/// How many pairs the properties that pairs say give again, and with which mark, or what is wrong.
fn said(alloc: Global, pairs: &Pairs) -> Result<String, AllocError> {
    match of_pairs(alloc, pairs) {
        Ok(props) => pairs_of(alloc, &props),
        Err(why) => format!(in alloc; "{why:?}"),
    }
}

/// What the pairs of a text say of a blob.
pub(crate) fn pairs(alloc: Global, text: &[u8]) -> Result<String, AllocError> {
    match java_props::read(alloc, text) {
        Ok(pairs) => said(alloc, &pairs),
        Err(why) => format!(in alloc; "{why:?}"),
    }
}

fn mark_of(alloc: Global, pairs: &Pairs) -> Result<String, AllocError> {
    match of_pairs(alloc, pairs) {
        Ok(props) => mark(alloc, &props),
        Err(why) => format!(in alloc; "{why:?}"),
    }
}

/// The text with a mark of the properties that the pairs of a text say.
pub(crate) fn marked_pairs(alloc: Global, text: &[u8]) -> Result<String, AllocError> {
    match java_props::read(alloc, text) {
        Ok(pairs) => mark_of(alloc, &pairs),
        Err(why) => format!(in alloc; "{why:?}"),
    }
}
