//! Names, paths, types and ids: why a text is refused, if it is.
use crate::text::{as_text, characters, number};
use nx_base::{AssetPath, BlobId, ContentType, Name, NameErr, PolicyName, RepoName, StoreName};
use std::alloc::{AllocError, Global};

/// The greatest time.
const LAST: u64 = 281_474_976_710_655;

fn said(alloc: Global, refusal: Option<NameErr>) -> Result<String, AllocError> {
    match refusal {
        None => String::from_str(alloc, "Ok"),
        Some(why) => format!(in alloc; "{why:?}"),
    }
}

pub(crate) fn repo_name(alloc: Global, text: &[u8]) -> Result<String, AllocError> {
    said(alloc, RepoName::parse(alloc, text).err())
}

pub(crate) fn store_name(alloc: Global, text: &[u8]) -> Result<String, AllocError> {
    said(alloc, StoreName::parse(alloc, text).err())
}

pub(crate) fn policy_name(alloc: Global, text: &[u8]) -> Result<String, AllocError> {
    said(alloc, PolicyName::parse(alloc, text).err())
}

pub(crate) fn path(alloc: Global, text: &[u8]) -> Result<String, AllocError> {
    said(alloc, AssetPath::parse(alloc, text).err())
}

pub(crate) fn file_name(alloc: Global, text: &[u8]) -> Result<String, AllocError> {
    said(alloc, Name::parse(alloc, as_text(text)).err())
}

pub(crate) fn content_type(alloc: Global, text: &[u8]) -> Result<String, AllocError> {
    said(alloc, ContentType::parse(alloc, text).err())
}

pub(crate) fn id(alloc: Global, text: &[u8]) -> Result<String, AllocError> {
    said(alloc, BlobId::parse(text).err())
}

/// The text of the id of that time and ten zeros.
pub(crate) fn id_of_time(alloc: Global, text: &[u8]) -> Result<String, AllocError> {
    let time = number(as_text(text)).min(LAST);
    characters(alloc, &BlobId::made(time, &[0; 10]).text())
}
