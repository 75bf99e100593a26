use crate::blob_props::BlobProps;
use nx_base::{BlobId, Name, StoreName};

/// Whether a blob is whole. The first of these that holds is told, from `Unreadable` on.
#[derive(Debug, Clone, Copy, PartialEq, Eq, Drop)]
pub enum Verdict {
    /// Its bytes are those that its properties speak of.
    Intact,
    /// Its properties file isn't readable.
    Unreadable,
    /// It has no bytes file.
    NoBytes,
    /// Its bytes file has another size: this one.
    WrongSize { found: u64 },
    /// Its bytes file has another digest.
    WrongSha1,
}

/// A blob that was found on a disk.
#[derive(Drop)]
pub struct Found {
    pub store: StoreName,
    pub id: BlobId,
    /// Its place: the name of each of its files without the ending.
    pub place: Name,
    pub verdict: Verdict,
    /// Its properties, where they are readable.
    pub props: Option<BlobProps>,
}
