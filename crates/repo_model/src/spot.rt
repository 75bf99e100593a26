use nx_base::{BlobId, StoreName};

/// Where the properties file of a blob stands: a store, and the id in the file's name.
#[derive(Drop, PartialEq, Eq, PartialOrd, Ord)]
pub struct Spot {
    pub store: StoreName,
    pub id: BlobId,
}
