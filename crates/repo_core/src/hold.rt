use nx_base::BlobRef;

/// A blob that is being read, and the number of the entry that gave it.
#[derive(Drop)]
pub struct Hold {
    pub blob: BlobRef,
    pub entry: u64,
}
