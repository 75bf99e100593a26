/// How the places of the blobs of a store are chosen.
#[derive(Clone, Copy, Debug, PartialEq, Eq)]
pub enum Layout {
    /// By a hash of the blob's id: a volume and a chapter in it.
    Volume,
    /// By the minute in UTC at which the blob was made.
    Date,
}
