use crate::reason::Reason;

/// The mark of a blob that is deleted.
#[derive(Debug, Drop)]
pub struct Deleted {
    pub reason: Reason,
    /// When it was deleted, in milliseconds; 0 where the file doesn't say it.
    pub at: u64,
}
