use nx_base::StoreName;
use repo_model::Begin;

/// A content that came whole: a sealed file that nothing can change any more. It can't be dropped, since it owns the file,
/// which the disk installs or discards.
pub struct Ready<S> {
    pub file: S,
    pub begin: Begin,
    pub store: StoreName,
    /// In bytes.
    pub size: u64,
    /// The SHA-1 of its bytes.
    pub sha1: [u8; 20],
}
