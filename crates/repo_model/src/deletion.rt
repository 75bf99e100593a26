use nx_base::Key;

/// When a blob was deleted, in milliseconds since 1970, and the key that had it.
#[derive(Drop)]
pub struct Deletion {
    pub at: u64,
    pub key: Key,
}
