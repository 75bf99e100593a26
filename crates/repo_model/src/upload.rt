use nx_base::{ContentType, Key};

/// A content that was received whole. `size` is in bytes.
#[derive(Drop)]
pub struct Upload {
    pub key: Key,
    pub content_type: ContentType,
    pub size: u64,
    pub sha1: [u8; 20],
}
