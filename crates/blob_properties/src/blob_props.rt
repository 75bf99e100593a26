use crate::deleted::Deleted;
use java_props::Pairs;
use nx_base::{ContentType, Key};
use std::marker::Model;

/// The properties of a blob. Its numbers are in range (the size below 2^63, the times below 2^48), and `others` has none of
/// the nine keys that have a meaning.
#[derive(Drop)]
pub struct BlobProps {
    /// The key whose content it is.
    pub key: Key,
    pub content_type: ContentType,
    /// The length of the content in bytes.
    pub size: u64,
    /// The digest of the content.
    pub sha1: [u8; 20],
    /// The time in milliseconds at which it was made, or later if blobs came faster.
    pub timestamp: u64,
    /// Its mark, if it is deleted.
    pub deleted: Option<Deleted>,
    /// The pairs of all other keys.
    pub others: Pairs,
}

impl Model for BlobProps {
    ghost use Rattle.blob_properties.specs.Props.{Props, IsInRange};

    ghost Value = { Props };

    ghost view = { λ p. record {
      key = p.key;
      content_type = p.content_type;
      size = p.size;
      sha1 = p.sha1;
      timestamp = p.timestamp;
      deleted = p.deleted;
      others = p.others;
    } };

    ghost invariant = { λ p. IsInRange (record {
      key = p.key;
      content_type = p.content_type;
      size = p.size;
      sha1 = p.sha1;
      timestamp = p.timestamp;
      deleted = p.deleted;
      others = p.others;
    }) };
}
