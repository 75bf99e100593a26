//! The keys that have a meaning.
ghost use Rattle.std.specs.Prelude.{◌≡◌};
ghost use Rattle.nx_base.specs.Texts.{same_name};
ghost use Rattle.blob_properties.specs.Keys.{is_asset_key, is_content_key, is_mark_key, is_own_key};

pub const PATH: &str = "@BlobStore.blob-name";

pub const CONTENT_TYPE: &str = "@BlobStore.content-type";

pub const REPO: &str = "@Bucket.repo-name";

pub const STAMP: &str = "creationTime";

pub const SHA1: &str = "sha1";

pub const SIZE: &str = "size";

pub const DELETED: &str = "deleted";

pub const DATE: &str = "deletedDateTime";

pub const REASON: &str = "deletedReason";

// Whether the two texts are the same.
fn same_text(a: &str, b: &str) -> bool
    ensures { result ≡ same_name a.now b.now }
{
    a == b
}

// Whether the key says of what asset the blob is the content.
fn is_asset_key(key: &str) -> bool
    ensures { result ≡ is_asset_key key.now }
{
    same_text(key, PATH) || same_text(key, CONTENT_TYPE) || same_text(key, REPO)
}

// Whether the key is one of the content.
fn is_content_key(key: &str) -> bool
    ensures { result ≡ is_content_key key.now }
{
    same_text(key, STAMP) || same_text(key, SHA1) || same_text(key, SIZE)
}

// Whether the key is one of a mark.
fn is_mark_key(key: &str) -> bool
    ensures { result ≡ is_mark_key key.now }
{
    same_text(key, DELETED) || same_text(key, DATE) || same_text(key, REASON)
}

/// Whether the key is one of the nine.
#[tactic(auto, unfolding(crate::specs::Keys::is_own_key))]
pub fn is_own_key(key: &str) -> bool
    ensures { result ≡ is_own_key key.now }
{
    is_asset_key(key) || is_content_key(key) || is_mark_key(key)
}
