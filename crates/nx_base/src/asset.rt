ghost use Rattle.std.specs.Prelude.{◌≡◌, IfOk};

use crate::blob_ref::BlobRef;
use crate::content_type::ContentType;
use crate::name_err::NoMemory;
use std::alloc::Global;

/// The content of a key.
#[derive(Debug, Drop)]
pub struct Asset {
    pub blob: BlobRef,
    /// Its length in bytes.
    pub size: u64,
    pub sha1: [u8; 20],
    pub content_type: ContentType,
    /// When it was last known to be what the remote has, in milliseconds.
    pub verified: u64,
    /// When it was last asked for, in milliseconds, if ever.
    pub downloaded: Option<u64>,
}

impl Asset {
    pub fn try_clone(&self, alloc: Global) -> Result<Asset, NoMemory>
        ensures { IfOk result (λ asset. asset ≡ self.now) }
    {
        let blob = self.blob.try_clone(alloc)?;
        let content_type = self.content_type.try_clone(alloc)?;
        Ok(Asset {
            blob,
            size: self.size,
            sha1: self.sha1,
            content_type,
            verified: self.verified,
            downloaded: self.downloaded,
        })
    }
}
