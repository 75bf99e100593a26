ghost use Rattle.std.specs.Prelude.{◌≡◌, IfOk};

use crate::blob_ref::BlobRef;
use crate::key::Key;
use crate::name_err::NoMemory;
use std::alloc::Global;

/// A blob that is marked as deleted.
#[derive(Debug, Drop)]
pub struct Marked {
    pub blob: BlobRef,
    /// When it was marked, in milliseconds.
    pub at: u64,
    /// The key whose content it was.
    pub key: Key,
}

impl Marked {
    pub fn try_clone(&self, alloc: Global) -> Result<Marked, NoMemory>
        ensures { IfOk result (λ marked. marked ≡ self.now) }
    {
        let blob = self.blob.try_clone(alloc)?;
        let key = self.key.try_clone(alloc)?;
        Ok(Marked {
            blob,
            at: self.at,
            key,
        })
    }
}
