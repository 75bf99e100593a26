ghost use Rattle.std.specs.Prelude.{◌≡◌, IfOk};

use crate::blob_id::BlobId;
use crate::name_err::NoMemory;
use crate::store_name::StoreName;
use crate::text::compare_texts;
use std::alloc::Global;
use std::cmp::Ordering;

/// A blob: its store, its id and its timestamp.
#[derive(Debug, Drop)]
pub struct BlobRef {
    pub store: StoreName,
    pub id: BlobId,
    /// The time in milliseconds at which it was made, or later if blobs came faster.
    pub timestamp: u64,
}

impl BlobRef {
    ghost use Rattle.nx_base.specs.Order.{age_cmp};

    /// The order of blobs from the oldest: by timestamp, then by store, then by id.
    pub fn compare_age(&self, other: &BlobRef) -> Ordering
        ensures { result ≡ age_cmp self.now other.now }
    {
        if self.timestamp < other.timestamp {
            return Ordering::Less;
        }
        if other.timestamp < self.timestamp {
            return Ordering::Greater;
        }
        match compare_texts(self.store.as_bytes(), other.store.as_bytes()) {
            Ordering::Equal => self.id.compare(&other.id),
            unequal => unequal,
        }
    }

    pub fn try_clone(&self, alloc: Global) -> Result<BlobRef, NoMemory>
        ensures { IfOk result (λ blob. blob ≡ self.now) }
    {
        let store = self.store.try_clone(alloc)?;
        Ok(BlobRef {
            store,
            id: self.id,
            timestamp: self.timestamp,
        })
    }
}
