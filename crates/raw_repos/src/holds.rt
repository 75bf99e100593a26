ghost use Rattle.std.specs.Prelude.{◌≡◌, ◌<◌, ◌^◌, ◌↔◌, Some, None, IsTrue, IfOk, Contains, length, replicate, slice_set};

use nx_base::{BlobRef, NoMemory};
use std::alloc::Global;
use std::marker::Model;

/// The blob that each caller reads, if it reads one. All memory is taken when it is made.
#[derive(Drop)]
pub struct Holds {
    blobs: Vec<Option<BlobRef>>,
}

impl Model for Holds {
    ghost use Rattle.std.specs.Prelude.{List, Option};
    ghost use Rattle.nx_base.specs.declared.blob_ref.BlobRef.{BlobRef};

    ghost Value = { List (Option BlobRef) };

    ghost view = { λ h. h.blobs.items };
}

/// Whether the caller reads that blob.
fn reads(held: &Option<BlobRef>, blob: &BlobRef) -> bool
    ensures { IsTrue result ↔ (held.now ≡ Some blob.now) }
{
    match held {
        Some(held) => held == blob,
        None => false,
    }
}

/// Whether the blob is one of those.
fn holds_blob(blobs: &[Option<BlobRef>], blob: &BlobRef) -> bool
    ensures { IsTrue result ↔ Contains blobs.now (Some blob.now) }
{
    for held in blobs {
        if reads(held, blob) {
            return true;
        }
    }
    false
}

impl Holds {
    /// Of so many callers, of whom nobody reads.
    pub fn new(alloc: Global, callers: u32) -> Result<Holds, NoMemory>
        ensures { IfOk result (λ holds. holds ≡ replicate callers None) }
    {
        let mut blobs = Vec::new(alloc);
        for _ in 0..callers {
            if blobs.push(None).is_err() {
                return Err(NoMemory);
            }
        }
        Ok(Holds { blobs })
    }

    /// The caller reads the blob. Takes no memory.
    pub fn set(&mut self, caller: u32, blob: BlobRef)
        requires { caller < length self.old }
        ensures { self.new ≡ slice_set self.old caller (Some blob) }
    {
        self.blobs[caller as usize] = Some(blob);
    }

    /// The caller reads nothing any more. Takes no memory.
    pub fn clear(&mut self, caller: u32)
        requires { caller < length self.old }
        ensures { self.new ≡ slice_set self.old caller None }
    {
        self.blobs[caller as usize] = None;
    }

    /// Whether a caller reads the blob. Takes no memory.
    pub fn held(&self, blob: &BlobRef) -> bool
        ensures { IsTrue result ↔ Contains self.now (Some blob.now) }
    {
        holds_blob(&self.blobs, blob)
    }
}
