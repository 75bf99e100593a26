ghost use Rattle.std.specs.Prelude.{◌≡◌, OnOk, OnErr};
ghost use Rattle.std.specs.FinMap as map;

use deletion_queue::Queue;
use nx_base::{BlobRef, Key, NoMemory};
use repo_model::Deletion;
use repo_model::plain::{Counts, KeyMap};
use std::alloc::Global;

/// What a core keeps itself, beside files and rows.
#[derive(Drop)]
pub struct Own {
    /// The blobs that are marked as deleted, in the order of deletion.
    pub trash: Queue,
    /// When the remote of a proxy last said that it has nothing of a key, in milliseconds.
    pub notes: KeyMap<u64>,
    /// The last timestamp that was given.
    pub last: u64,
    /// How many uploads were begun in each store or group.
    pub counts: Counts,
}

impl Own {
    /// Nothing is kept.
    pub fn empty(alloc: Global) -> Own
        ensures { result ≡ record { trash = map.empty; notes = map.empty; last = 0; counts = map.empty } }
    {
        Own {
            trash: Queue::new(alloc),
            notes: KeyMap::new(alloc),
            last: 0,
            counts: Counts::new(alloc),
        }
    }

    /// Puts a blob into the trash, which was deleted at that time in milliseconds.
    pub(crate) fn discard(
        &mut self,
        alloc: Global,
        blob: &BlobRef,
        key: &Key,
        at: u64,
    ) -> Result<(), NoMemory>
        ensures ok { OnOk result (self.new ≡ record self.old { trash = map.insert self.old.trash blob.now (record { at = at; key = key.now }) }) }
        ensures err { OnErr result (self.new ≡ self.old) }
    {
        let key = key.try_clone(alloc)?;
        let blob = blob.try_clone(alloc)?;
        self.trash.add(alloc, blob, Deletion { at, key })
    }
}
