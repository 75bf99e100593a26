ghost use Rattle.std.specs.Prelude.{◌≡◌, OnOk, OnErr, MatchOption};
ghost use Rattle.std.specs.Option.{option_copied};
ghost use Rattle.std.specs.FinMap as map;

use crate::place::QueuePlace;
use crate::places::Places;
use nx_base::{BlobRef, NoMemory};
use repo_model::Deletion;
use std::alloc::Global;
use std::collections::BTreeMap;
use std::marker::Model;

/// The deleted blobs with their deletions, and in the order of deletion.
#[derive(Drop)]
pub struct Queue {
    deletions: BTreeMap<BlobRef, Deletion>,
    places: Places,
}

impl Model for Queue {
    ghost use Rattle.std.specs.FinMap as map;
    ghost use Rattle.nx_base.specs.Order.{age_cmp};
    ghost use Rattle.repo_model.specs.declared.deletion.Deletion.{Deletion};
    ghost use Rattle.repo_model.specs.Spots.{coded_blob};
    ghost use Rattle.deletion_queue.specs.Codes.{coded_deletion};
    ghost use Rattle.deletion_queue.specs.Ties.{ArePlacesOf};

    ghost Value = { map.FinMap age_cmp Deletion };

    ghost coded = { map.code coded_blob coded_deletion };

    ghost view = { λ q. map.from_entries q.deletions.entries };

    ghost invariant = { λ q. ArePlacesOf (map.from_entries q.deletions.entries) q.places };
}

impl Queue {
    ghost use Rattle.deletion_queue.specs.Ties.{IsNext, NoneBehind};

    pub fn new(alloc: Global) -> Queue
        ensures { result ≡ map.empty }
    {
        Queue {
            deletions: BTreeMap::new(alloc),
            places: Places::new(alloc),
        }
    }

    /// The deletion of a blob, if it is deleted.
    pub fn get(&self, blob: &BlobRef) -> Option<&Deletion>
        ensures { option_copied result ≡ map.get self.now blob.now }
    {
        self.deletions.get(blob)
    }

    /// Adds a deleted blob. One that is there already moves to its new place. Where memory is refused, nothing changes.
    pub fn add(&mut self, alloc: Global, blob: BlobRef, deletion: Deletion) -> Result<(), NoMemory>
        ensures ok { OnOk result (self.new ≡ map.insert self.old blob deletion) }
        ensures err { OnErr result (self.new ≡ self.old) }
    {
        let at = deletion.at;
        let place = QueuePlace {
            at,
            blob: blob.try_clone(alloc)?,
        };
        let mut left = QueuePlace {
            at,
            blob: blob.try_clone(alloc)?,
        };
        self.places.add(place)?;
        match self.deletions.insert(blob, deletion) {
            Ok(None) => Ok(()),
            Ok(Some(before)) => {
                if before.at != at {
                    left.at = before.at;
                    self.places.remove(&left);
                }
                Ok(())
            }
            Err(_) => {
                self.places.remove(&left);
                Err(NoMemory)
            }
        }
    }

    /// Takes a blob out, if it is there.
    pub fn take(&mut self, blob: &BlobRef) -> Option<Deletion>
        ensures taken { result ≡ map.get self.old blob.now }
        ensures left { self.new ≡ map.remove self.old blob.now }
    {
        let (blob, deletion) = self.deletions.remove_entry(blob)?;
        self.places.remove(&QueuePlace {
            at: deletion.at,
            blob,
        });
        Some(deletion)
    }

    /// The first element behind the place in the order of time, store, id and timestamp, or the first of all.
    pub fn after(&self, place: Option<&QueuePlace>) -> Option<(&BlobRef, &Deletion)>
        ensures { MatchOption result (NoneBehind self.now (option_copied place.entry)) (λ e. IsNext self.now (option_copied place.entry) e.0.now e.1.now) }
    {
        let first = self.places.first_behind(place)?;
        let deletion = self.deletions.get(&first.blob)?;
        Some((&first.blob, deletion))
    }
}
