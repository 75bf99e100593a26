ghost use Rattle.std.specs.Prelude.{◌≡◌, ℕ, OnOk, OnErr};
ghost use Rattle.std.specs.Option.{option_copied};
ghost use Rattle.std.specs.FinMap as map;

use nx_base::{BlobRef, NoMemory};
use std::alloc::Global;
use std::collections::BTreeMap;
use std::collections::btree_map::Iter;
use std::marker::Model;

/// A finite map from blobs.
#[derive(Drop)]
pub struct BlobMap<V> {
    tree: BTreeMap<BlobRef, V>,
}

impl<V> Model for BlobMap<V> {
    ghost use Rattle.std.specs.FinMap as map;
    ghost use Rattle.nx_base.specs.Order.{age_cmp};
    ghost use Rattle.repo_model.specs.Spots.{coded_blob};

    ghost Value = { map.FinMap age_cmp V };

    ghost coded = { map.code coded_blob V.code };

    ghost view = { λ a. map.from_entries a.tree.entries };
}

impl<V> BlobMap<V> {
    pub fn new(alloc: Global) -> Self
        ensures { result ≡ map.empty }
    {
        BlobMap {
            tree: BTreeMap::new(alloc),
        }
    }

    pub fn get(&self, blob: &BlobRef) -> Option<&V>
        ensures { option_copied result ≡ map.get self.now blob.now }
    {
        self.tree.get(blob)
    }

    /// The entries, in order.
    pub fn iter(&self) -> Iter<'_, BlobRef, V>
        ensures { result ≡ map.entries self.now }
    {
        self.tree.iter()
    }
}

impl<V: Drop> BlobMap<V> {
    /// Sets the value of the blob. Where memory is refused, nothing changes.
    pub fn insert(&mut self, blob: BlobRef, value: V) -> Result<(), NoMemory>
        ensures ok { OnOk result (self.new ≡ map.insert self.old blob value) }
        ensures err { OnErr result (self.new ≡ self.old) }
    {
        match self.tree.insert(blob, value) {
            Ok(_) => Ok(()),
            Err(_) => Err(NoMemory),
        }
    }

    pub fn remove(&mut self, blob: &BlobRef)
        ensures { self.new ≡ map.remove self.old blob.now }
    {
        let _value = self.tree.remove(blob);
    }
}
