ghost use Rattle.std.specs.Prelude.{◌≡◌, ℕ, OnOk, OnErr};
ghost use Rattle.std.specs.FinMap as map;

use nx_base::{NoMemory, StoreName};
use std::alloc::Global;
use std::collections::BTreeMap;
use std::marker::Model;

/// How many uploads were begun in each store or group.
#[derive(Drop)]
pub struct Counts {
    tree: BTreeMap<StoreName, u64>,
}

impl Model for Counts {
    ghost use Rattle.std.specs.FinMap as map;
    ghost use Rattle.std.specs.Prelude.{ℕ};
    ghost use Rattle.std.specs.Coded.{coded_ℕ, coded_list};
    ghost use Rattle.nx_base.specs.Order.{name_cmp};

    ghost Value = { map.FinMap name_cmp ℕ };

    ghost coded = { map.code (coded_list coded_ℕ) coded_ℕ };

    ghost view = { λ a. map.from_entries a.tree.entries };
}

impl Counts {
    pub fn new(alloc: Global) -> Self
        ensures { result ≡ map.empty }
    {
        Counts {
            tree: BTreeMap::new(alloc),
        }
    }

    pub fn get(&self, store: &StoreName) -> Option<u64>
        ensures { result ≡ map.get self.now store.now }
    {
        self.tree.get(store).copied()
    }

    /// Sets the count of the store. Where memory is refused, nothing changes.
    pub fn insert(&mut self, store: StoreName, count: u64) -> Result<(), NoMemory>
        ensures ok { OnOk result (self.new ≡ map.insert self.old store count) }
        ensures err { OnErr result (self.new ≡ self.old) }
    {
        match self.tree.insert(store, count) {
            Ok(_) => Ok(()),
            Err(_) => Err(NoMemory),
        }
    }
}
