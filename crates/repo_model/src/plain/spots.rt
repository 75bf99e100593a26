ghost use Rattle.std.specs.Prelude.{◌≡◌, OnOk, OnErr};
ghost use Rattle.std.specs.FinSet as set;

use crate::spot::Spot;
use nx_base::NoMemory;
use std::alloc::Global;
use std::collections::BTreeSet;
use std::marker::Model;

/// The places that are taken.
#[derive(Drop)]
pub struct Spots {
    tree: BTreeSet<Spot>,
}

impl Model for Spots {
    ghost use Rattle.std.specs.FinSet as set;
    ghost use Rattle.repo_model.specs.Spots.{spot_cmp, coded_spot};

    ghost Value = { set.FinSet spot_cmp };

    ghost coded = { set.code coded_spot };

    ghost view = { λ a. set.from_list a.tree.keys };
}

impl Spots {
    pub fn new(alloc: Global) -> Self
        ensures { result ≡ set.empty }
    {
        Spots {
            tree: BTreeSet::new(alloc),
        }
    }

    pub fn has(&self, spot: &Spot) -> bool
        ensures { result ≡ set.contains self.now spot.now }
    {
        self.tree.contains(spot)
    }

    /// Takes the place. Where memory is refused, nothing changes.
    pub fn insert(&mut self, spot: Spot) -> Result<(), NoMemory>
        ensures ok { OnOk result (self.new ≡ set.insert self.old spot) }
        ensures err { OnErr result (self.new ≡ self.old) }
    {
        match self.tree.insert(spot) {
            Ok(_) => Ok(()),
            Err(_) => Err(NoMemory),
        }
    }

    /// Frees the place.
    pub fn remove(&mut self, spot: &Spot)
        ensures { self.new ≡ set.remove self.old spot.now }
    {
        let _was_there = self.tree.remove(spot);
    }
}
