ghost use Rattle.std.specs.Prelude.{◌≡◌, OnOk, OnErr};
ghost use Rattle.std.specs.Option.{option_copied};
ghost use Rattle.std.specs.FinSet as set;

use crate::place::QueuePlace;
use nx_base::NoMemory;
use std::alloc::Global;
use std::collections::BTreeSet;
use std::marker::Model;
use std::ops::Bound;

/// A finite set of places, in their order.
#[derive(Drop)]
pub(crate) struct Places {
    tree: BTreeSet<QueuePlace>,
}

impl Model for Places {
    ghost use Rattle.std.specs.FinSet as set;
    ghost use Rattle.deletion_queue.specs.Order.{place_cmp};
    ghost use Rattle.deletion_queue.specs.Codes.{coded_place};

    ghost Value = { set.FinSet place_cmp };

    ghost coded = { set.code coded_place };

    ghost view = { λ a. set.from_list a.tree.keys };
}

impl Places {
    ghost use Rattle.deletion_queue.specs.Behind.{IsFirstBehind};

    pub(crate) fn new(alloc: Global) -> Self
        ensures { result ≡ set.empty }
    {
        Places {
            tree: BTreeSet::new(alloc),
        }
    }

    /// Adds the place. Where memory is refused, nothing changes.
    pub(crate) fn add(&mut self, place: QueuePlace) -> Result<(), NoMemory>
        ensures ok { OnOk result (self.new ≡ set.insert self.old place) }
        ensures err { OnErr result (self.new ≡ self.old) }
    {
        match self.tree.insert(place) {
            Ok(_) => Ok(()),
            Err(_) => Err(NoMemory),
        }
    }

    pub(crate) fn remove(&mut self, place: &QueuePlace)
        ensures { self.new ≡ set.remove self.old place.now }
    {
        let _was_there = self.tree.remove(place);
    }

    /// The first place behind the other, or the first of all.
    pub(crate) fn first_behind(&self, other: Option<&QueuePlace>) -> Option<&QueuePlace>
        ensures { IsFirstBehind self.now (option_copied other.entry) (option_copied result) }
    {
        let end: Bound<&QueuePlace> = Bound::Unbounded;
        match other {
            Some(other) => self.tree.range((Bound::Excluded(other), end)).next(),
            None => self.tree.range((Bound::Unbounded, end)).next(),
        }
    }
}
