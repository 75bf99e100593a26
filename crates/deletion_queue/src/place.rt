//! Places in the queue, and their order: by time, then by store, by id and by timestamp.
ghost use Rattle.std.specs.Ordering.{eq_by_cmp};
ghost use Rattle.deletion_queue.specs.Order.{place_cmp};

use nx_base::BlobRef;
use std::cmp::Ordering;

/// Where an element stands in the queue: when its blob was deleted, in milliseconds since 1970, and the blob.
#[derive(Drop)]
pub struct QueuePlace {
    pub at: u64,
    pub blob: BlobRef,
}

impl PartialEq for QueuePlace {
    ghost use Rattle.std.specs.Cmp.{eq_by_cmp_equiv, partial_equiv_from_equiv};
    ghost use Rattle.deletion_queue.specs.OrderLaws.{place_cmp_total};

    ghost eq = { eq_by_cmp (place_cmp) };

    ghost laws = { partial_equiv_from_equiv (eq_by_cmp_equiv place_cmp_total) };

    fn eq(&self, other: &QueuePlace) -> bool {
        self.cmp(other).is_eq()
    }
}

impl Eq for QueuePlace {
    ghost use Rattle.std.specs.Cmp.{eq_by_cmp_equiv};
    ghost use Rattle.deletion_queue.specs.OrderLaws.{place_cmp_total};

    ghost laws = { eq_by_cmp_equiv place_cmp_total };
}

impl PartialOrd for QueuePlace {
    ghost use Rattle.std.specs.Prelude.{Some, refl};
    ghost use Rattle.std.specs.Cmp.{partial_order_from_agreeing_total};
    ghost use Rattle.deletion_queue.specs.OrderLaws.{place_cmp_total};

    ghost partial_cmp = { λ x y. Some (place_cmp x y) };

    ghost laws = { partial_order_from_agreeing_total (place_cmp) place_cmp_total (λ x y. refl) (λ x y. refl) };

    fn partial_cmp(&self, other: &QueuePlace) -> Option<Ordering> {
        Some(self.cmp(other))
    }
}

impl Ord for QueuePlace {
    ghost use Rattle.std.specs.Prelude.{refl};
    ghost use Rattle.std.specs.Cmp.Rules.{comparing};
    ghost use Rattle.std.proofs.Common.{rules};
    ghost use Rattle.deletion_queue.specs.OrderLaws.{place_cmp_total};

    ghost cmp = { place_cmp };

    ghost total = { place_cmp_total };

    ghost matches_partial_cmp = { Prim.search (comparing, rules) };

    ghost matches_eq = { λ x y. refl };

    fn cmp(&self, other: &QueuePlace) -> Ordering {
        self.at
            .cmp(&other.at)
            .then(self.blob.store.cmp(&other.blob.store))
            .then(self.blob.id.as_bytes().cmp(other.blob.id.as_bytes()))
            .then(self.blob.timestamp.cmp(&other.blob.timestamp))
    }
}
