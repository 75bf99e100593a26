//! Laws of the definitions that the crates above cite. The functions do nothing; their contracts
//! are the laws.
ghost use Rattle.std.specs.Prelude.{◌≡◌, ◌↔◌, ℕ, ◌-◌, ◌*◌, ◌≤◌, IsTrue, IfSome};
ghost use Rattle.std.specs.declared.cmp.Ordering.TheVariants.{Equal};
ghost use Rattle.std.specs.Cmp.{IsTotalOrder};
ghost use Rattle.nx_base.specs.declared.key.Key.{Key};
ghost use Rattle.nx_base.specs.declared.asset.Asset.{Asset};
ghost use Rattle.nx_base.specs.declared.blob_ref.BlobRef.{BlobRef};
ghost use Rattle.nx_base.specs.Order.{key_cmp, age_cmp};
ghost use Rattle.nx_base.specs.Cleanup.{Criteria, day, last_used, is_hit, matches};

/// Keys are in a total order, in which no two keys are alike.
pub fn keys_are_ordered()
    ensures total { IsTotalOrder key_cmp }
    ensures exact { (a : Key) (b : Key) → key_cmp a b ≡ Equal → a ≡ b }
{}

/// Blobs are in a total order, in which no two blobs are alike. So of any blobs one is the newest.
pub fn blobs_are_ordered()
    ensures total { IsTotalOrder age_cmp }
    ensures exact { (a : BlobRef) (b : BlobRef) → age_cmp a b ≡ Equal → a ≡ b }
{}

/// A policy takes a row where each criterion that is set holds: the blob is old enough, it wasn't
/// asked for in so many days, and the pattern matches all of the path.
pub fn each_criterion_counts()
    ensures { (criteria : Criteria) (key : Key) (asset : Asset) (now : ℕ) →
        IsTrue (matches criteria key asset now) ↔
        (IfSome criteria.age (λ days. days * day ≤ now - asset.blob.timestamp)
        × IfSome criteria.usage (λ days. days * day ≤ now - last_used asset)
        × IfSome criteria.path (λ pattern. IsTrue (is_hit pattern key.path))) }
{}
