//! The orders of names, of keys and of blobs, as ordered maps take them: names in byte order, keys
//! by repository and then by path, blobs from the oldest.
ghost use Rattle.std.specs.Ordering.{eq_by_cmp};
ghost use Rattle.nx_base.specs.Order.{name_cmp, key_cmp, age_cmp};

use crate::asset_path::AssetPath;
use crate::blob_ref::BlobRef;
use crate::key::Key;
use crate::policy_name::PolicyName;
use crate::repo_name::RepoName;
use crate::store_name::StoreName;
use std::cmp::Ordering;

impl PartialEq for RepoName {
    ghost use Rattle.std.specs.Cmp.{eq_by_cmp_equiv, partial_equiv_from_equiv};
    ghost use Rattle.std.specs.Cmp.Lexicographic.{nat_list_cmp_total};

    ghost eq = { eq_by_cmp (name_cmp) };

    ghost laws = { partial_equiv_from_equiv (eq_by_cmp_equiv nat_list_cmp_total) };

    fn eq(&self, other: &RepoName) -> bool {
        self.cmp(other).is_eq()
    }
}

impl Eq for RepoName {
    ghost use Rattle.std.specs.Cmp.{eq_by_cmp_equiv};
    ghost use Rattle.std.specs.Cmp.Lexicographic.{nat_list_cmp_total};

    ghost laws = { eq_by_cmp_equiv nat_list_cmp_total };
}

impl PartialOrd for RepoName {
    ghost use Rattle.std.specs.Prelude.{Some, refl};
    ghost use Rattle.std.specs.Cmp.{partial_order_from_agreeing_total};
    ghost use Rattle.std.specs.Cmp.Lexicographic.{nat_list_cmp_total};

    ghost partial_cmp = { λ x y. Some (name_cmp x y) };

    ghost laws = { partial_order_from_agreeing_total (name_cmp) nat_list_cmp_total (λ x y. refl) (λ x y. refl) };

    fn partial_cmp(&self, other: &RepoName) -> Option<Ordering> {
        Some(self.cmp(other))
    }
}

impl Ord for RepoName {
    ghost use Rattle.std.specs.Prelude.{refl};
    ghost use Rattle.std.specs.Cmp.Rules.{comparing};
    ghost use Rattle.std.proofs.Common.{rules};
    ghost use Rattle.std.specs.Cmp.Lexicographic.{nat_list_cmp_total};

    ghost cmp = { name_cmp };

    ghost total = { nat_list_cmp_total };

    ghost matches_partial_cmp = { Prim.search (comparing, rules) };

    ghost matches_eq = { λ x y. refl };

    fn cmp(&self, other: &RepoName) -> Ordering {
        self.as_bytes().cmp(other.as_bytes())
    }
}

impl PartialEq for StoreName {
    ghost use Rattle.std.specs.Cmp.{eq_by_cmp_equiv, partial_equiv_from_equiv};
    ghost use Rattle.std.specs.Cmp.Lexicographic.{nat_list_cmp_total};

    ghost eq = { eq_by_cmp (name_cmp) };

    ghost laws = { partial_equiv_from_equiv (eq_by_cmp_equiv nat_list_cmp_total) };

    fn eq(&self, other: &StoreName) -> bool {
        self.cmp(other).is_eq()
    }
}

impl Eq for StoreName {
    ghost use Rattle.std.specs.Cmp.{eq_by_cmp_equiv};
    ghost use Rattle.std.specs.Cmp.Lexicographic.{nat_list_cmp_total};

    ghost laws = { eq_by_cmp_equiv nat_list_cmp_total };
}

impl PartialOrd for StoreName {
    ghost use Rattle.std.specs.Prelude.{Some, refl};
    ghost use Rattle.std.specs.Cmp.{partial_order_from_agreeing_total};
    ghost use Rattle.std.specs.Cmp.Lexicographic.{nat_list_cmp_total};

    ghost partial_cmp = { λ x y. Some (name_cmp x y) };

    ghost laws = { partial_order_from_agreeing_total (name_cmp) nat_list_cmp_total (λ x y. refl) (λ x y. refl) };

    fn partial_cmp(&self, other: &StoreName) -> Option<Ordering> {
        Some(self.cmp(other))
    }
}

impl Ord for StoreName {
    ghost use Rattle.std.specs.Prelude.{refl};
    ghost use Rattle.std.specs.Cmp.Rules.{comparing};
    ghost use Rattle.std.proofs.Common.{rules};
    ghost use Rattle.std.specs.Cmp.Lexicographic.{nat_list_cmp_total};

    ghost cmp = { name_cmp };

    ghost total = { nat_list_cmp_total };

    ghost matches_partial_cmp = { Prim.search (comparing, rules) };

    ghost matches_eq = { λ x y. refl };

    fn cmp(&self, other: &StoreName) -> Ordering {
        self.as_bytes().cmp(other.as_bytes())
    }
}

impl PartialEq for PolicyName {
    ghost use Rattle.std.specs.Cmp.{eq_by_cmp_equiv, partial_equiv_from_equiv};
    ghost use Rattle.std.specs.Cmp.Lexicographic.{nat_list_cmp_total};

    ghost eq = { eq_by_cmp (name_cmp) };

    ghost laws = { partial_equiv_from_equiv (eq_by_cmp_equiv nat_list_cmp_total) };

    fn eq(&self, other: &PolicyName) -> bool {
        self.cmp(other).is_eq()
    }
}

impl Eq for PolicyName {
    ghost use Rattle.std.specs.Cmp.{eq_by_cmp_equiv};
    ghost use Rattle.std.specs.Cmp.Lexicographic.{nat_list_cmp_total};

    ghost laws = { eq_by_cmp_equiv nat_list_cmp_total };
}

impl PartialOrd for PolicyName {
    ghost use Rattle.std.specs.Prelude.{Some, refl};
    ghost use Rattle.std.specs.Cmp.{partial_order_from_agreeing_total};
    ghost use Rattle.std.specs.Cmp.Lexicographic.{nat_list_cmp_total};

    ghost partial_cmp = { λ x y. Some (name_cmp x y) };

    ghost laws = { partial_order_from_agreeing_total (name_cmp) nat_list_cmp_total (λ x y. refl) (λ x y. refl) };

    fn partial_cmp(&self, other: &PolicyName) -> Option<Ordering> {
        Some(self.cmp(other))
    }
}

impl Ord for PolicyName {
    ghost use Rattle.std.specs.Prelude.{refl};
    ghost use Rattle.std.specs.Cmp.Rules.{comparing};
    ghost use Rattle.std.proofs.Common.{rules};
    ghost use Rattle.std.specs.Cmp.Lexicographic.{nat_list_cmp_total};

    ghost cmp = { name_cmp };

    ghost total = { nat_list_cmp_total };

    ghost matches_partial_cmp = { Prim.search (comparing, rules) };

    ghost matches_eq = { λ x y. refl };

    fn cmp(&self, other: &PolicyName) -> Ordering {
        self.as_bytes().cmp(other.as_bytes())
    }
}

impl PartialEq for AssetPath {
    ghost use Rattle.std.specs.Cmp.{eq_by_cmp_equiv, partial_equiv_from_equiv};
    ghost use Rattle.std.specs.Cmp.Lexicographic.{nat_list_cmp_total};

    ghost eq = { eq_by_cmp (name_cmp) };

    ghost laws = { partial_equiv_from_equiv (eq_by_cmp_equiv nat_list_cmp_total) };

    fn eq(&self, other: &AssetPath) -> bool {
        self.cmp(other).is_eq()
    }
}

impl Eq for AssetPath {
    ghost use Rattle.std.specs.Cmp.{eq_by_cmp_equiv};
    ghost use Rattle.std.specs.Cmp.Lexicographic.{nat_list_cmp_total};

    ghost laws = { eq_by_cmp_equiv nat_list_cmp_total };
}

impl PartialOrd for AssetPath {
    ghost use Rattle.std.specs.Prelude.{Some, refl};
    ghost use Rattle.std.specs.Cmp.{partial_order_from_agreeing_total};
    ghost use Rattle.std.specs.Cmp.Lexicographic.{nat_list_cmp_total};

    ghost partial_cmp = { λ x y. Some (name_cmp x y) };

    ghost laws = { partial_order_from_agreeing_total (name_cmp) nat_list_cmp_total (λ x y. refl) (λ x y. refl) };

    fn partial_cmp(&self, other: &AssetPath) -> Option<Ordering> {
        Some(self.cmp(other))
    }
}

impl Ord for AssetPath {
    ghost use Rattle.std.specs.Prelude.{refl};
    ghost use Rattle.std.specs.Cmp.Rules.{comparing};
    ghost use Rattle.std.proofs.Common.{rules};
    ghost use Rattle.std.specs.Cmp.Lexicographic.{nat_list_cmp_total};

    ghost cmp = { name_cmp };

    ghost total = { nat_list_cmp_total };

    ghost matches_partial_cmp = { Prim.search (comparing, rules) };

    ghost matches_eq = { λ x y. refl };

    fn cmp(&self, other: &AssetPath) -> Ordering {
        self.as_bytes().cmp(other.as_bytes())
    }
}

impl PartialEq for Key {
    ghost use Rattle.std.specs.Cmp.{eq_by_cmp_equiv, partial_equiv_from_equiv};
    ghost use Rattle.nx_base.specs.OrderLaws.{key_cmp_total};

    ghost eq = { eq_by_cmp (key_cmp) };

    ghost laws = { partial_equiv_from_equiv (eq_by_cmp_equiv key_cmp_total) };

    fn eq(&self, other: &Key) -> bool {
        self.cmp(other).is_eq()
    }
}

impl Eq for Key {
    ghost use Rattle.std.specs.Cmp.{eq_by_cmp_equiv};
    ghost use Rattle.nx_base.specs.OrderLaws.{key_cmp_total};

    ghost laws = { eq_by_cmp_equiv key_cmp_total };
}

impl PartialOrd for Key {
    ghost use Rattle.std.specs.Prelude.{Some, refl};
    ghost use Rattle.std.specs.Cmp.{partial_order_from_agreeing_total};
    ghost use Rattle.nx_base.specs.OrderLaws.{key_cmp_total};

    ghost partial_cmp = { λ x y. Some (key_cmp x y) };

    ghost laws = { partial_order_from_agreeing_total (key_cmp) key_cmp_total (λ x y. refl) (λ x y. refl) };

    fn partial_cmp(&self, other: &Key) -> Option<Ordering> {
        Some(self.cmp(other))
    }
}

impl Ord for Key {
    ghost use Rattle.std.specs.Prelude.{refl};
    ghost use Rattle.std.specs.Cmp.Rules.{comparing};
    ghost use Rattle.std.proofs.Common.{rules};
    ghost use Rattle.nx_base.specs.OrderLaws.{key_cmp_total};

    ghost cmp = { key_cmp };

    ghost total = { key_cmp_total };

    ghost matches_partial_cmp = { Prim.search (comparing, rules) };

    ghost matches_eq = { λ x y. refl };

    fn cmp(&self, other: &Key) -> Ordering {
        self.repo.cmp(&other.repo).then(self.path.cmp(&other.path))
    }
}

impl PartialEq for BlobRef {
    ghost use Rattle.std.specs.Cmp.{eq_by_cmp_equiv, partial_equiv_from_equiv};
    ghost use Rattle.nx_base.specs.OrderLaws.{age_cmp_total};

    ghost eq = { eq_by_cmp (age_cmp) };

    ghost laws = { partial_equiv_from_equiv (eq_by_cmp_equiv age_cmp_total) };

    fn eq(&self, other: &BlobRef) -> bool {
        self.cmp(other).is_eq()
    }
}

impl Eq for BlobRef {
    ghost use Rattle.std.specs.Cmp.{eq_by_cmp_equiv};
    ghost use Rattle.nx_base.specs.OrderLaws.{age_cmp_total};

    ghost laws = { eq_by_cmp_equiv age_cmp_total };
}

impl PartialOrd for BlobRef {
    ghost use Rattle.std.specs.Prelude.{Some, refl};
    ghost use Rattle.std.specs.Cmp.{partial_order_from_agreeing_total};
    ghost use Rattle.nx_base.specs.OrderLaws.{age_cmp_total};

    ghost partial_cmp = { λ x y. Some (age_cmp x y) };

    ghost laws = { partial_order_from_agreeing_total (age_cmp) age_cmp_total (λ x y. refl) (λ x y. refl) };

    fn partial_cmp(&self, other: &BlobRef) -> Option<Ordering> {
        Some(self.cmp(other))
    }
}

impl Ord for BlobRef {
    ghost use Rattle.std.specs.Prelude.{refl};
    ghost use Rattle.std.specs.Cmp.Rules.{comparing};
    ghost use Rattle.std.proofs.Common.{rules};
    ghost use Rattle.nx_base.specs.OrderLaws.{age_cmp_total};

    ghost cmp = { age_cmp };

    ghost total = { age_cmp_total };

    ghost matches_partial_cmp = { Prim.search (comparing, rules) };

    ghost matches_eq = { λ x y. refl };

    fn cmp(&self, other: &BlobRef) -> Ordering {
        self.timestamp
            .cmp(&other.timestamp)
            .then(self.store.cmp(&other.store))
            .then(self.id.as_bytes().cmp(other.id.as_bytes()))
    }
}
