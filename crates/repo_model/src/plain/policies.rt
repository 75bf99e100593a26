ghost use Rattle.std.specs.Prelude.{◌≡◌, ℕ, Bool, List, IfOk};
ghost use Rattle.nx_base.specs.Cleanup.{is_hit};

use nx_base::{AssetPath, NoMemory};
use std::alloc::Global;

/// A pattern of the crate `regex`, built so that paths can be tried.
pub trait PathPattern {
    /// Its text.
    ghost text: { Self → List ℕ };

    /// Whether it matches all of the path.
    fn is_hit(&self, alloc: Global, path: &AssetPath) -> Result<bool, NoMemory>
        ensures { IfOk result (λ hit. hit ≡ is_hit (text self.now) path.now) };
}

/// For policies that name no pattern. Nobody can make one: if there were one, whether it matches could not be told.
#[derive(Clone, Copy, Debug, PartialEq, Eq)]
pub struct NoPattern {
    nothing: (),
}

impl PathPattern for NoPattern {
    ghost use Rattle.std.specs.Prelude.{[]};

    ghost text = { λ _. [] };

    fn is_hit(&self, _alloc: Global, _path: &AssetPath) -> Result<bool, NoMemory> {
        Err(NoMemory)
    }
}

/// What a cleanup policy asks of a row. Ages are in days; a criterion that isn't set bars nothing.
#[derive(Drop)]
pub struct PlainPolicy<M: Drop> {
    pub age: Option<u64>,
    pub usage: Option<u64>,
    pub path: Option<M>,
}
