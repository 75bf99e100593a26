ghost use Rattle.std.specs.Prelude.{◌≡◌, IfOk};

use crate::asset_path::AssetPath;
use crate::name_err::NoMemory;
use crate::repo_name::RepoName;
use crate::text::compare_texts;
use std::alloc::Global;
use std::cmp::Ordering;

/// A repository and a path in it.
#[derive(Debug, Drop)]
pub struct Key {
    pub repo: RepoName,
    pub path: AssetPath,
}

impl Key {
    ghost use Rattle.nx_base.specs.Order.{key_cmp};

    /// The order of keys: by repository, and then by path.
    pub fn compare(&self, other: &Key) -> Ordering
        ensures { result ≡ key_cmp self.now other.now }
    {
        match compare_texts(self.repo.as_bytes(), other.repo.as_bytes()) {
            Ordering::Equal => compare_texts(self.path.as_bytes(), other.path.as_bytes()),
            unequal => unequal,
        }
    }

    pub fn try_clone(&self, alloc: Global) -> Result<Key, NoMemory>
        ensures { IfOk result (λ key. key ≡ self.now) }
    {
        let repo = self.repo.try_clone(alloc)?;
        let path = self.path.try_clone(alloc)?;
        Ok(Key { repo, path })
    }
}
