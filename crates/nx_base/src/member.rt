ghost use Rattle.std.specs.Prelude.{◌≡◌, IfOk};

use crate::name_err::NoMemory;
use crate::store_name::StoreName;
use std::alloc::Global;

/// A store in a group of stores.
#[derive(Debug, Drop)]
pub struct Member {
    pub store: StoreName,
    /// Whether new blobs are kept away from it.
    pub read_only: bool,
}

impl Member {
    pub fn try_clone(&self, alloc: Global) -> Result<Member, NoMemory>
        ensures { IfOk result (λ member. member ≡ self.now) }
    {
        let store = self.store.try_clone(alloc)?;
        Ok(Member {
            store,
            read_only: self.read_only,
        })
    }
}
