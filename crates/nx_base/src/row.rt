ghost use Rattle.std.specs.Prelude.{◌≡◌, IfOk};

use crate::asset::Asset;
use crate::key::Key;
use crate::name_err::NoMemory;
use std::alloc::Global;

/// A key with its content.
#[derive(Debug, Drop)]
pub struct Row {
    pub key: Key,
    pub asset: Asset,
}

impl Row {
    pub fn try_clone(&self, alloc: Global) -> Result<Row, NoMemory>
        ensures { IfOk result (λ row. row ≡ self.now) }
    {
        let key = self.key.try_clone(alloc)?;
        let asset = self.asset.try_clone(alloc)?;
        Ok(Row { key, asset })
    }
}
