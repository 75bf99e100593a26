ghost use Rattle.std.specs.Prelude.{◌≡◌, ◌&&◌, ◌++◌, [], ◌∷◌, if◌then◌else◌, nat_lt, map, IfOk, OnOk};
ghost use Rattle.std.specs.Str.{bytes_eq};
ghost use Rattle.disk_model.specs.Past.{value_of, changed};
ghost use Rattle.disk_model.specs.Seen.{seen};

use crate::memory::change::Change;
use nx_base::{Name, NoMemory};
use std::alloc::Global;

/// The present value of one name and the values that a crash may leave of it, while a log is read.
#[derive(Drop)]
pub struct Trail {
    present: Option<Vec<u8>>,
    values: Vec<Option<Vec<u8>>>,
}

// A copy of the value.
fn copy_of(alloc: Global, value: &Option<Vec<u8>>) -> Result<Option<Vec<u8>>, NoMemory>
    ensures { IfOk result (λ copy. value_of copy ≡ value_of value.now) }
{
    match value {
        None => Ok(None),
        Some(bytes) => match Vec::from_slice(alloc, bytes) {
            Ok(copy) => Ok(Some(copy)),
            Err(_) => Err(NoMemory),
        },
    }
}

impl Trail {
    ghost use Rattle.disk_model.specs.Trail.{at_of};

    /// Before the first change, where the name has this value alone.
    pub fn start(alloc: Global, first: Option<&[u8]>) -> Result<Trail, NoMemory>
        ensures { IfOk result (λ trail. at_of trail ≡ (seen first.entry, seen first.entry ∷ [])) }
    {
        let present = match first {
            None => None,
            Some(bytes) => match Vec::from_slice(alloc, bytes) {
                Ok(copy) => Some(copy),
                Err(_) => return Err(NoMemory),
            },
        };
        let mut values = Vec::new(alloc);
        let Ok(()) = values.push(copy_of(alloc, &present)?) else {
            return Err(NoMemory);
        };
        Ok(Trail { present, values })
    }

    /// The values that a crash may leave, in the order in which they joined.
    pub fn into_values(self) -> Vec<Option<Vec<u8>>>
        ensures { map value_of result.items ≡ (at_of self).1 }
    {
        let Trail { present: _, values } = self;
        values
    }

    // One value more.
    fn join(&mut self, value: Option<Vec<u8>>) -> Result<(), NoMemory>
        ensures { OnOk result (at_of self.new ≡ (value_of self.old.present, map value_of self.old.values.items ++ value_of value ∷ [])) }
    {
        let Ok(()) = self.values.push(value) else {
            return Err(NoMemory);
        };
        Ok(())
    }

    /// After one change of the name.
    pub fn follow(&mut self, alloc: Global, change: &Change) -> Result<(), NoMemory>
        ensures { OnOk result (at_of self.new ≡ changed change.now.settles change.now.done (value_of change.now.value) (at_of self.old)) }
    {
        if change.settles {
            if !change.done {
                return Ok(());
            }
            let present = copy_of(alloc, &self.present)?;
            self.values.clear();
            return self.join(present);
        }
        let value = copy_of(alloc, &change.value)?;
        if change.done {
            self.present = copy_of(alloc, &change.value)?;
        }
        self.join(value)
    }

    /// After one change, which counts if it was before the moment and is one of the name.
    pub fn consider(
        &mut self,
        alloc: Global,
        moment: u64,
        name: &Name,
        change: &Change,
    ) -> Result<(), NoMemory>
        ensures { OnOk result (at_of self.new ≡ (if nat_lt change.now.at moment && bytes_eq name.now change.now.name
            then changed change.now.settles change.now.done (value_of change.now.value) (at_of self.old) else at_of self.old)) }
    {
        if change.at < moment && name.as_bytes() == change.name.as_bytes() {
            return self.follow(alloc, change);
        }
        Ok(())
    }
}
