//! Files that are written whole and shown at once. What stages a file and what shows it are two calls.
ghost use Rattle.std.specs.Prelude.{◌≡◌, ◌≤◌, ◌⊎◌, ◌↔◌, ◌∷◌, [], IfOk, OnOk, OnErr, IsTrue, IsSome, Some, None};
ghost use Rattle.nx_io.specs.Causes.{Rose, HasCauseWhere};
ghost use Rattle.disk_model.specs.Disk.{Outside, Same, Rest, IsFault};
ghost use Rattle.disk_model.specs.Moments.{During, MayPut};

use crate::disk::Disk;
use crate::disk_err::DiskErr;
use crate::writer::Writer;
use nx_base::Name;

/// A sealed file of these bytes. No name outside `tmp` changes, whatever it answers.
pub fn write_whole<D: Disk>(disk: &mut D, bytes: &[u8]) -> Result<D::Sealed, DiskErr>
    ensures content { D.told → IfOk result (λ file. D.Writer.content file ≡ bytes.now) }
    ensures tree { D.told → Same (D.tree disk.old) (D.tree disk.new) }
    ensures cause { HasCauseWhere IsFault (D.faults disk.old) (D.faults disk.new) result }
    ensures shown { D.shown disk.new ≡ D.shown disk.old }
    ensures look { D.last_look disk.new ≡ D.last_look disk.old }

    // At every moment the lists outside tmp are those of the beginning.
    ensures any_moment { D.told → During D.clock D.lists disk.old disk.new (Same (D.lists disk.old (D.clock disk.old))) }
{
    let mut file = disk.temp()?;
    if let Err(refusal) = file.write(bytes) {
        disk.give_up(file);
        return Err(refusal);
    }
    match file.seal() {
        Ok(sealed) => {
            file.abort();
            Ok(sealed)
        }
        Err(refusal) => {
            disk.give_up(file);
            Err(refusal)
        }
    }
}

/// Gives a name a sealed file's bytes, and settles it: install, sync.
pub fn put_sealed<D: Disk>(disk: &mut D, file: D::Sealed, name: &Name) -> Result<(), DiskErr>
    ensures named { D.told → OnOk result (D.tree disk.new name.now ≡ Some (D.Writer.content file)) }
    ensures refused { D.told → OnErr result ((D.tree disk.new name.now ≡ D.tree disk.old name.now) ⊎ (D.tree disk.new name.now ≡ Some (D.Writer.content file))) }
    ensures rest { D.told → Rest name.now (D.tree disk.old) (D.tree disk.new) }
    ensures settled { D.told → OnOk result (D.lists disk.new (D.clock disk.new) name.now ≡ Some (D.Writer.content file) ∷ []) }
    ensures cause { HasCauseWhere IsFault (D.faults disk.old) (D.faults disk.new) result }
    ensures shown { Rose (D.shown disk.old) (D.shown disk.new) }
    ensures forward { D.shown disk.old ≤ D.shown disk.new }
    ensures look { D.last_look disk.new ≡ D.last_look disk.old }

    // At every moment the name's list has at most the new value more, and the other lists are those of the beginning.
    ensures any_moment { D.told → During D.clock D.lists disk.old disk.new (MayPut name.now (Some (D.Writer.content file)) (D.lists disk.old (D.clock disk.old))) }
{
    disk.install(file, name)?;
    disk.sync(name)
}

/// Removes a name, and settles it: remove, sync. It tells whether the name was there.
pub fn remove_settled<D: Disk>(disk: &mut D, name: &Name) -> Result<bool, DiskErr>
    ensures there { D.told → IfOk result (λ there. IsTrue there ↔ IsSome (D.tree disk.old name.now)) }
    ensures named { D.told → OnOk result (D.tree disk.new name.now ≡ None) }
    ensures refused { D.told → OnErr result ((D.tree disk.new name.now ≡ D.tree disk.old name.now) ⊎ (D.tree disk.new name.now ≡ None)) }
    ensures rest { D.told → Rest name.now (D.tree disk.old) (D.tree disk.new) }
    ensures settled { D.told → OnOk result (D.lists disk.new (D.clock disk.new) name.now ≡ None ∷ []) }
    ensures cause { HasCauseWhere IsFault (D.faults disk.old) (D.faults disk.new) result }
    ensures shown { Rose (D.shown disk.old) (D.shown disk.new) }
    ensures forward { D.shown disk.old ≤ D.shown disk.new }
    ensures look { D.last_look disk.new ≡ D.last_look disk.old }

    // At every moment the name's list has at most "absent" more, and the other lists are those of the beginning.
    ensures any_moment { D.told → During D.clock D.lists disk.old disk.new (MayPut name.now None (D.lists disk.old (D.clock disk.old))) }
{
    let there = disk.remove(name)?;
    disk.sync(name)?;
    Ok(there)
}

/// Gives a name new bytes, and settles it: write, seal, install, sync. After a refusal the name has the old bytes or
/// the new.
pub fn replace_small<D: Disk>(disk: &mut D, name: &Name, bytes: &[u8]) -> Result<(), DiskErr>
    ensures named { D.told → OnOk result (D.tree disk.new name.now ≡ Some bytes.now) }
    ensures refused { D.told → Outside name.now → OnErr result ((D.tree disk.new name.now ≡ D.tree disk.old name.now) ⊎ (D.tree disk.new name.now ≡ Some bytes.now)) }
    ensures rest { D.told → Rest name.now (D.tree disk.old) (D.tree disk.new) }
    ensures settled { D.told → OnOk result (D.lists disk.new (D.clock disk.new) name.now ≡ Some bytes.now ∷ []) }
    ensures cause { HasCauseWhere IsFault (D.faults disk.old) (D.faults disk.new) result }
    ensures shown { OnOk result (Rose (D.shown disk.old) (D.shown disk.new)) }
    ensures forward { D.shown disk.old ≤ D.shown disk.new }
    ensures look { D.last_look disk.new ≡ D.last_look disk.old }

    // At every moment the name's list has at most the new bytes more, and the other lists are those of the beginning.
    ensures any_moment { D.told → Outside name.now → During D.clock D.lists disk.old disk.new (MayPut name.now (Some bytes.now) (D.lists disk.old (D.clock disk.old))) }
{
    let file = write_whole(disk, bytes)?;
    put_sealed(disk, file, name)
}
