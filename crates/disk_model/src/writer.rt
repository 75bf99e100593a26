ghost use Rattle.std.specs.Prelude.{◌≡◌, ◌++◌, ℕ, List, Option, IfOk, OnOk, IsErrOf, IsSome};
ghost use Rattle.nx_io.specs.Causes.{HasCauseWhere, CountsWhere};
ghost use Rattle.disk_model.specs.Disk.{IsFault, After};
ghost use Rattle.disk_model.specs.declared.disk_err.DiskErr.TheVariants as refused;
ghost use Rattle.disk_model.specs.Plan.{PartPlan, WritesByPlan};

use crate::disk_err::DiskErr;

/// A temporary file that is being written. It belongs to its owner, and its calls don't move the clock of the disk. It can't
/// be dropped: [`Disk::give_up`](crate::Disk::give_up) takes it back with its faults, or `abort` ends it.
pub trait Writer {
    type Sealed;

    /// Whether contracts know what files hold.
    ghost told: { Type 0 };

    /// The bytes written so far.
    ghost written: { Self → List ℕ };

    /// The bytes of a sealed file.
    ghost content: { Self.Sealed → List ℕ };

    /// How often it failed. Only an answer that tells of a fault moves the count; where failures are planned, by exactly one.
    ghost faults: { Self → ℕ };

    /// Which of its calls, `write` and `seal`, are to fail, where that is known.
    ghost plan: { Self → Option PartPlan };

    /// Appends the whole part. Where memory is refused nothing is appended; after a failure anything may be.
    fn write(&mut self, part: &[u8]) -> Result<(), DiskErr>
        ensures written { told → OnOk result (written self.new ≡ written self.old ++ part.now) }
        ensures refused { told → IsErrOf result refused.NoMemory → written self.new ≡ written self.old }
        ensures cause { HasCauseWhere IsFault (faults self.old) (faults self.new) result }
        ensures quiet { After result (faults self.new ≡ faults self.old) (Unit {0}) (faults self.new ≡ faults self.old) }
        ensures counts { IsSome (plan self.old) → CountsWhere IsFault (faults self.old) (faults self.new) result }
        ensures plan { WritesByPlan (plan self.old) (plan self.new) result };

    /// Writes the file through to the device. Only a sealed file can be installed.
    fn seal(&mut self) -> Result<Self::Sealed, DiskErr>
        ensures content { told → IfOk result (λ file. content file ≡ written self.old) }
        ensures refused { told → IsErrOf result refused.NoMemory → written self.new ≡ written self.old }
        ensures cause { HasCauseWhere IsFault (faults self.old) (faults self.new) result }
        ensures quiet { After result (faults self.new ≡ faults self.old) (Unit {0}) (faults self.new ≡ faults self.old) }
        ensures counts { IsSome (plan self.old) → CountsWhere IsFault (faults self.old) (faults self.new) result }
        ensures plan { WritesByPlan (plan self.old) (plan self.new) result };

    /// Ends the writer without the disk, whose count and clock stay: for one whose file is sealed, or that nobody wants any
    /// more. Its own count of faults is gone with it.
    fn abort(self);
}
