ghost use Rattle.std.specs.Prelude.{◌≡◌, ◌<◌, ◌≤◌, ◌++◌, ℕ, Bool, List, [], Option, length, take, drop, IfOk, OnOk, OnErr, IsSome};
ghost use Rattle.nx_io.specs.Causes.{HasCause, Counts};
ghost use Rattle.nx_io.specs.Reads.{TellsEnd};
ghost use Rattle.disk_model.specs.Plan.{PartPlan, ReadsByPlan};

use nx_io::Failed;

/// A file that is being read. It belongs to its owner, and its calls don't move the clock of the disk. It can't be dropped:
/// [`Disk::end_reader`](crate::Disk::end_reader) takes it back with its faults.
pub trait Reader {
    /// Whether contracts know what files hold.
    ghost told: { Type 0 };

    /// The bytes that are left.
    ghost left: { Self → List ℕ };

    /// How many bytes the file had when it was opened. A file that doesn't tell its bytes has this nonetheless.
    ghost size: { Self → ℕ };

    /// Whether its last answer was the end of the file, also where the bytes aren't told.
    ghost ended: { Self → Bool };

    /// How often it failed. Only a failure moves the count; where failures are planned, by exactly one.
    ghost faults: { Self → ℕ };

    /// Which of its calls of `read` are to fail, where that is known.
    ghost plan: { Self → Option PartPlan };

    /// Writes the next bytes into the front of `buf` and returns how many. 0 for a buffer that isn't empty is the end.
    fn read(&mut self, buf: &mut [u8]) -> Result<usize, Failed>
        ensures within { IfOk result (λ n. n ≤ length buf.old) }
        ensures bytes { told → IfOk result (λ n. buf.new ≡ take n (left self.old) ++ drop n buf.old) }
        ensures left { told → IfOk result (λ n. left self.new ≡ drop n (left self.old)) }
        ensures all { told → IfOk result (λ n. n ≡ 0 → 0 < length buf.old → left self.old ≡ []) }
        ensures failed { told → OnErr result (left self.new ≡ left self.old) }
        ensures end { TellsEnd (ended self.old) (ended self.new) result buf.new }
        ensures size { size self.new ≡ size self.old }
        ensures cause { HasCause (faults self.old) (faults self.new) result }
        ensures quiet { OnOk result (faults self.new ≡ faults self.old) }
        ensures counts { IsSome (plan self.old) → Counts (faults self.old) (faults self.new) result }
        ensures plan { ReadsByPlan (plan self.old) (plan self.new) result };

    fn len(&self) -> u64
        ensures { result ≡ size self.now };
}
