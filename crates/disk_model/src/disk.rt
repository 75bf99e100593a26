ghost use Rattle.std.specs.Prelude.{◌≡◌, ◌≤◌, ◌↔◌, List, [], ℕ, Option, length, take, IfOk, Some, None, IsSome, IfSome, IsTrue, MatchResult, option_map, vec_len};
ghost use Rattle.nx_io.specs.Causes.{Rose, HasCauseWhere, CountsWhere};
ghost use Rattle.disk_model.specs.Disk.{Tree, Lists, Same, Puts, Joins, Settles, TakesBack, IsFault, IsListing, Among, small_limit};
ghost use Rattle.disk_model.specs.Moments.{Ticks};
ghost use Rattle.disk_model.specs.Plan.{Plan, FailsByPlan, PlannedLeaves, GivesWriter, GivesReader};

use crate::disk_err::DiskErr;
use crate::reader::Reader;
use crate::writer::Writer;
use nx_base::Name;

/// How many bytes [`Disk::read_small`] gives at most.
pub const SMALL_LIMIT: usize = 65537;

/// A folder of files. Contracts see its tree, the values that a crash may leave of each name, a clock that each of its
/// calls moves by one, a count of faults, and a count of what it showed.
///
/// A sealed file, a writer and a reader can't be dropped: who owns one gives it back, by `install`, `discard`, `give_up`,
/// [`Writer::abort`] or `end_reader`. A body that lets one go isn't accepted.
pub trait Disk {
    type Sealed;

    type Writer: Writer<Sealed = Self::Sealed>;

    type Reader: Reader;

    /// Whether contracts know what the files hold.
    ghost told: { Type 0 };

    /// The present value of each name.
    ghost tree: { Self → Tree };

    /// How often it failed. The count stands still at 2^64 - 1. Where failures are planned it moves by exactly one at a
    /// call that fails, and at no other that can fail.
    ghost faults: { Self → ℕ };

    /// How many calls there were. The clock stands still at 2^64 - 1, where no call changes a list.
    ghost clock: { Self → ℕ };

    /// At each moment of the clock, of each name the values that a crash may leave.
    ghost lists: { Self → ℕ → Lists };

    /// Which calls of the disk, and of the writers and readers that it gives, are to fail, where that is known: for a
    /// disk whose failures are planned.
    ghost plan: { Self → Option Plan };

    /// What the last look at a file found: nothing, or so many bytes. It is known also where the files aren't told, so
    /// that nobody says that a file is missing or short where the disk didn't.
    ghost last_look: { Self → Option ℕ };

    /// How often something was shown outside `tmp`, or may have been: the calls of `install` and `remove`, whatever they
    /// answered. The count stands still at 2^64 - 1.
    ghost shown: { Self → ℕ };

    /// An empty file of its own, below `tmp`.
    fn temp(&mut self) -> Result<Self::Writer, DiskErr>
        ensures empty { told → IfOk result (λ w. Self.Writer.written w ≡ []) }
        ensures sound { IfOk result (λ w. Self.Writer.faults w ≡ 0) }
        ensures tree { told → Same (tree self.old) (tree self.new) }
        ensures cause { HasCauseWhere IsFault (faults self.old) (faults self.new) result }
        ensures counts { IsSome (plan self.old) → CountsWhere IsFault (faults self.old) (faults self.new) result }
        ensures exact { FailsByPlan (plan self.old) (clock self.old) result }
        ensures plan { GivesWriter Self.Writer.plan (plan self.old) (plan self.new) result }
        ensures crash { told → Same (lists self.old (clock self.old)) (lists self.new (clock self.new)) }
        ensures time { told → Ticks (clock self.old) (clock self.new) (lists self.old) (lists self.new) }
        ensures shown { shown self.new ≡ shown self.old }
        ensures look { last_look self.new ≡ last_look self.old };

    /// Gives the name the file's bytes. The file is gone, also after a refusal.
    fn install(&mut self, file: Self::Sealed, name: &Name) -> Result<(), DiskErr>
        ensures tree { told → Puts result name.now (Some (Self.Writer.content file)) (tree self.old) (tree self.new) }
        ensures cause { HasCauseWhere IsFault (faults self.old) (faults self.new) result }
        ensures counts { IsSome (plan self.old) → CountsWhere IsFault (faults self.old) (faults self.new) result }
        ensures exact { FailsByPlan (plan self.old) (clock self.old) result }
        ensures effect { told → PlannedLeaves (plan self.old) result (tree self.new ≡ tree self.old) }
        ensures plan { plan self.new ≡ plan self.old }
        ensures crash { told → Joins result name.now (Some (Self.Writer.content file)) (lists self.old (clock self.old)) (lists self.new (clock self.new)) }
        ensures time { told → Ticks (clock self.old) (clock self.new) (lists self.old) (lists self.new) }
        ensures shown { Rose (shown self.old) (shown self.new) }
        ensures forward { shown self.old ≤ shown self.new }
        ensures look { last_look self.new ≡ last_look self.old };

    /// Gives a sealed file up. It can't fail.
    fn discard(&mut self, file: Self::Sealed)
        ensures tree { told → Same (tree self.old) (tree self.new) }
        ensures cause { faults self.new ≡ faults self.old }
        ensures plan { plan self.new ≡ plan self.old }
        ensures crash { told → Same (lists self.old (clock self.old)) (lists self.new (clock self.new)) }
        ensures time { told → Ticks (clock self.old) (clock self.new) (lists self.old) (lists self.new) }
        ensures shown { shown self.new ≡ shown self.old }
        ensures look { last_look self.new ≡ last_look self.old };

    /// Takes a writer back, with its faults. It can't fail.
    fn give_up(&mut self, file: Self::Writer)
        ensures tree { told → Same (tree self.old) (tree self.new) }
        ensures cause { TakesBack (faults self.old) (faults self.new) (Self.Writer.faults file) }
        ensures plan { plan self.new ≡ plan self.old }
        ensures crash { told → Same (lists self.old (clock self.old)) (lists self.new (clock self.new)) }
        ensures time { told → Ticks (clock self.old) (clock self.new) (lists self.old) (lists self.new) }
        ensures shown { shown self.new ≡ shown self.old }
        ensures look { last_look self.new ≡ last_look self.old };

    /// Takes a reader back, with its faults. It can't fail.
    fn end_reader(&mut self, file: Self::Reader)
        ensures tree { told → tree self.new ≡ tree self.old }
        ensures cause { TakesBack (faults self.old) (faults self.new) (Self.Reader.faults file) }
        ensures plan { plan self.new ≡ plan self.old }
        ensures crash { told → lists self.new (clock self.new) ≡ lists self.old (clock self.old) }
        ensures time { told → Ticks (clock self.old) (clock self.new) (lists self.old) (lists self.new) }
        ensures shown { shown self.new ≡ shown self.old }
        ensures look { last_look self.new ≡ last_look self.old };

    /// After it a crash leaves the name's present value.
    fn sync(&mut self, name: &Name) -> Result<(), DiskErr>
        ensures tree { told → tree self.new ≡ tree self.old }
        ensures cause { HasCauseWhere IsFault (faults self.old) (faults self.new) result }
        ensures counts { IsSome (plan self.old) → CountsWhere IsFault (faults self.old) (faults self.new) result }
        ensures exact { FailsByPlan (plan self.old) (clock self.old) result }
        ensures effect { told → PlannedLeaves (plan self.old) result (lists self.new (clock self.new) ≡ lists self.old (clock self.old)) }
        ensures plan { plan self.new ≡ plan self.old }
        ensures crash { told → Settles result name.now (tree self.old name.now) (lists self.old (clock self.old)) (lists self.new (clock self.new)) }
        ensures time { told → Ticks (clock self.old) (clock self.new) (lists self.old) (lists self.new) }
        ensures shown { shown self.new ≡ shown self.old }
        ensures look { last_look self.new ≡ last_look self.old };

    /// Removes the name, and tells whether it was there.
    fn remove(&mut self, name: &Name) -> Result<bool, DiskErr>
        ensures there { told → IfOk result (λ there. IsTrue there ↔ IsSome (tree self.old name.now)) }
        ensures tree { told → Puts result name.now None (tree self.old) (tree self.new) }
        ensures cause { HasCauseWhere IsFault (faults self.old) (faults self.new) result }
        ensures counts { IsSome (plan self.old) → CountsWhere IsFault (faults self.old) (faults self.new) result }
        ensures exact { FailsByPlan (plan self.old) (clock self.old) result }
        ensures effect { told → PlannedLeaves (plan self.old) result (tree self.new ≡ tree self.old) }
        ensures plan { plan self.new ≡ plan self.old }
        ensures crash { told → Joins result name.now None (lists self.old (clock self.old)) (lists self.new (clock self.new)) }
        ensures time { told → Ticks (clock self.old) (clock self.new) (lists self.old) (lists self.new) }
        ensures shown { Rose (shown self.old) (shown self.new) }
        ensures forward { shown self.old ≤ shown self.new }
        ensures look { last_look self.new ≡ last_look self.old };

    /// The first 65,537 bytes at most, or None where the name is absent.
    fn read_small(&mut self, name: &Name) -> Result<Option<Vec<u8>>, DiskErr>
        ensures bytes { told → IfOk result (λ found. option_map (λ v. v.items) found ≡ option_map (λ bytes. take small_limit bytes) (tree self.old name.now)) }
        ensures tree { told → tree self.new ≡ tree self.old }
        ensures cause { HasCauseWhere IsFault (faults self.old) (faults self.new) result }
        ensures counts { IsSome (plan self.old) → CountsWhere IsFault (faults self.old) (faults self.new) result }
        ensures exact { FailsByPlan (plan self.old) (clock self.old) result }
        ensures plan { plan self.new ≡ plan self.old }
        ensures crash { told → lists self.new (clock self.new) ≡ lists self.old (clock self.old) }
        ensures time { told → Ticks (clock self.old) (clock self.new) (lists self.old) (lists self.new) }
        ensures shown { shown self.new ≡ shown self.old }
        ensures look { MatchResult result (λ found. last_look self.new ≡ option_map (λ v. vec_len v) found) (λ _. last_look self.new ≡ last_look self.old) };

    /// A reader of the present bytes, or None where the name is absent.
    fn open_file(&mut self, name: &Name) -> Result<Option<Self::Reader>, DiskErr>
        ensures bytes { told → IfOk result (λ found. option_map (λ r. Self.Reader.left r) found ≡ tree self.old name.now) }
        ensures size { told → IfOk result (λ found. IfSome found (λ r. Self.Reader.size r ≡ length (Self.Reader.left r))) }
        ensures sound { IfOk result (λ found. IfSome found (λ r. Self.Reader.faults r ≡ 0)) }
        ensures tree { told → tree self.new ≡ tree self.old }
        ensures cause { HasCauseWhere IsFault (faults self.old) (faults self.new) result }
        ensures counts { IsSome (plan self.old) → CountsWhere IsFault (faults self.old) (faults self.new) result }
        ensures exact { FailsByPlan (plan self.old) (clock self.old) result }
        ensures plan { GivesReader Self.Reader.plan (plan self.old) (plan self.new) result }
        ensures crash { told → lists self.new (clock self.new) ≡ lists self.old (clock self.old) }
        ensures time { told → Ticks (clock self.old) (clock self.new) (lists self.old) (lists self.new) }
        ensures shown { shown self.new ≡ shown self.old }
        ensures look { MatchResult result (λ found. last_look self.new ≡ option_map (λ r. Self.Reader.size r) found) (λ _. last_look self.new ≡ last_look self.old) };

    /// All names at or below the prefix that have a value, in byte order.
    fn list(&mut self, prefix: &Name) -> Result<Vec<Name>, DiskErr>
        ensures names { told → IfOk result (λ v. IsListing prefix.now (tree self.old) v.items) }
        ensures tree { told → tree self.new ≡ tree self.old }
        ensures cause { HasCauseWhere IsFault (faults self.old) (faults self.new) result }
        ensures counts { IsSome (plan self.old) → CountsWhere IsFault (faults self.old) (faults self.new) result }
        ensures exact { FailsByPlan (plan self.old) (clock self.old) result }
        ensures plan { plan self.new ≡ plan self.old }
        ensures crash { told → lists self.new (clock self.new) ≡ lists self.old (clock self.old) }
        ensures time { told → Ticks (clock self.old) (clock self.new) (lists self.old) (lists self.new) }
        ensures shown { shown self.new ≡ shown self.old }
        ensures look { last_look self.new ≡ last_look self.old };

    /// The writers of a disk that tells tell.
    ghost writers_tell: { told → Self.Writer.told };

    /// The readers of a disk that tells tell.
    ghost readers_tell: { told → Self.Reader.told };

    /// The present value of a name is always in its list.
    ghost present: { (d : Self) → told → (n : List ℕ) → Among (tree d n) (lists d (clock d) n) };
}
