ghost use Rattle.std.specs.Prelude.{◌≡◌, ◌<◌, ℕ, Bool, Option, List, is_some, IfOk, MatchResult, IsSome, IsTrue};
ghost use Rattle.std.specs.FinMap as map;
ghost use Rattle.std.specs.Option.{option_copied};
ghost use Rattle.nx_io.specs.Causes.{Rose, HasCauseWhere, CountsWhere};
ghost use Rattle.asset_keeper.specs.Table.{Table, page_of};
ghost use Rattle.asset_keeper.specs.Told.{Tells, Lasts, LeavesChange};
ghost use Rattle.asset_keeper.specs.Ranges.{found_in_range, change_in_range, rows_in_range, generation_in_range};
ghost use Rattle.asset_keeper.specs.Pages.{IsPageAfter};
ghost use Rattle.asset_keeper.specs.Causes.{IsFault};
ghost use Rattle.asset_keeper.specs.Plan.{Plan, ByPlan, PlannedLeaves};

use crate::change::Change;
use crate::generation::Generation;
use crate::keep_err::KeepErr;
use nx_base::{Asset, Key, Row};

/// A finite map from keys to assets, and one generation.
pub trait Keeper {
    /// The table, where the keeper tells it. A keeper may stop telling, and never begins again.
    ghost table: { Self → Option Table };

    /// Whether keepers of this type go on telling, once they tell.
    ghost lasts: { Type 0 };

    /// How many calls have failed. It stands still at 2^64 - 1.
    ghost faults: { Self → ℕ };

    /// Whether the last look at a key found a row. A keeper that doesn't tell its table says this
    /// nonetheless, so that nobody says that a row is missing where none was looked for.
    ghost found: { Self → Bool };

    /// How often a change was made, or may have been: the calls of `apply`, whatever they answered. The count stands still
    /// at 2^64 - 1.
    ghost changes: { Self → ℕ };

    /// Which calls are to fail, where that is known: for a keeper whose failures are planned. Its count of faults moves
    /// exactly with its answers.
    ghost plan: { Self → Option Plan };

    /// The asset of the key, if it has one.
    fn get(&mut self, key: &Key) -> Result<Option<Asset>, KeepErr>
        ensures told { Tells (table self.old) (table self.new) (λ s t. (t ≡ s) × IfOk result (λ asset. asset ≡ map.get s.rows key.now)) }
        ensures lasting { Lasts lasts (table self.old) (table self.new) }
        ensures answer { MatchResult result (λ asset. found self.new ≡ is_some asset) (λ _. found self.new ≡ found self.old) }
        ensures range { IfOk result (λ asset. IsTrue (found_in_range asset)) }
        ensures changes { changes self.new ≡ changes self.old }
        ensures cause { HasCauseWhere IsFault (faults self.old) (faults self.new) result }
        ensures counts { IsSome (plan self.old) → CountsWhere IsFault (faults self.old) (faults self.new) result }
        ensures plan { ByPlan (plan self.old) (plan self.new) result };

    /// Makes the change, in one commit. After `Failed` the table is the old or the new one, after
    /// `NoMemory` it is the old one.
    fn apply(&mut self, change: &Change) -> Result<(), KeepErr>
        requires { IsTrue (change_in_range change.now) }
        ensures told { Tells (table self.old) (table self.new) (λ s t. LeavesChange s t change.now result) }
        ensures lasting { Lasts lasts (table self.old) (table self.new) }
        ensures answer { found self.new ≡ found self.old }
        ensures effect { PlannedLeaves (plan self.old) result (table self.new ≡ table self.old) }
        ensures changes { Rose (changes self.old) (changes self.new) }
        ensures cause { HasCauseWhere IsFault (faults self.old) (faults self.new) result }
        ensures counts { IsSome (plan self.old) → CountsWhere IsFault (faults self.old) (faults self.new) result }
        ensures plan { ByPlan (plan self.old) (plan self.new) result };

    /// The next `n` rows after the key, or from the first on: fewer exactly at the table's end.
    fn page(&mut self, after: Option<&Key>, n: usize) -> Result<Vec<Row>, KeepErr>
        requires { 0 < n }
        ensures told { Tells (table self.old) (table self.new) (λ s t. (t ≡ s) × IfOk result (λ rows. rows.items ≡ page_of s (option_copied after.entry) n)) }
        ensures lasting { Lasts lasts (table self.old) (table self.new) }
        ensures answer { found self.new ≡ found self.old }
        ensures shape { IfOk result (λ rows. IsPageAfter (option_copied after.entry) n rows.items) }
        ensures range { IfOk result (λ rows. IsTrue (rows_in_range rows.items)) }
        ensures changes { changes self.new ≡ changes self.old }
        ensures cause { HasCauseWhere IsFault (faults self.old) (faults self.new) result }
        ensures counts { IsSome (plan self.old) → CountsWhere IsFault (faults self.old) (faults self.new) result }
        ensures plan { ByPlan (plan self.old) (plan self.new) result };

    fn generation(&mut self) -> Result<Generation, KeepErr>
        ensures told { Tells (table self.old) (table self.new) (λ s t. (t ≡ s) × IfOk result (λ g. g ≡ s.generation)) }
        ensures lasting { Lasts lasts (table self.old) (table self.new) }
        ensures answer { found self.new ≡ found self.old }
        ensures range { IfOk result (λ g. IsTrue (generation_in_range g)) }
        ensures changes { changes self.new ≡ changes self.old }
        ensures cause { HasCauseWhere IsFault (faults self.old) (faults self.new) result }
        ensures counts { IsSome (plan self.old) → CountsWhere IsFault (faults self.old) (faults self.new) result }
        ensures plan { ByPlan (plan self.old) (plan self.new) result };
}
