ghost use Rattle.std.specs.Prelude.{◌≡◌, ◌≤◌, ℕ, Result, Option, Vec, is_some, IfOk, IsTrue, MatchResult};
ghost use Rattle.std.specs.declared.alloc.Global.{Global};
ghost use Rattle.std.specs.Option.{option_copied};
ghost use Rattle.nx_io.specs.Causes.{Rose, HasCauseWhere, MovesByOne, CountsWhere};
ghost use Rattle.nx_base.specs.declared.key.Key.{Key};
ghost use Rattle.nx_base.specs.declared.row.Row.{Row};
ghost use Rattle.nx_base.specs.declared.asset.Asset.{Asset};
ghost use Rattle.asset_keeper.specs.declared.change.Change.{Change};
ghost use Rattle.asset_keeper.specs.declared.generation.Generation.{Generation};
ghost use Rattle.asset_keeper.specs.declared.keep_err.KeepErr.{KeepErr};
ghost use Rattle.asset_keeper.specs.Causes.{IsFault};
ghost use Rattle.asset_keeper.specs.Pages.{IsPageAfter, MayGive};
ghost use Rattle.asset_keeper.specs.Ranges.{found_in_range, rows_in_range, generation_in_range};

use crate::change::Change;
use crate::generation::Generation;
use crate::keep_err::KeepErr;
use crate::keeper::Keeper;
use crate::rows::{is_in_range, is_page, may_be_time};
use nx_base::{Asset, Key, Row};

/// Rows outside, which somebody else may write: of the rows themselves nothing is known. A failure is answered as
/// [`KeepErr::Failed`]. Each call may tell contracts how its answer hangs together with what was asked.
pub trait RowStore {
    /// What a look at a key says: the rows before it, the key, the answer, and the rows after it.
    ghost gets: { Self → Key → Result (Option Asset) KeepErr → Self → Type 0 };

    /// The same of a change.
    ghost applies: { Self → Change → Result (Unit {0}) KeepErr → Self → Type 0 };

    /// The same of a page.
    ghost pages: { Self → Option Key → ℕ → Result (Vec Row Global) KeepErr → Self → Type 0 };

    /// The same of the generation.
    ghost numbers: { Self → Result Generation KeepErr → Self → Type 0 };

    fn get(&mut self, key: &Key) -> Result<Option<Asset>, KeepErr>
        ensures { gets self.old key.now result self.new };

    fn apply(&mut self, change: &Change) -> Result<(), KeepErr>
        ensures { applies self.old change.now result self.new };

    fn page(&mut self, after: Option<&Key>, n: usize) -> Result<Vec<Row>, KeepErr>
        ensures { pages self.old (option_copied after.entry) n result self.new };

    fn generation(&mut self) -> Result<Generation, KeepErr>
        ensures { numbers self.old result self.new };
}

/// A keeper over rows outside. It doesn't tell its table, and takes an answer that no table could
/// give for a fault.
#[derive(Drop)]
pub struct CheckedKeeper<S: RowStore + Drop> {
    store: S,
    faults: u64,
    found: bool,
    changes: u64,
}

impl<S: RowStore + Drop> CheckedKeeper<S> {
    ghost use Rattle.asset_keeper.specs.Checked.{store_of, count_of, changes_of};

    /// A keeper over those rows, before its first call.
    pub fn new(store: S) -> CheckedKeeper<S>
        ensures store { store_of result ≡ store }
        ensures sound { count_of result ≡ 0 }
    {
        CheckedKeeper {
            store,
            faults: 0,
            found: false,
            changes: 0,
        }
    }

    /// Counts a fault.
    fn fault(&mut self) -> KeepErr
        ensures failed { result ≡ KeepErr.Failed }
        ensures counted { MovesByOne self.old.faults self.new.faults }
        ensures rose { Rose self.old.faults self.new.faults }
        ensures later { self.old.faults ≤ self.new.faults }
        ensures found { self.new.found ≡ self.old.found }
        ensures changes { changes_of self.new ≡ changes_of self.old }
        ensures store { store_of self.new ≡ store_of self.old }
    {
        self.faults = self.faults.saturating_add(1);
        KeepErr::Failed
    }

    /// What a refusal of the store is here.
    fn refusal(&mut self, why: KeepErr) -> KeepErr
        ensures same { result ≡ why }
        ensures counted { result ≡ KeepErr.Failed → MovesByOne self.old.faults self.new.faults }
        ensures quiet { result ≡ KeepErr.NoMemory → self.new.faults ≡ self.old.faults }
        ensures rose { result ≡ KeepErr.Failed → Rose self.old.faults self.new.faults }
        ensures later { self.old.faults ≤ self.new.faults }
        ensures found { self.new.found ≡ self.old.found }
        ensures changes { changes_of self.new ≡ changes_of self.old }
        ensures store { store_of self.new ≡ store_of self.old }
    {
        match why {
            KeepErr::Failed => self.fault(),
            KeepErr::NoMemory => KeepErr::NoMemory,
        }
    }
}

impl<S: RowStore + Drop> Keeper for CheckedKeeper<S> {
    ghost use Rattle.std.specs.Prelude.{None};
    ghost use Rattle.asset_keeper.specs.Checked.{store_of, count_of, found_of, changes_of, HandsOn};

    ghost table = { λ _. None };

    // It never tells.
    ghost lasts = { Unit {0} };

    ghost faults = { count_of };

    ghost found = { found_of };

    ghost changes = { changes_of };

    ghost plan = { λ _. None };

    fn get(&mut self, key: &Key) -> Result<Option<Asset>, KeepErr>
        ensures asked { (answer : Result (Option Asset) KeepErr) × S.gets (store_of self.old) key.now answer (store_of self.new) × HandsOn (λ asset. IsTrue (found_in_range asset)) answer result }
        ensures answer { MatchResult result (λ asset. found_of self.new ≡ is_some asset) (λ _. found_of self.new ≡ found_of self.old) }
        ensures range { IfOk result (λ asset. IsTrue (found_in_range asset)) }
        ensures changes { changes_of self.new ≡ changes_of self.old }
        ensures cause { HasCauseWhere IsFault (count_of self.old) (count_of self.new) result }
        ensures counts { CountsWhere IsFault (count_of self.old) (count_of self.new) result }
    {
        match self.store.get(key) {
            Ok(Some(asset)) if is_in_range(&asset) => {
                self.found = true;
                Ok(Some(asset))
            }
            Ok(Some(_)) => Err(self.fault()),
            Ok(None) => {
                self.found = false;
                Ok(None)
            }
            Err(why) => Err(self.refusal(why)),
        }
    }

    fn apply(&mut self, change: &Change) -> Result<(), KeepErr>
        ensures asked { S.applies (store_of self.old) change.now result (store_of self.new) }
        ensures answer { found_of self.new ≡ found_of self.old }
        ensures changes { Rose (changes_of self.old) (changes_of self.new) }
        ensures cause { HasCauseWhere IsFault (count_of self.old) (count_of self.new) result }
        ensures counts { CountsWhere IsFault (count_of self.old) (count_of self.new) result }
    {
        self.changes = self.changes.saturating_add(1);
        match self.store.apply(change) {
            Ok(()) => Ok(()),
            Err(why) => Err(self.refusal(why)),
        }
    }

    fn page(&mut self, after: Option<&Key>, n: usize) -> Result<Vec<Row>, KeepErr>
        ensures asked { (answer : Result (Vec Row Global) KeepErr) × S.pages (store_of self.old) (option_copied after.entry) n answer (store_of self.new) × HandsOn (λ rows. MayGive (option_copied after.entry) n rows.items) answer result }
        ensures answer { found_of self.new ≡ found_of self.old }
        ensures shape { IfOk result (λ rows. IsPageAfter (option_copied after.entry) n rows.items) }
        ensures range { IfOk result (λ rows. IsTrue (rows_in_range rows.items)) }
        ensures changes { changes_of self.new ≡ changes_of self.old }
        ensures cause { HasCauseWhere IsFault (count_of self.old) (count_of self.new) result }
        ensures counts { CountsWhere IsFault (count_of self.old) (count_of self.new) result }
    {
        match self.store.page(after, n) {
            Ok(rows) => {
                if is_page(after, n, &rows) {
                    Ok(rows)
                } else {
                    Err(self.fault())
                }
            }
            Err(why) => Err(self.refusal(why)),
        }
    }

    fn generation(&mut self) -> Result<Generation, KeepErr>
        ensures asked { (answer : Result Generation KeepErr) × S.numbers (store_of self.old) answer (store_of self.new) × HandsOn (λ g. IsTrue (generation_in_range g)) answer result }
        ensures answer { found_of self.new ≡ found_of self.old }
        ensures range { IfOk result (λ g. IsTrue (generation_in_range g)) }
        ensures changes { changes_of self.new ≡ changes_of self.old }
        ensures cause { HasCauseWhere IsFault (count_of self.old) (count_of self.new) result }
        ensures counts { CountsWhere IsFault (count_of self.old) (count_of self.new) result }
    {
        match self.store.generation() {
            Ok(generation) if may_be_time(generation.number) => Ok(generation),
            Ok(_) => Err(self.fault()),
            Err(why) => Err(self.refusal(why)),
        }
    }
}
