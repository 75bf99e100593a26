ghost use Rattle.std.specs.Prelude.{IsTrue};
ghost use Rattle.asset_keeper.specs.Ranges.{entries_in_range, generation_in_range};

use crate::change::Change;
use crate::generation::Generation;
use crate::keep_err::KeepErr;
use crate::keeper::Keeper;
use crate::page::page_in;
use crate::tree::{asset_at, remove_row, set_row, tree_of};
use nx_base::{Asset, Key, NoMemory, Row};
use std::alloc::Global;
use std::collections::BTreeMap;

/// A keeper in memory. It tells its table, and fails the calls whose numbers are listed, from 0
/// on; those leave the table as it was.
#[derive(Drop)]
pub struct MapKeeper {
    alloc: Global,
    rows: BTreeMap<Key, Asset>,
    generation: Generation,
    failing: Vec<u64>,
    calls: u64,
    faults: u64,
    found: bool,
    changes: u64,
    ghost in_range: { IsTrue (entries_in_range rows.entries) },
    ghost numbered: { IsTrue (generation_in_range generation) },
}

impl MapKeeper {
    ghost use Rattle.std.specs.Prelude.{◌≡◌, ◌≤◌, ◌↔◌, ◌+◌, ◌-◌, ◌^◌, ℕ, min, if◌then◌else◌, [], false, List, map, IsTrue, IfOk, OnOk, OnErr, Contains};
    ghost use Rattle.nx_io.specs.Causes.{Rose};
    ghost use Rattle.nx_base.specs.Order.{key_cmp};
    ghost use Rattle.asset_keeper.specs.Ranges.{rows_in_range};
    ghost use Rattle.asset_keeper.specs.Table.{table_made};
    ghost use Rattle.asset_keeper.specs.Shelf.{table_in, calls_of, failing_of, faults_of, changes_of};

    /// A keeper of those rows and that generation; of several rows with one key the last counts. It
    /// fails the calls whose numbers are listed, from 0 on.
    pub fn new(
        alloc: Global,
        rows: Vec<Row>,
        generation: Generation,
        failing: Vec<u64>,
    ) -> Result<MapKeeper, NoMemory>
        requires range { IsTrue (rows_in_range rows.items) }
        requires numbered { IsTrue (generation_in_range generation) }
        ensures table { IfOk result (λ k. table_in k ≡ table_made rows.items generation) }
        ensures failing { IfOk result (λ k. failing_of k ≡ failing.items) }
        ensures unused { IfOk result (λ k. calls_of k ≡ 0) }
        ensures sound { IfOk result (λ k. faults_of k ≡ 0) }
    {
        let rows = tree_of(alloc, rows)?;
        Ok(MapKeeper {
            alloc,
            rows,
            generation,
            failing,
            calls: 0,
            faults: 0,
            found: false,
            changes: 0,
        })
    }

    /// Whether this call is to fail. It counts the call, and the fault.
    fn fails(&mut self) -> bool
        ensures listed { IsTrue result ↔ Contains (failing_of self.old) (calls_of self.old) }
        ensures rose { IsTrue result → Rose (faults_of self.old) (faults_of self.new) }
        ensures later { faults_of self.old ≤ faults_of self.new }
        ensures counted { faults_of self.new ≡ (if result then min (faults_of self.old + 1) (2 ^ 64 - 1) else faults_of self.old) }
        ensures table { table_in self.new ≡ table_in self.old }
        ensures found { self.new.found ≡ self.old.found }
        ensures changes { changes_of self.new ≡ changes_of self.old }
        ensures calls { calls_of self.new ≡ min (calls_of self.old + 1) (2 ^ 64 - 1) }
        ensures failing { failing_of self.new ≡ failing_of self.old }
    {
        let call = self.calls;
        self.calls = call.saturating_add(1);
        let is_listed = self.failing.contains(&call);
        if is_listed {
            self.faults = self.faults.saturating_add(1);
        }
        is_listed
    }
}

impl Keeper for MapKeeper {
    ghost use Rattle.std.specs.Prelude.{Some};
    ghost use Rattle.asset_keeper.specs.Shelf.{table_in, faults_of, changes_of, plan_in};

    ghost table = { λ k. Some (table_in k) };

    ghost lasts = { Unit {0} };

    ghost faults = { faults_of };

    ghost found = { λ k. k.found };

    ghost changes = { changes_of };

    ghost plan = { λ k. Some (plan_in k) };

    fn get(&mut self, key: &Key) -> Result<Option<Asset>, KeepErr> {
        if self.fails() {
            return Err(KeepErr::Failed);
        }
        let asset = asset_at(self.alloc, &self.rows, key)?;
        self.found = asset.is_some();
        Ok(asset)
    }

    fn apply(&mut self, change: &Change) -> Result<(), KeepErr> {
        self.changes = self.changes.saturating_add(1);
        if self.fails() {
            return Err(KeepErr::Failed);
        }
        match change {
            Change::Set(row) => set_row(self.alloc, &mut self.rows, row)?,
            Change::Remove(key) => remove_row(&mut self.rows, key),
            Change::Generation(generation) => self.generation = *generation,
        }
        Ok(())
    }

    fn page(&mut self, after: Option<&Key>, n: usize) -> Result<Vec<Row>, KeepErr> {
        if self.fails() {
            return Err(KeepErr::Failed);
        }
        Ok(page_in(self.alloc, &self.rows, after, n)?)
    }

    fn generation(&mut self) -> Result<Generation, KeepErr> {
        if self.fails() {
            return Err(KeepErr::Failed);
        }
        Ok(self.generation)
    }
}
