ghost use Rattle.std.specs.Prelude.{◌≡◌, ◌<◌, ◌+◌, ◌/◌, length, if◌then◌else◌, ◌++◌, ◌∷◌, ◌^◌, [], ℕ, List, take, Some, None, IfOk, OnOk, OnErr, true, map, option_map, vec_len};
ghost use Rattle.nx_io.specs.Causes.{HasCauseWhere, CountsWhere};
ghost use Rattle.disk_model.specs.Seen.{seen};
ghost use Rattle.disk_model.specs.Past.{all_before, value_of, lookup, Moves, Noted};
ghost use Rattle.disk_model.specs.Plan.{fails_at, calls_listed, first_plan, part_plan, FailsByPlan, PlannedLeaves};
ghost use Rattle.std.specs.Str.{bytes_eq};
ghost use Rattle.disk_model.specs.Picked.{picked, AreNames, or_else, value_picked};
ghost use Rattle.disk_model.specs.Disk.{After, Puts, Joins, Settles, IsFault, small_limit};
ghost use Rattle.disk_model.specs.Moments.{Ticks, Settled, IsImage};

use crate::disk::{Disk, SMALL_LIMIT};
use crate::disk_err::DiskErr;
use crate::memory::change::Change;
use crate::memory::count::{next, one_more, with_part};
use crate::memory::history::History;
use crate::memory::reader::MemReader;
use crate::memory::writer::{MemSealed, MemWriter};
use crate::reader::Reader;
use nx_base::{Name, NoMemory};
use std::alloc::Global;

/// A disk in memory. Of its calls that can fail, those with the listed numbers do, and all from a number on.
#[derive(Drop)]
pub struct MemDisk {
    alloc: Global,
    history: History,
    calls: u64,
    failing: Vec<u64>,
    stop_after: Option<u64>,
    faults: u64,
    looked: Option<u64>,
    shown: u64,
    writers: u64,
    readers: u64,
    fail_writes: Vec<(u64, u64)>,
    fail_reads: Vec<(u64, u64)>,
    ghost before: { all_before calls history.log.items ≡ true },
}

// A copy of the first bytes of what was found.
fn small_copy(alloc: Global, found: Option<&[u8]>) -> Result<Option<Vec<u8>>, NoMemory>
    ensures { IfOk result (λ copy. option_map (λ v. v.items) copy ≡ option_map (λ bytes. take small_limit bytes) (seen found.entry)) }
{
    match found {
        None => Ok(None),
        Some(bytes) => match Vec::from_slice(alloc, first_bytes(bytes)) {
            Ok(copy) => Ok(Some(copy)),
            Err(_) => Err(NoMemory),
        },
    }
}

// The first 65,537 bytes at most.
fn first_bytes(bytes: &[u8]) -> &[u8]
    ensures { result.now ≡ take small_limit bytes.now }
{
    if bytes.len() <= SMALL_LIMIT {
        return bytes;
    }
    &bytes[..SMALL_LIMIT]
}

// How many bytes a look found.
fn len_of(found: &Option<Vec<u8>>) -> Option<u64>
    ensures { result ≡ option_map (λ v. vec_len v) found.now }
{
    match found {
        Some(bytes) => Some(bytes.len() as u64),
        None => None,
    }
}

// The calls of the part with that number that are to fail.
fn calls_of(alloc: Global, pairs: &[(u64, u64)], part: u64) -> Result<Vec<u64>, NoMemory>
    ensures { IfOk result (λ calls. calls.items ≡ calls_listed part pairs.now) }
{
    let calls = pairs
        .iter()
        .filter(|pair| pair.0 == part)
        .map(|pair| pair.1);
    match calls.collect(alloc) {
        Ok(calls) => Ok(calls),
        Err(_) => Err(NoMemory),
    }
}

// A reader of these bytes, with the failures that are planned for the reader with that number.
fn reader_of(
    alloc: Global,
    bytes: &[u8],
    pairs: &[(u64, u64)],
    part: u64,
) -> Result<MemReader, NoMemory>
    ensures left { IfOk result (λ r. ⟦<MemReader as Reader>⟧.left r ≡ bytes.now) }
    ensures size { IfOk result (λ r. ⟦<MemReader as Reader>⟧.size r ≡ length bytes.now) }
    ensures sound { IfOk result (λ r. ⟦<MemReader as Reader>⟧.faults r ≡ 0) }
    ensures plan { IfOk result (λ r. ⟦<MemReader as Reader>⟧.plan r ≡ Some (part_plan part pairs.now)) }
{
    let failing = calls_of(alloc, pairs, part)?;
    MemReader::new(alloc, bytes, failing)
}

impl MemDisk {
    ghost use Rattle.disk_model.specs.Memory.{tree_in, lists_in, clock_in, faults_in, look_in, shown_in, plan_in};

    /// A disk with these files, each settled. Of several files with one name the first counts.
    pub fn new(
        alloc: Global,
        files: Vec<(Name, Vec<u8>)>,
        failing: Vec<u64>,
        stop_after: Option<u64>,
    ) -> Result<MemDisk, NoMemory>
        ensures tree { IfOk result (λ d. tree_in d ≡ (λ n. lookup n files.items)) }
        ensures settled { IfOk result (λ d. Settled (tree_in d) (lists_in d (clock_in d))) }
        ensures faults { IfOk result (λ d. faults_in d ≡ 0) }
        ensures clock { IfOk result (λ d. clock_in d ≡ 0) }
        ensures looked { IfOk result (λ d. look_in d ≡ None) }
        ensures shown { IfOk result (λ d. shown_in d ≡ 0) }
        ensures plan { IfOk result (λ d. plan_in d ≡ first_plan failing.items stop_after) }
    {
        let history = History::new(alloc, files)?;
        Ok(MemDisk {
            alloc,
            history,
            calls: 0,
            failing,
            stop_after,
            faults: 0,
            looked: None,
            shown: 0,
            writers: 0,
            readers: 0,
            fail_writes: Vec::new(alloc),
            fail_reads: Vec::new(alloc),
        })
    }

    /// Lets calls of the writers and readers that the disk gives from now on fail. A pair is the number of a writer, or
    /// of a reader, and the number of its call. Both count from 0: the writers, or readers, that the disk has given
    /// since it was made, and the calls of that one. `seal` is a call of a writer too.
    pub fn fail_parts(&mut self, writes: Vec<(u64, u64)>, reads: Vec<(u64, u64)>)
        ensures plan { plan_in self.new ≡ record (plan_in self.old) { writes = writes.items; reads = reads.items } }
        ensures tree { tree_in self.new ≡ tree_in self.old }
        ensures lists { lists_in self.new ≡ lists_in self.old }
        ensures clock { clock_in self.new ≡ clock_in self.old }
        ensures faults { faults_in self.new ≡ faults_in self.old }
        ensures looked { look_in self.new ≡ look_in self.old }
        ensures shown { shown_in self.new ≡ shown_in self.old }
    {
        self.fail_writes = writes;
        self.fail_reads = reads;
    }

    /// The present value of the name. It is no call of the disk, so that the clock stays.
    pub fn value(&self, name: &Name) -> Option<&[u8]>
        ensures { seen result ≡ tree_in self.now name.now }
    {
        self.history.find(name)
    }

    /// The values that a crash may leave of the name at a moment of the clock, in the order in which they joined. A
    /// value that joined twice stands there twice. It is no call of the disk.
    pub fn values_at(&self, moment: u64, name: &Name) -> Result<Vec<Option<Vec<u8>>>, NoMemory>
        ensures { IfOk result (λ v. map value_of v.items ≡ lists_in self.now moment name.now) }
    {
        self.history.values_at(moment, name)
    }

    // Gives the name the value that the number picks of its list, and answers what is left of the number.
    fn pick_value(
        &self,
        files: &mut Vec<(Name, Vec<u8>)>,
        name: &Name,
        pick: u64,
    ) -> Result<u64, NoMemory>
        ensures left { IfOk result (λ left. left ≡ pick / length (lists_in self.now (clock_in self.now) name.now)) }
        ensures value { OnOk result ((n : List ℕ) → lookup n files.new.items ≡ or_else (lookup n files.old.items) (if bytes_eq n name.now
            then value_picked (lists_in self.now (clock_in self.now) name.now) pick else None)) }
    {
        let mut values = self.values_at(self.calls, name)?;
        let len = values.as_slice().len() as u64;
        let at = (pick % len) as usize;
        let Some(bytes) = values.remove(at) else {
            return Ok(pick / len);
        };
        let name = name.try_clone(self.alloc)?;
        let Ok(()) = files.push((name, bytes)) else {
            return Err(NoMemory);
        };
        Ok(pick / len)
    }

    /// A disk that never fails, with one of the images that a crash may leave now. The digits of `pick` choose a value
    /// for each name, the names in byte order, the first one by the least digit; a name's values count in the order in
    /// which they joined. The names in `tmp` are absent.
    pub fn crash(self, pick: u64) -> Result<MemDisk, NoMemory>
        ensures picked { IfOk result (λ d. (names : List (List ℕ))
            × AreNames (lists_in self (clock_in self)) names
            × ((n : List ℕ) → tree_in d n ≡ picked (lists_in self (clock_in self)) names pick n)) }
        ensures image { IfOk result (λ d. IsImage (lists_in self (clock_in self)) (tree_in d)) }
        ensures settled { IfOk result (λ d. Settled (tree_in d) (lists_in d (clock_in d))) }
        ensures plan { IfOk result (λ d. plan_in d ≡ first_plan [] None) }
        ensures faults { IfOk result (λ d. faults_in d ≡ 0) }
        ensures clock { IfOk result (λ d. clock_in d ≡ 0) }
        ensures shown { IfOk result (λ d. shown_in d ≡ 0) }
    {
        let names = self.history.names()?;
        let mut files = Vec::new(self.alloc);
        let mut left = pick;
        for name in &names {
            left = self.pick_value(&mut files, name, left)?;
        }
        MemDisk::new(self.alloc, files, Vec::new(self.alloc), None)
    }

    /// The clock: how many calls there were.
    pub fn clock(&self) -> u64
        ensures { result ≡ clock_in self.now }
    {
        self.calls
    }

    /// How many calls failed, the disk's own and those of the parts that it took back.
    pub fn faults(&self) -> u64
        ensures { result ≡ faults_in self.now }
    {
        self.faults
    }

    // Whether the next call fails.
    fn fails(&self) -> bool
        ensures { result ≡ fails_at (plan_in self.now).failing (plan_in self.now).stop_after (clock_in self.now) }
    {
        match self.stop_after {
            Some(last) if last <= self.calls => true,
            _ => self.failing.contains(&self.calls),
        }
    }

    // A call that can't fail and changes no list.
    fn skip(&mut self)
        ensures history { self.new.history ≡ self.old.history }
        ensures faults { faults_in self.new ≡ faults_in self.old }
        ensures looked { look_in self.new ≡ look_in self.old }
        ensures shown { shown_in self.new ≡ shown_in self.old }
        ensures plan { plan_in self.new ≡ plan_in self.old }
        ensures crash { lists_in self.new (clock_in self.new) ≡ lists_in self.old (clock_in self.old) }
        ensures time { Ticks (clock_in self.old) (clock_in self.new) (lists_in self.old) (lists_in self.new) }
    {
        self.calls = next(self.calls);
    }

    // A call that changes no list.
    fn tick(&mut self) -> Result<(), DiskErr>
        ensures history { self.new.history ≡ self.old.history }
        ensures looked { look_in self.new ≡ look_in self.old }
        ensures shown { shown_in self.new ≡ shown_in self.old }
        ensures plan { plan_in self.new ≡ plan_in self.old }
        ensures exact { FailsByPlan (Some (plan_in self.old)) (clock_in self.old) result }
        ensures cause { HasCauseWhere IsFault (faults_in self.old) (faults_in self.new) result }
        ensures counts { CountsWhere IsFault (faults_in self.old) (faults_in self.new) result }
        ensures crash { lists_in self.new (clock_in self.new) ≡ lists_in self.old (clock_in self.old) }
        ensures time { Ticks (clock_in self.old) (clock_in self.new) (lists_in self.old) (lists_in self.new) }
    {
        let fails = self.fails();
        self.skip();
        if fails {
            self.faults = one_more(self.faults);
            return Err(DiskErr::Failed);
        }
        Ok(())
    }

    // One more change in the history.
    fn record(
        &mut self,
        name: &Name,
        value: Option<Vec<u8>>,
        done: bool,
        settles: bool,
    ) -> Result<(), NoMemory>
        ensures files { self.new.history.files.items ≡ self.old.history.files.items }
        ensures added { OnOk result (self.new.history.log.items ≡ self.old.history.log.items ++ record { at = clock_in self.old; name = name.now; value = value; done = done; settles = settles } ∷ []) }
        ensures refused { OnErr result (self.new.history.log.items ≡ self.old.history.log.items) }
        ensures room { OnOk result (clock_in self.old + 1 < 2 ^ 64) }
        ensures calls { Moves (clock_in self.old) (clock_in self.new) }
        ensures faults { faults_in self.new ≡ faults_in self.old }
        ensures looked { look_in self.new ≡ look_in self.old }
        ensures shown { shown_in self.new ≡ shown_in self.old }
        ensures plan { plan_in self.new ≡ plan_in self.old }
    {
        let at = self.calls;
        self.calls = next(at);
        if at == u64::MAX {
            return Err(NoMemory);
        }
        let name = name.try_clone(self.alloc)?;
        self.history.add(Change {
            at,
            name,
            value,
            done,
            settles,
        })
    }

    // A call that changes the list of a name.
    fn note(&mut self, name: &Name, value: Option<Vec<u8>>, settles: bool) -> Result<(), DiskErr>
        ensures files { self.new.history.files.items ≡ self.old.history.files.items }
        ensures log { Noted result (clock_in self.old) name.now value settles self.old.history.log.items self.new.history.log.items }
        ensures room { After result (clock_in self.old + 1 < 2 ^ 64) (clock_in self.old + 1 < 2 ^ 64) (Unit {0}) }
        ensures looked { look_in self.new ≡ look_in self.old }
        ensures shown { shown_in self.new ≡ shown_in self.old }
        ensures plan { plan_in self.new ≡ plan_in self.old }
        ensures exact { FailsByPlan (Some (plan_in self.old)) (clock_in self.old) result }
        ensures cause { HasCauseWhere IsFault (faults_in self.old) (faults_in self.new) result }
        ensures counts { CountsWhere IsFault (faults_in self.old) (faults_in self.new) result }
        ensures calls { Moves (clock_in self.old) (clock_in self.new) }
    {
        let fails = self.fails();
        match self.record(name, value, !fails, settles) {
            Ok(()) => {
                if fails {
                    self.faults = one_more(self.faults);
                    return Err(DiskErr::Failed);
                }
                Ok(())
            }
            Err(NoMemory) => Err(DiskErr::NoMemory),
        }
    }

    // Gives the name a value.
    fn put(&mut self, name: &Name, value: Option<Vec<u8>>) -> Result<(), DiskErr>
        ensures tree { Puts result name.now (value_of value) (tree_in self.old) (tree_in self.new) }
        ensures looked { look_in self.new ≡ look_in self.old }
        ensures shown { shown_in self.new ≡ shown_in self.old }
        ensures plan { plan_in self.new ≡ plan_in self.old }
        ensures exact { FailsByPlan (Some (plan_in self.old)) (clock_in self.old) result }
        ensures cause { HasCauseWhere IsFault (faults_in self.old) (faults_in self.new) result }
        ensures counts { CountsWhere IsFault (faults_in self.old) (faults_in self.new) result }
        ensures effect { PlannedLeaves (Some (plan_in self.old)) result (tree_in self.new ≡ tree_in self.old) }
        ensures crash { Joins result name.now (value_of value) (lists_in self.old (clock_in self.old)) (lists_in self.new (clock_in self.new)) }
        ensures time { Ticks (clock_in self.old) (clock_in self.new) (lists_in self.old) (lists_in self.new) }
    {
        self.note(name, value, false)
    }

    // Leaves the present value alone in the name's list.
    fn settle(&mut self, name: &Name) -> Result<(), DiskErr>
        ensures tree { tree_in self.new ≡ tree_in self.old }
        ensures looked { look_in self.new ≡ look_in self.old }
        ensures shown { shown_in self.new ≡ shown_in self.old }
        ensures plan { plan_in self.new ≡ plan_in self.old }
        ensures exact { FailsByPlan (Some (plan_in self.old)) (clock_in self.old) result }
        ensures cause { HasCauseWhere IsFault (faults_in self.old) (faults_in self.new) result }
        ensures counts { CountsWhere IsFault (faults_in self.old) (faults_in self.new) result }
        ensures effect { PlannedLeaves (Some (plan_in self.old)) result (lists_in self.new (clock_in self.new) ≡ lists_in self.old (clock_in self.old)) }
        ensures crash { Settles result name.now (tree_in self.old name.now) (lists_in self.old (clock_in self.old)) (lists_in self.new (clock_in self.new)) }
        ensures time { Ticks (clock_in self.old) (clock_in self.new) (lists_in self.old) (lists_in self.new) }
    {
        self.note(name, None, true)
    }
}

impl Disk for MemDisk {
    ghost use Rattle.std.specs.Prelude.{Some};
    ghost use Rattle.disk_model.specs.Memory.{tree_in, lists_in, clock_in, faults_in, look_in, shown_in, plan_in};
    ghost use Rattle.disk_model.specs.PastLaws.{present_of};

    type Sealed = MemSealed;

    type Writer = MemWriter;

    type Reader = MemReader;

    ghost told = { Unit {0} };

    ghost tree = { tree_in };

    ghost faults = { faults_in };

    ghost clock = { clock_in };

    ghost lists = { lists_in };

    ghost plan = { λ d. Some (plan_in d) };

    ghost last_look = { look_in };

    ghost shown = { shown_in };

    ghost writers_tell = { λ told. told };

    ghost readers_tell = { λ told. told };

    ghost present = { λ d told n. present_of d.history.files.items d.history.log.items d.calls n d.before };

    fn temp(&mut self) -> Result<MemWriter, DiskErr> {
        self.tick()?;
        match calls_of(self.alloc, &self.fail_writes, self.writers) {
            Ok(failing) => {
                self.writers = one_more(self.writers);
                Ok(MemWriter::new(self.alloc, failing))
            }
            Err(NoMemory) => Err(DiskErr::NoMemory),
        }
    }

    fn install(&mut self, file: MemSealed, name: &Name) -> Result<(), DiskErr> {
        self.shown = one_more(self.shown);
        let MemSealed { bytes } = file;
        self.put(name, Some(bytes))
    }

    fn discard(&mut self, file: MemSealed) {
        let MemSealed { bytes: _ } = file;
        self.skip();
    }

    fn give_up(&mut self, file: MemWriter) {
        self.skip();
        self.faults = with_part(self.faults, file.into_faults());
    }

    fn end_reader(&mut self, file: MemReader) {
        self.skip();
        self.faults = with_part(self.faults, file.into_faults());
    }

    fn sync(&mut self, name: &Name) -> Result<(), DiskErr> {
        self.settle(name)
    }

    fn remove(&mut self, name: &Name) -> Result<bool, DiskErr> {
        let there = self.history.find(name).is_some();
        self.shown = one_more(self.shown);
        self.put(name, None)?;
        Ok(there)
    }

    fn read_small(&mut self, name: &Name) -> Result<Option<Vec<u8>>, DiskErr> {
        self.tick()?;
        match small_copy(self.alloc, self.history.find(name)) {
            Ok(found) => {
                self.looked = len_of(&found);
                Ok(found)
            }
            Err(NoMemory) => Err(DiskErr::NoMemory),
        }
    }

    fn open_file(&mut self, name: &Name) -> Result<Option<MemReader>, DiskErr> {
        self.tick()?;
        let Some(bytes) = self.history.find(name) else {
            self.looked = None;
            return Ok(None);
        };
        match reader_of(self.alloc, bytes, &self.fail_reads, self.readers) {
            Ok(reader) => {
                self.looked = Some(reader.len());
                self.readers = one_more(self.readers);
                Ok(Some(reader))
            }
            Err(NoMemory) => Err(DiskErr::NoMemory),
        }
    }

    fn list(&mut self, prefix: &Name) -> Result<Vec<Name>, DiskErr> {
        self.tick()?;
        match self.history.list(prefix) {
            Ok(names) => Ok(names),
            Err(NoMemory) => Err(DiskErr::NoMemory),
        }
    }
}
