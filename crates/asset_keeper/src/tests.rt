//! The calls through the bound, over a keeper in memory.
ghost use Rattle.std.specs.Prelude.{IsTrue, IfOk};
ghost use Rattle.asset_keeper.specs.Ranges.{in_range};

use crate::change::Change;
use crate::checked_keeper::{CheckedKeeper, RowStore};
use crate::generation::Generation;
use crate::keep_err::KeepErr;
use crate::keeper::Keeper;
use crate::map_keeper::MapKeeper;
use nx_base::{
    Asset, AssetPath, BlobId, BlobRef, ContentType, Key, NameErr, RepoName, Row, StoreName,
};
use std::alloc::Global;
use std::test::Fail;

const LAST: u64 = 0xffff_ffff_ffff;

fn key(alloc: Global, repo: &[u8], path: &[u8]) -> Result<Key, NameErr> {
    let repo = RepoName::parse(alloc, repo)?;
    let path = AssetPath::parse(alloc, path)?;
    Ok(Key { repo, path })
}

fn row(alloc: Global, repo: &[u8], path: &[u8], size: u64) -> Result<Row, NameErr>
    ensures { IfOk result (λ row. IsTrue (in_range row.asset)) }
{
    let key = key(alloc, repo, path)?;
    let blob = BlobRef {
        store: StoreName::parse(alloc, b"default")?,
        id: BlobId::made(LAST, &[0; 10]),
        timestamp: LAST,
    };
    let asset = Asset {
        blob,
        size: size.min(LAST),
        sha1: [0; 20],
        content_type: ContentType::parse(alloc, b"text/plain")?,
        verified: LAST,
        downloaded: Some(LAST),
    };
    Ok(Row { key, asset })
}

/// Why a test of a keeper ended.
#[derive(Clone, Copy, Debug, PartialEq, Eq)]
enum Stop {
    Name(NameErr),
    Keep(KeepErr),
    Order,
}

impl From<NameErr> for Stop {
    fn from(e: NameErr) -> Stop {
        Stop::Name(e)
    }
}

impl From<KeepErr> for Stop {
    fn from(e: KeepErr) -> Stop {
        Stop::Keep(e)
    }
}

/// Sets the rows of the paths, in that order.
fn fill<K: Keeper>(alloc: Global, keeper: &mut K, paths: &[&[u8]]) -> Result<(), Stop> {
    for path in paths {
        keeper.apply(&Change::Set(row(alloc, b"files", path, 3)?))?;
    }
    Ok(())
}

/// How many rows the pages of n give, one after another, each after all before it.
fn count<K: Keeper>(alloc: Global, keeper: &mut K, n: usize) -> Result<usize, Stop> {
    let n = n.max(1);
    let mut after: Option<Key> = None;
    let mut total = 0usize;
    for _ in 0..2000 {
        let page = keeper.page(after.as_ref(), n)?;
        total = total.saturating_add(page.len());
        let Some(last) = page.last() else {
            return Ok(total);
        };
        if let Some(key) = &after {
            if last.key <= *key {
                return Err(Stop::Order);
            }
        }
        after = Some(last.key.try_clone(alloc).or(Err(KeepErr::NoMemory))?);
    }
    Err(Stop::Order)
}

/// Keys come in byte order, each once, whatever the size of the page.
fn reads_in_order<K: Keeper>(alloc: Global, keeper: &mut K) -> Result<(), Stop> {
    let paths: [&[u8]; 5] = [b"a/b", b"a-b", "ü".as_bytes(), b"z", b"a/b"];
    fill(alloc, keeper, &paths)?;
    keeper.apply(&Change::Set(row(alloc, b"a", b"z", 1)?))?;
    keeper.apply(&Change::Remove(key(alloc, b"files", b"none")?))?;
    for n in [1, 2, 256] {
        if count(alloc, keeper, n)? != 5 {
            return Err(Stop::Order);
        }
    }
    let page = keeper.page(None, 3)?;
    let Some(second) = page.get(1) else {
        return Err(Stop::Order);
    };
    if second.key.path.as_bytes() != b"a-b".as_slice() {
        return Err(Stop::Order);
    }
    keeper.apply(&Change::Remove(key(alloc, b"files", b"a/b")?))?;
    if keeper.get(&key(alloc, b"files", b"a/b")?)?.is_some() || count(alloc, keeper, 2)? != 4 {
        return Err(Stop::Order);
    }
    match keeper.get(&key(alloc, b"a", b"z")?)? {
        Some(asset) if asset.size == 1 => Ok(()),
        _ => Err(Stop::Order),
    }
}

/// The generation is kept, up to its greatest number.
fn keeps_generation<K: Keeper>(keeper: &mut K) -> Result<(), Stop> {
    let last = Generation {
        number: LAST,
        random: [9; 10],
    };
    keeper.apply(&Change::Generation(last))?;
    if keeper.generation()? == last {
        Ok(())
    } else {
        Err(Stop::Order)
    }
}

fn empty(alloc: Global, failing: Vec<u64>) -> Result<MapKeeper, Stop> {
    let first = Generation {
        number: 0,
        random: [0; 10],
    };
    match MapKeeper::new(alloc, Vec::new(alloc), first, failing) {
        Ok(keeper) => Ok(keeper),
        Err(_) => Err(Stop::Keep(KeepErr::NoMemory)),
    }
}

#[test]
fn map_keeper_rows(rt: HostRuntime) -> Result<(), Fail> {
    let a = rt.alloc();
    let mut keeper = empty(a, Vec::new(a))?;
    assert_eq!(rt; reads_in_order(a, &mut keeper), Ok(()));
    assert_eq!(rt; keeps_generation(&mut keeper), Ok(()));
    Ok(())
}

/// All that is done above, one after another: 28 calls.
fn whole<K: Keeper>(alloc: Global, keeper: &mut K) -> Result<(), Stop> {
    reads_in_order(alloc, keeper)?;
    keeps_generation(keeper)
}

/// A keeper that fails the call with that number.
fn failing(alloc: Global, call: u64) -> Result<MapKeeper, Stop> {
    let mut numbers = Vec::new(alloc);
    match numbers.push(call) {
        Ok(()) => empty(alloc, numbers),
        Err(_) => Err(Stop::Keep(KeepErr::NoMemory)),
    }
}

#[test]
fn each_listed_call_fails(rt: HostRuntime) -> Result<(), Fail> {
    let a = rt.alloc();
    for call in 0..28 {
        let mut keeper = failing(a, call)?;
        assert_eq!(rt; whole(a, &mut keeper), Err(Stop::Keep(KeepErr::Failed)));
        assert_eq!(rt; whole(a, &mut keeper), Ok(()));
    }
    let mut keeper = failing(a, 28)?;
    assert_eq!(rt; whole(a, &mut keeper), Ok(()));
    assert_eq!(rt; whole(a, &mut keeper), Err(Stop::Keep(KeepErr::Failed)));
    Ok(())
}

/// The path with that number, in three digits.
fn numbered(alloc: Global, number: u64) -> Result<String, Stop> {
    match format!(in alloc; "p/{number:03}") {
        Ok(path) => Ok(path),
        Err(_) => Err(Stop::Keep(KeepErr::NoMemory)),
    }
}

/// A thousand rows, set in another order than that of their keys. Each has its number as its size.
fn thousand<K: Keeper>(alloc: Global, keeper: &mut K) -> Result<(), Stop> {
    for turn in 0..1000u64 {
        let number = turn * 389 % 1000;
        let path = numbered(alloc, number)?;
        keeper.apply(&Change::Set(row(alloc, b"files", path.as_bytes(), number)?))?;
    }
    Ok(())
}

/// Whether the row is the one with that number.
fn is_numbered(alloc: Global, row: &Row, number: u64) -> Result<bool, Stop> {
    let path = numbered(alloc, number)?;
    Ok(row.asset.size == number && row.key.path.as_bytes() == path.as_bytes())
}

/// The number behind those of the rows, if they have the numbers from the given one on.
fn number_after(alloc: Global, rows: &[Row], first: u64) -> Result<u64, Stop> {
    let mut number = first;
    for row in rows {
        if !is_numbered(alloc, row, number)? {
            return Err(Stop::Order);
        }
        number = number.saturating_add(1);
    }
    Ok(number)
}

/// The key of the last row.
fn last_key(alloc: Global, rows: &[Row]) -> Result<Option<Key>, Stop> {
    match rows.last() {
        None => Ok(None),
        Some(row) => match row.key.try_clone(alloc) {
            Ok(key) => Ok(Some(key)),
            Err(_) => Err(Stop::Keep(KeepErr::NoMemory)),
        },
    }
}

/// How many pages of n rows there are up to the first that is empty, if the rows that they give have the numbers from 0
/// on to 999.
fn pages<K: Keeper>(alloc: Global, keeper: &mut K, n: usize) -> Result<usize, Stop> {
    let n = n.max(1);
    let mut after: Option<Key> = None;
    let mut number = 0u64;
    for read in 0..2000usize {
        let page = keeper.page(after.as_ref(), n)?;
        number = number_after(alloc, &page, number)?;
        after = last_key(alloc, &page)?;
        if after.is_none() {
            return if number == 1000 {
                Ok(read)
            } else {
                Err(Stop::Order)
            };
        }
    }
    Err(Stop::Order)
}

#[test]
fn pages_of_a_thousand_rows(rt: HostRuntime) -> Result<(), Fail> {
    let a = rt.alloc();
    let mut keeper = empty(a, Vec::new(a))?;
    assert_eq!(rt; thousand(a, &mut keeper), Ok(()));
    for (n, read) in [(1, 1000), (2, 500), (256, 4), (1000, 1)] {
        assert_eq!(rt; pages(a, &mut keeper, n), Ok(read));
    }
    Ok(())
}

/// Rows outside that are empty, with a generation of that number.
#[derive(Drop)]
struct EmptyRows {
    alloc: Global,
    number: u64,
}

impl RowStore for EmptyRows {
    ghost gets = { λ _ _ _ _. Unit {0} };

    ghost applies = { λ _ _ _ _. Unit {0} };

    ghost pages = { λ _ _ _ _ _. Unit {0} };

    ghost numbers = { λ _ _ _. Unit {0} };

    fn get(&mut self, _key: &Key) -> Result<Option<Asset>, KeepErr> {
        Ok(None)
    }

    fn apply(&mut self, _change: &Change) -> Result<(), KeepErr> {
        Ok(())
    }

    fn page(&mut self, _after: Option<&Key>, _n: usize) -> Result<Vec<Row>, KeepErr> {
        Ok(Vec::new(self.alloc))
    }

    fn generation(&mut self) -> Result<Generation, KeepErr> {
        Ok(Generation {
            number: self.number,
            random: [0; 10],
        })
    }
}

/// The number of the generation, where the keeper finds no row otherwise.
fn number_of<K: Keeper>(alloc: Global, keeper: &mut K) -> Result<u64, Stop> {
    let key = key(alloc, b"files", b"a")?;
    keeper.apply(&Change::Remove(key.try_clone(alloc).or(Err(KeepErr::NoMemory))?))?;
    if keeper.get(&key)?.is_some() || !keeper.page(None, 1)?.is_empty() {
        return Err(Stop::Order);
    }
    Ok(keeper.generation()?.number)
}

/// A keeper may be moved to another thread.
fn needs_send<T: Send>(value: T) -> T {
    value
}

#[test]
fn keepers_over_rows_outside(rt: HostRuntime) -> Result<(), Fail> {
    let a = rt.alloc();
    let rows = [
        (0, Ok(0)),
        (LAST, Ok(LAST)),
        (LAST + 1, Err(Stop::Keep(KeepErr::Failed))),
    ];
    for (number, answer) in rows {
        let mut keeper = needs_send(CheckedKeeper::new(EmptyRows { alloc: a, number }));
        assert_eq!(rt; number_of(a, &mut keeper), answer);
    }
    let mut keeper = needs_send(empty(a, Vec::new(a))?);
    assert_eq!(rt; number_of(a, &mut keeper), Ok(0));
    Ok(())
}
