//! How long a keeper in memory takes to get a row, to set one, and to read a page of one row, each at the middle of its table.
ghost use Rattle.std.specs.Prelude.{IsTrue, IfOk, IfSome};
ghost use Rattle.asset_keeper.specs.Ranges.{in_range};

use crate::keys::key;
use crate::stop::Stop;
use asset_keeper::{Change, Generation, Keeper, MapKeeper};
use nx_base::{Asset, BlobId, BlobRef, ContentType, Key, Row, StoreName};
use std::alloc::Global;
use std::time::Instant;

/// The row with that number.
fn row(alloc: Global, number: u64) -> Result<Row, Stop>
    ensures { IfOk result (λ row. IsTrue (in_range row.asset)) }
{
    let key = key(alloc, number)?;
    let blob = BlobRef {
        store: StoreName::parse(alloc, b"default")?,
        id: BlobId::made(1, &[0; 10]),
        timestamp: 1,
    };
    let asset = Asset {
        blob,
        size: 1024,
        sha1: [0; 20],
        content_type: ContentType::parse(alloc, b"text/plain")?,
        verified: 1,
        downloaded: None,
    };
    Ok(Row { key, asset })
}

/// A keeper with so many rows.
fn filled(alloc: Global, rows: u64) -> Result<MapKeeper, Stop> {
    let first = Generation {
        number: 0,
        random: [0; 10],
    };
    let mut keeper = MapKeeper::new(alloc, Vec::new(alloc), first, Vec::new(alloc))?;
    for number in 0..rows {
        keeper.apply(&Change::Set(row(alloc, number)?))?;
    }
    Ok(keeper)
}

/// How many of so many looks at the key find a row.
fn gets<K: Keeper>(keeper: &mut K, key: &Key, turns: u64) -> Result<u64, Stop> {
    let mut found = 0u64;
    for _ in 0..turns {
        if keeper.get(key)?.is_some() {
            found = found.saturating_add(1);
        }
    }
    Ok(found)
}

/// Sets the row with that number so often.
fn sets<K: Keeper>(alloc: Global, keeper: &mut K, number: u64, turns: u64) -> Result<(), Stop> {
    for _ in 0..turns {
        keeper.apply(&Change::Set(row(alloc, number)?))?;
    }
    Ok(())
}

/// How many rows so many pages of one give, each after the key.
fn pages<K: Keeper>(keeper: &mut K, key: &Key, turns: u64) -> Result<u64, Stop> {
    let mut read = 0u64;
    for _ in 0..turns {
        read = read.saturating_add(keeper.page(Some(key), 1)?.len() as u64);
    }
    Ok(read)
}

/// Over a table of so many rows, does each so often.
pub fn measure(rt: &HostRuntime, rows: u64, turns: u64, is_timed: bool) -> Result<(), Stop> {
    let alloc = rt.alloc();
    let middle = rows / 2;
    let mut keeper = filled(alloc, rows)?;
    let key = key(alloc, middle)?;
    let begin = Instant::now(rt)?;
    let found = gets(&mut keeper, &key, turns)?;
    let got = begin.elapsed(rt)?;
    let begin = Instant::now(rt)?;
    sets(alloc, &mut keeper, middle, turns)?;
    let set = begin.elapsed(rt)?;
    let begin = Instant::now(rt)?;
    let read = pages(&mut keeper, &key, turns)?;
    let paged = begin.elapsed(rt)?;
    println!(rt; "rows {rows} found {found} read {read}")?;
    if is_timed {
        let (got, set, paged) = (got.as_nanos(), set.as_nanos(), paged.as_nanos());
        println!(rt; "get {got}")?;
        println!(rt; "apply {set}")?;
        println!(rt; "page {paged}")?;
    }
    Ok(())
}
