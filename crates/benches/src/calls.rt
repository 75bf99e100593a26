//! How long a repository over the disk and the table in memory takes for PUTs and GETs, among its first ones and among its
//! last.
use crate::caller::Caller;
use crate::fresh::fresh_caller;
use crate::stop::Stop;
use std::alloc::Global;
use std::time::{Duration, Instant};

/// What a block of calls came to: how many GETs gave a content, and how long the PUTs and the GETs took.
#[derive(Clone, Copy)]
struct Measured {
    found: u64,
    put: Duration,
    get: Duration,
}

/// Puts the contents with the numbers from one up to another.
fn puts(alloc: Global, caller: &mut Caller, from: u64, to: u64) -> Result<(), Stop> {
    for number in from..to {
        caller.put(alloc, number)?;
    }
    Ok(())
}

/// How many of the contents with these numbers are given.
fn gets(alloc: Global, caller: &mut Caller, from: u64, to: u64) -> Result<u64, Stop> {
    let mut found = 0u64;
    for number in from..to {
        if caller.finds(alloc, number)? {
            found = found.saturating_add(1);
        }
    }
    Ok(found)
}

/// Puts the contents with these numbers, and then gets them.
fn block(rt: &HostRuntime, caller: &mut Caller, from: u64, to: u64) -> Result<Measured, Stop> {
    let begin = Instant::now(rt)?;
    puts(rt.alloc(), caller, from, to)?;
    let put = begin.elapsed(rt)?;
    let begin = Instant::now(rt)?;
    let found = gets(rt.alloc(), caller, from, to)?;
    let get = begin.elapsed(rt)?;
    Ok(Measured { found, put, get })
}

/// Puts that many paths, measures the first and the last calls, and prints what came of it.
fn measure(
    rt: &HostRuntime,
    caller: &mut Caller,
    paths: u64,
    calls: u64,
    is_timed: bool,
) -> Result<(), Stop> {
    let last = paths.saturating_sub(calls);
    let first = block(rt, caller, 0, calls)?;
    puts(rt.alloc(), caller, calls, last)?;
    let end = block(rt, caller, last, paths)?;
    let found = first.found.saturating_add(end.found);
    println!(rt; "put {paths} got {found}")?;
    if is_timed {
        let (put_first, get_first) = (first.put.as_nanos(), first.get.as_nanos());
        let (put_last, get_last) = (end.put.as_nanos(), end.get.as_nanos());
        println!(rt; "put {put_first} {put_last}")?;
        println!(rt; "get {get_first} {get_last}")?;
    }
    Ok(())
}

/// The same over a fresh repository.
pub fn measure_fresh(rt: &HostRuntime, paths: u64, calls: u64, is_timed: bool) -> Result<(), Stop> {
    let mut caller = fresh_caller(rt.alloc())?;
    measure(rt, &mut caller, paths, calls, is_timed)
}
