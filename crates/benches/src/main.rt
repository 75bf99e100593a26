//! Benches. The first word is `plain`, or `timed` where the times are wanted: they differ from run to run, and are in
//! nanoseconds. Behind it each three words are a bench: its name, how large, and how often.
//!
//! - `calls`: PUTs and GETs of a repository in memory: of how many paths, and how many calls are timed at a time.
//! - `rows`: gets, changes and pages of a keeper in memory: of how many rows, and how often each.
//! - `uploads`: uploads into a file that keeps nothing: of how many parts, and how many uploads.
#![tactic(auto)]

mod caller;
mod calls;
mod drain;
mod fresh;
mod keys;
mod rows;
mod stop;
mod uploads;

use crate::stop::Stop;
use std::env;

/// Runs the bench with that name.
fn run(rt: &HostRuntime, name: &str, size: u64, turns: u64, is_timed: bool) -> Result<(), Stop> {
    match name {
        "calls" => calls::measure_fresh(rt, size, turns, is_timed),
        "rows" => rows::measure(rt, size, turns, is_timed),
        "uploads" => uploads::measure(rt, size, turns),
        _ => Err(Stop::Words),
    }
}

/// Runs the bench that these words ask for.
fn bench(rt: &HostRuntime, words: &[String], is_timed: bool) -> Result<(), Stop> {
    let [name, size, turns] = words else {
        return Err(Stop::Words);
    };
    match (size.parse::<u64>(), turns.parse::<u64>()) {
        (Ok(size), Ok(turns)) => run(rt, name.as_str(), size, turns, is_timed),
        _ => Err(Stop::Words),
    }
}

/// The words behind the program's name.
fn words_of(rt: &HostRuntime) -> Result<Vec<String>, Stop> {
    let mut words = Vec::new(rt.alloc());
    for word in env::args(rt)?.skip(1) {
        words.push(word)?;
    }
    Ok(words)
}

fn main(rt: HostRuntime) -> Result<(), Stop> {
    let words = words_of(&rt)?;
    let [first, benches @ ..] = words.as_slice() else {
        return Err(Stop::Words);
    };
    let is_timed = match first.as_str() {
        "plain" => false,
        "timed" => true,
        _ => return Err(Stop::Words),
    };
    for words in benches.chunks(3) {
        bench(&rt, words, is_timed)?;
    }
    Ok(())
}
