//! Tries worked rows of the crates that read and write texts and judge calls.
//!
//! Each line of the input is a row: a kind, a text, ` => ` and the answer that is wanted. Written are the rows that get
//! another answer, with that one, and then how many rows there were. `text` says how bytes stand in a row, and `row` which
//! kinds there are.
#![tactic(auto)]

mod blobs;
mod chunks;
mod configs;
mod heads;
mod judging;
mod names;
mod places;
mod properties;
mod requests;
mod row;
mod sendable;
mod sending;
mod text;

use std::io;

fn main(rt: HostRuntime) -> io::Result<()> {
    sendable::all_go();
    let mut count = 0_u64;
    for line in rt.lines(rt.alloc()) {
        let line = line?;
        count = count.saturating_add(1);
        if let Some(complaint) = row::complaint(rt.alloc(), line.as_str())? {
            println!(rt; "{complaint}")?;
        }
    }
    println!(rt; "{count} rows")?;
    Ok(())
}
