//! Tries a repository over devices in memory whose calls fail one after another, and prints what came of it.
//!
//! A fixed script of six requests (`script`) is run by one caller (`caller`) over a fresh disk and a fresh table: once with
//! nothing failing, then once for each call of the disk, of the keeper, of each writer and of each reader with just that call
//! failing, and once for each call of the disk with that one and all later ones failing (`devices`). Each run is judged
//! (`judge`): each answer is the usual one or the fault of that device, once the core keeps a cause each later answer is that
//! cause, and the journal has one entry for each call, with its answer. Then each image that a crash may leave on the disk is
//! made, and its contents are read from its files by a slow program (`image`): they are those that the answers tell, or those
//! before or after the call that broke the core.
#![tactic(auto)]

mod caller;
mod devices;
mod image;
mod judge;
mod said;
mod script;
mod stop;
mod tally;
mod trying;

use crate::stop::Stop;
use crate::trying::{Trials, usual_trial};

fn main(rt: HostRuntime) -> Result<(), Stop> {
    let alloc = rt.alloc();
    let usual = usual_trial(alloc)?;
    println!(rt; "script: {usual}")?;
    let trials = Trials::new(alloc, &usual.names, usual.calls);
    let disk = trials.each_disk_call()?;
    println!(rt; "disk {disk}")?;
    let keeper = trials.each_keeper_call()?;
    println!(rt; "keeper {keeper}")?;
    let writers = trials.each_writer_call()?;
    println!(rt; "writers {writers}")?;
    let readers = trials.each_reader_call()?;
    println!(rt; "readers {readers}")?;
    let stops = trials.each_stop()?;
    println!(rt; "stops {stops}")?;
    Ok(())
}
