//! Each call of each device, failing in turn.

use crate::devices::Failing;
use crate::image::{blob_names, contents_in, image_count};
use crate::judge::{Ran, run};
use crate::stop::Stop;
use crate::tally::Tally;
use nx_base::Name;
use std::alloc::Global;
use std::fmt;

/// More calls than any part has.
const MANY: u64 = 1000;

/// The script with nothing failing.
#[derive(Drop)]
pub struct Usual {
    /// The names of all files of blobs that it makes. It removes none.
    pub names: Vec<Name>,
    /// How many calls the disk had.
    pub calls: u64,
    entries: u64,
    is_right: bool,
}

impl fmt::Display for Usual {
    fn fmt<W: fmt::Write>(&self, f: &mut fmt::Formatter<W>) -> fmt::Result {
        let files = self.names.len();
        let (entries, calls) = (self.entries, self.calls);
        let wrong = if self.is_right { 0 } else { 1 };
        write!(
            f,
            "entries {entries} files {files} calls of the disk {calls} wrong {wrong}"
        )
    }
}

/// Runs the script with nothing failing.
pub fn usual_trial(alloc: Global) -> Result<Usual, Stop> {
    let mut ran = run(alloc, Failing::Nothing)?;
    let calls = ran.disk.clock();
    Ok(Usual {
        names: blob_names(alloc, &mut ran.disk)?,
        calls,
        entries: ran.entries,
        is_right: ran.judged.is_right && ran.judged.faults == 0,
    })
}

/// What all trials need: the names of the files that the script makes, and how many calls the disk has.
#[derive(Clone, Copy)]
pub struct Trials<'a> {
    alloc: Global,
    names: &'a [Name],
    calls: u64,
}

impl<'a> Trials<'a> {
    /// Over those files and so many calls of the disk.
    pub fn new(alloc: Global, names: &'a [Name], calls: u64) -> Trials<'a> {
        Trials {
            alloc,
            names,
            calls,
        }
    }

    /// Makes each image that a crash may leave behind such a run. A crash takes the disk, so the script is run for each.
    fn see_images(&self, failing: Failing, first: &Ran, tally: &mut Tally) -> Result<(), Stop> {
        let count = image_count(&first.disk, self.names)?;
        for pick in 0..count {
            let ran = run(self.alloc, failing)?;
            let mut image = ran.disk.crash(pick)?;
            tally.see_image(&ran.judged, contents_in(self.alloc, &mut image)?);
        }
        Ok(())
    }

    /// Counts such a run, and the images behind it.
    fn see(&self, failing: Failing, tally: &mut Tally) -> Result<(), Stop> {
        let ran = run(self.alloc, failing)?;
        tally.see_run(&ran.judged);
        self.see_images(failing, &ran, tally)
    }

    /// The same, unless it was as usual: then the part has no such call.
    fn see_if_called(&self, failing: Failing, tally: &mut Tally) -> Result<bool, Stop> {
        let ran = run(self.alloc, failing)?;
        if ran.judged.is_right && ran.judged.faults == 0 {
            return Ok(false);
        }
        tally.see_run(&ran.judged);
        self.see_images(failing, &ran, tally)?;
        Ok(true)
    }

    /// Each call of the disk fails in turn.
    pub fn each_disk_call(&self) -> Result<Tally, Stop> {
        let mut tally = Tally::NONE;
        for call in 0..self.calls {
            self.see(Failing::Disk { call }, &mut tally)?;
        }
        Ok(tally)
    }

    /// The disk stops before each of its calls, and behind the last.
    pub fn each_stop(&self) -> Result<Tally, Stop> {
        let mut tally = Tally::NONE;
        for call in 0..=self.calls {
            self.see(Failing::From { call }, &mut tally)?;
        }
        Ok(tally)
    }

    /// Each call of the keeper fails in turn.
    pub fn each_keeper_call(&self) -> Result<Tally, Stop> {
        let mut tally = Tally::NONE;
        for call in 0..MANY {
            if !self.see_if_called(Failing::Keeper { call }, &mut tally)? {
                break;
            }
        }
        Ok(tally)
    }

    /// Each call of that writer. False where there is no such writer.
    fn see_writer(&self, writer: u64, tally: &mut Tally) -> Result<bool, Stop> {
        for call in 0..MANY {
            if !self.see_if_called(Failing::Writer { writer, call }, tally)? {
                return Ok(call > 0);
            }
        }
        Ok(true)
    }

    /// Each call of each writer fails in turn.
    pub fn each_writer_call(&self) -> Result<Tally, Stop> {
        let mut tally = Tally::NONE;
        for writer in 0..MANY {
            if !self.see_writer(writer, &mut tally)? {
                break;
            }
        }
        Ok(tally)
    }

    /// Each call of that reader. False where there is no such reader.
    fn see_reader(&self, reader: u64, tally: &mut Tally) -> Result<bool, Stop> {
        for call in 0..MANY {
            if !self.see_if_called(Failing::Reader { reader, call }, tally)? {
                return Ok(call > 0);
            }
        }
        Ok(true)
    }

    /// Each call of each reader fails in turn.
    pub fn each_reader_call(&self) -> Result<Tally, Stop> {
        let mut tally = Tally::NONE;
        for reader in 0..MANY {
            if !self.see_reader(reader, &mut tally)? {
                break;
            }
        }
        Ok(tally)
    }
}
