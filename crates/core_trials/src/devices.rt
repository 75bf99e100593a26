//! Fresh devices, of which some call fails.
ghost use Rattle.std.specs.Prelude.{◌≡◌, slice_get, Some, None, IfOk};

use crate::caller::Caller;
use crate::stop::Stop;
use asset_keeper::{Generation, MapKeeper};
use disk_model::MemDisk;
use nx_base::Name;
use repo_config::Config;
use repo_core::{Core, Opening, open_folder};
use repo_model::Fault;
use std::alloc::Global;

/// One hosted repository `files` in one file store `default`.
const CONFIG: &[u8] = b"stores=default\nrepositories=files\nrepo.files.store=default\n";

const CONFIG_FILE: &str = "config.properties";

/// Which calls fail. Calls count from 0, and so do the writers and readers that the disk gives.
#[derive(Clone, Copy, PartialEq, Eq)]
pub enum Failing {
    Nothing,
    Disk { call: u64 },
    Keeper { call: u64 },
    Writer { writer: u64, call: u64 },
    Reader { reader: u64, call: u64 },
    /// Each call of the disk from that one on.
    From { call: u64 },
}

impl Failing {
    /// What is told of it.
    pub fn fault(self) -> Fault {
        match self {
            Failing::Keeper { .. } => Fault::Keeper,
            _ => Fault::Disk,
        }
    }

    /// The most faults that may be told before the core is broken.
    pub fn most_faults(self) -> u64 {
        match self {
            Failing::Nothing => 0,
            Failing::From { .. } => u64::MAX,
            _ => 1,
        }
    }

    fn disk_call(self) -> Option<u64> {
        match self {
            Failing::Disk { call } => Some(call),
            _ => None,
        }
    }

    fn last_call(self) -> Option<u64> {
        match self {
            Failing::From { call } => Some(call),
            _ => None,
        }
    }

    fn keeper_call(self) -> Option<u64> {
        match self {
            Failing::Keeper { call } => Some(call),
            _ => None,
        }
    }

    fn writer_call(self) -> Option<(u64, u64)> {
        match self {
            Failing::Writer { writer, call } => Some((writer, call)),
            _ => None,
        }
    }

    fn reader_call(self) -> Option<(u64, u64)> {
        match self {
            Failing::Reader { reader, call } => Some((reader, call)),
            _ => None,
        }
    }
}

/// A list of what there is.
fn list_of<T: Drop>(alloc: Global, item: Option<T>) -> Result<Vec<T>, Stop> {
    let mut list = Vec::new(alloc);
    if let Some(item) = item {
        list.push(item)?;
    }
    Ok(list)
}

/// A disk with the text of the configuration alone.
fn disk(alloc: Global, failing: Failing) -> Result<MemDisk, Stop> {
    let config = (
        Name::parse(alloc, CONFIG_FILE)?,
        Vec::from_slice(alloc, CONFIG)?,
    );
    let files = list_of(alloc, Some(config))?;
    let calls = list_of(alloc, failing.disk_call())?;
    let mut disk = MemDisk::new(alloc, files, calls, failing.last_call())?;
    let writes = list_of(alloc, failing.writer_call())?;
    let reads = list_of(alloc, failing.reader_call())?;
    disk.fail_parts(writes, reads);
    Ok(disk)
}

/// A table without rows.
fn table(alloc: Global, failing: Failing) -> Result<MapKeeper, Stop> {
    let generation = Generation {
        number: 0,
        random: [0; 10],
    };
    let calls = list_of(alloc, failing.keeper_call())?;
    Ok(MapKeeper::new(alloc, Vec::new(alloc), generation, calls)?)
}

fn fresh_core(alloc: Global, failing: Failing) -> Result<Core<MemDisk, MapKeeper>, Stop>
    ensures { IfOk result (λ core. slice_get core.holds 0 ≡ Some None) }
{
    let Ok(config) = Config::read(alloc, CONFIG) else {
        return Err(Stop::Config);
    };
    let opening = Opening {
        config,
        passes: 1,
        undelete: false,
        random: [0; 10],
    };
    match open_folder(
        alloc,
        disk(alloc, failing)?,
        table(alloc, failing)?,
        opening,
    ) {
        Ok(core) => Ok(core),
        Err(_) => Err(Stop::NotOpen),
    }
}

/// A caller of a fresh repository.
pub fn fresh_caller(alloc: Global, failing: Failing) -> Result<Caller, Stop> {
    Ok(Caller::new(fresh_core(alloc, failing)?))
}
