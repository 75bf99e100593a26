//! A fresh repository over devices in memory.
ghost use Rattle.std.specs.Prelude.{◌≡◌, slice_get, Some, None, IfOk};

use crate::caller::Caller;
use crate::stop::Stop;
use asset_keeper::{Generation, MapKeeper};
use disk_model::MemDisk;
use repo_config::Config;
use repo_core::{Core, Opening, open_folder};
use std::alloc::Global;

/// One hosted repository `files` in one file store `default`, with room for the calls of 100,000 PUTs and GETs.
const CONFIG: &[u8] =
    b"journal=300000\nstores=default\nrepositories=files\nrepo.files.store=default\n";

/// A core over an empty disk and an empty table.
fn fresh_core(alloc: Global) -> Result<Core<MemDisk, MapKeeper>, Stop>
    ensures { IfOk result (λ core. slice_get core.holds 0 ≡ Some None) }
{
    let Ok(config) = Config::read(alloc, CONFIG) else {
        return Err(Stop::Config);
    };
    let opening = Opening {
        config,
        passes: 1,
        undelete: false,
        random: [0; 10],
    };
    let generation = Generation {
        number: 0,
        random: [0; 10],
    };
    let disk = MemDisk::new(alloc, Vec::new(alloc), Vec::new(alloc), None)?;
    let table = MapKeeper::new(alloc, Vec::new(alloc), generation, Vec::new(alloc))?;
    match open_folder(alloc, disk, table, opening) {
        Ok(core) => Ok(core),
        Err(_) => Err(Stop::NotOpen),
    }
}

/// A caller of a fresh repository.
pub fn fresh_caller(alloc: Global) -> Result<Caller, Stop> {
    Ok(Caller::new(fresh_core(alloc)?))
}
