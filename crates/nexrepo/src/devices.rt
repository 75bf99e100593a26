//! The devices in memory on which the program runs so far.
ghost use Rattle.std.specs.Prelude.{◌≡◌, Some, IfOk};
ghost use Rattle.std.specs.FinMap as map;
ghost use Rattle.asset_keeper.specs.Shelf.{table_in};
ghost use Rattle.disk_model.specs.Memory.{tree_in};
ghost use Rattle.repo_core.specs.Fresh.{HasNoBlob};
ghost use Rattle.nexrepo.specs.Statuses.{config_file};

use crate::status::CONFIG_FILE;
use asset_keeper::{Generation, MapKeeper};
use disk_model::MemDisk;
use nx_base::{Name, NoMemory};
use std::alloc::Global;

/// The configuration of the program: one hosted repository `files` in one file store `default`.
pub const CONFIG: &str = "stores=default\nrepositories=files\nrepo.files.store=default\n";

/// A disk with nothing on it but the text of a configuration. It fails the calls with the listed numbers.
pub fn disk_with(alloc: Global, config: &str, failing: Vec<u64>) -> Result<MemDisk, NoMemory>
    ensures config { IfOk result (λ disk. tree_in disk config_file ≡ Some config.now) }
    ensures empty { IfOk result (λ disk. HasNoBlob (tree_in disk)) }
{
    let mut files = Vec::new(alloc);
    let Ok(name) = Name::parse(alloc, CONFIG_FILE) else {
        return Err(NoMemory);
    };
    let Ok(text) = Vec::from_slice(alloc, config.as_bytes()) else {
        return Err(NoMemory);
    };
    let Ok(()) = files.push((name, text)) else {
        return Err(NoMemory);
    };
    MemDisk::new(alloc, files, failing, None)
}

/// A table without rows. It fails the calls with the listed numbers.
pub fn empty_table(alloc: Global, failing: Vec<u64>) -> Result<MapKeeper, NoMemory>
    ensures { IfOk result (λ table. (table_in table).rows ≡ map.empty) }
{
    let generation = Generation {
        number: 0,
        random: [0; 10],
    };
    MapKeeper::new(alloc, Vec::new(alloc), generation, failing)
}
