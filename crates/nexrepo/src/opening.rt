//! The opening of a folder: its configuration is read, and a core is made of it.
ghost use Rattle.std.specs.Prelude.{◌≡◌, ◌≤◌, ℕ, List, Option, take, IfOk, IfErr};
ghost use Rattle.std.specs.Option.{option_map};
ghost use Rattle.disk_model.specs.Disk.{small_limit};
ghost use Rattle.repo_config.specs.declared.config_err.ConfigErr.{ConfigErr};
ghost use Rattle.repo_core.specs.declared.opening.OpenErr.TheVariants as open_err;
ghost use Rattle.repo_core.specs.Devices.{devices};
ghost use Rattle.nexrepo.specs.declared.status.Status.TheVariants as status;
ghost use Rattle.nexrepo.specs.Configs.{FileGives};
ghost use Rattle.nexrepo.specs.Opening.{refusal_status, not_open_status, IsOpenRefusal, IsOpened, IsUnopened};
ghost use Rattle.nexrepo.specs.Statuses.{config_file};

use crate::status::{CONFIG_FILE, Status};
use asset_keeper::Keeper;
use disk_model::{Disk, DiskErr};
use nx_base::Name;
use repo_config::{Config, ConfigErr};
use repo_core::{Core, NotOpen, OpenErr, Opening, open_folder};
use std::alloc::Global;

/// The status of a configuration that is refused.
fn refused(why: ConfigErr) -> Status
    ensures { result ≡ refusal_status why }
{
    match why {
        ConfigErr::NoMemory => Status::NoMemory,
        ConfigErr::Props(_) => Status::BadConfig { key: None },
        ConfigErr::UnknownKey { key }
        | ConfigErr::BadValue { key }
        | ConfigErr::DuplicateName { key }
        | ConfigErr::NoStore { key }
        | ConfigErr::NestedGroup { key }
        | ConfigErr::StoreInTwoGroups { key } => Status::BadConfig { key: Some(key) },
    }
}

/// The status of a folder that isn't opened though its configuration was read.
fn not_open(why: OpenErr) -> Status
    ensures { result ≡ not_open_status why }
{
    match why {
        OpenErr::DiskFault => Status::DiskFault,
        OpenErr::KeeperFault => Status::KeeperFault,
        OpenErr::NoMemory => Status::NoMemory,
    }
}

/// The first bytes of the configuration's file, or None where there is none.
fn read_text<D: Disk>(alloc: Global, disk: &mut D) -> Result<Option<Vec<u8>>, Status>
    ensures text { D.told → IfOk result (λ text. option_map (λ v. v.items) text ≡ option_map (λ bytes. take small_limit bytes) (D.tree disk.old config_file)) }
    ensures why { IfErr result (IsOpenRefusal D.told (D.tree disk.old config_file) (D.faults disk.old) (D.faults disk.new)) }
    ensures files { D.told → D.tree disk.new ≡ D.tree disk.old }
    ensures crash { D.told → D.lists disk.new (D.clock disk.new) ≡ D.lists disk.old (D.clock disk.old) }
    ensures later { D.faults disk.old ≤ D.faults disk.new }
{
    let Ok(name) = Name::parse(alloc, CONFIG_FILE) else {
        return Err(Status::NoMemory);
    };
    match disk.read_small(&name) {
        Ok(text) => Ok(text),
        Err(DiskErr::Failed) => Err(Status::DiskFault),
        Err(DiskErr::NoMemory) => Err(Status::NoMemory),
    }
}

/// The configuration of a folder.
fn read_config<D: Disk>(alloc: Global, disk: &mut D) -> Result<Config, Status>
    ensures given { D.told → IfOk result (FileGives (D.tree disk.old config_file)) }
    ensures why { IfErr result (IsOpenRefusal D.told (D.tree disk.old config_file) (D.faults disk.old) (D.faults disk.new)) }
    ensures files { D.told → D.tree disk.new ≡ D.tree disk.old }
    ensures crash { D.told → D.lists disk.new (D.clock disk.new) ≡ D.lists disk.old (D.clock disk.old) }
    ensures later { D.faults disk.old ≤ D.faults disk.new }
{
    let Some(text) = read_text(alloc, disk)? else {
        return Err(Status::BadConfig { key: None });
    };
    match Config::read(alloc, &text) {
        Ok(config) => Ok(config),
        Err(why) => Err(refused(why)),
    }
}

/// Why a folder isn't opened, and its devices.
#[derive(Drop)]
pub struct Unopened<D, T> {
    pub why: Status,
    pub disk: D,
    pub table: T,
}

/// Opens a folder: its configuration is read, and nothing is written.
pub fn open<D: Disk, T: Keeper>(
    alloc: Global,
    disk: D,
    table: T,
    random: [u8; 10],
) -> Result<Core<D, T>, Unopened<D, T>>
    ensures opened { IfOk result (IsOpened (devices D.Disk T.Keeper) disk table) }
    ensures unopened { IfErr result (IsUnopened (devices D.Disk T.Keeper) disk table) }
{
    let mut disk = disk;
    let config = match read_config(alloc, &mut disk) {
        Ok(config) => config,
        Err(why) => return Err(Unopened { why, disk, table }),
    };
    let opening = Opening {
        config,
        passes: 1,
        undelete: false,
        random,
    };
    match open_folder(alloc, disk, table, opening) {
        Ok(core) => Ok(core),
        Err(NotOpen { why, disk, table }) => Err(Unopened {
            why: not_open(why),
            disk,
            table,
        }),
    }
}
