ghost use Rattle.std.specs.Prelude.{◌≡◌, ◌≢◌, ◌<◌, ◌↔◌, ◌⊎◌, ℕ, List, Option, length, slice_get, Some, None, []};
ghost use Rattle.nx_base.specs.declared.moment.Moment.{Moment};
ghost use Rattle.repo_config.specs.Model.{model_of};
ghost use Rattle.repo_config.specs.Settings.{Settings};
ghost use Rattle.repo_core.specs.Devices.{devices};
ghost use Rattle.repo_session.specs.Drawing.{HasDrawn};
ghost use Rattle.nexrepo.specs.declared.status.Status.TheVariants as status;
ghost use Rattle.nexrepo.specs.Commands.{texts_of};
ghost use Rattle.nexrepo.specs.Configs.{FileGives, IsBadFile};
ghost use Rattle.nexrepo.specs.Ends.{HasStatusCause, fault_status, status_of};
ghost use Rattle.nexrepo.specs.Exact.{NoneRose, IsHeldStatus, HeldExactly};
ghost use Rattle.nexrepo.specs.Running.{AreNone, IsFresh, EndsEarly, HoldsSession, StandsBehind};
ghost use Rattle.nexrepo.specs.Sessions.{HasServed};
ghost use Rattle.nexrepo.specs.Statuses.{config_file};

use crate::opening::{Unopened, open};
use crate::status::Status;
use crate::words::{Command, Usage, read_words};
use asset_keeper::Keeper;
use disk_model::Disk;
use http_front::End;
use nx_base::Moment;
use nx_io::{Sink, Source};
use repo_core::Core;
use repo_model::{Cause, Fault, Journal};
use repo_session::{Draws, serve};
use std::alloc::Global;

/// What a run leaves: how it ended, its devices, and the entries of its calls.
#[derive(Drop)]
pub struct Ran<D, T> {
    pub status: Status,
    pub disk: D,
    pub table: T,
    pub journal: Journal,
}

/// Does what the words behind the program's name ask: one session from the source to the sink, over the repository of a folder.
/// Its moments are drawn one for each request, and the last one repeats.
pub fn run<S: Source, K: Sink, D: Disk, T: Keeper>(
    alloc: Global,
    words: &[String],
    input: &mut S,
    output: &mut K,
    disk: D,
    table: T,
    moments: &[Moment],
) -> Ran<D, T>
    requires { 0 < length moments.now }
    // Usage exactly where the words are those of no command, and then both devices are handed back as they were.
    ensures usage { (result.status ≡ status.Usage) ↔ AreNone (texts_of words.now) }
    ensures untouched { result.status ≡ status.Usage → (result.disk ≡ disk) × (result.table ≡ table) }
    // BadConfig only where the file of the configuration isn't there or is refused, with the key of which the refusal speaks.
    ensures configuration { D.told → (key : Option (List ℕ)) → result.status ≡ status.BadConfig key → IsBadFile (D.tree disk config_file) key }
    // Either nothing was read or written, or a session was held with the settings that the file gives.
    ensures session { EndsEarly (devices D.Disk T.Keeper) disk table input.old input.new output.old output.new result
        ⊎ HoldsSession (devices D.Disk T.Keeper) moments.now disk table (S.left input.old) (S.left input.new) (S.ended input.new) (K.taken output.old) (K.taken output.new) result }
    // Over fresh devices, where none failed and the status isn't 2, 3, 6 or 15, bytes and entries are exactly what the one-thread repository
    // makes of the requests that were read, unless an answer was a want of memory.
    ensures exact { NoneRose (record { reads = S.faults input.old; writes = K.faults output.old; disk = D.faults disk; keeper = T.faults table })
        (record { reads = S.faults input.new; writes = K.faults output.new; disk = D.faults result.disk; keeper = T.faults result.table })
        → IsHeldStatus result.status → IsFresh (devices D.Disk T.Keeper) disk table result.table
        → HeldExactly (devices D.Disk T.Keeper) moments.now disk (S.left input.old) (S.left input.new) (S.ended input.new) (K.taken output.old) (K.taken output.new) result }
    // Over fresh devices the journal is a history of the one-thread repository from its beginning on, and the devices stand for what it leads to.
    ensures history { (settings : Settings) → FileGives (D.tree disk config_file) settings → IsFresh (devices D.Disk T.Keeper) disk table result.table
        → StandsBehind (devices D.Disk T.Keeper) (model_of settings) result.journal.entries result.disk result.table }
    // A fault of a device is told only where its count rose.
    ensures cause { HasStatusCause (record { reads = S.faults input.old; writes = K.faults output.old; disk = D.faults disk; keeper = T.faults table })
        (record { reads = S.faults input.new; writes = K.faults output.new; disk = D.faults result.disk; keeper = T.faults result.table }) result.status }
{
    match read_words(alloc, words) {
        Ok(Command::Stdio { folder: _ }) => stdio(alloc, input, output, disk, table, moments),
        Err(Usage::Words) => unopened(alloc, Status::Usage, disk, table),
        Err(Usage::NoMemory) => unopened(alloc, Status::NoMemory, disk, table),
    }
}

/// A run in which no folder was opened.
fn unopened<D: Disk, T: Keeper>(alloc: Global, status: Status, disk: D, table: T) -> Ran<D, T>
    ensures { result ≡ record { status = status; disk = disk; table = table; journal = record { entries = []; room = 0 } } }
{
    Ran {
        status,
        disk,
        table,
        journal: Journal::none(alloc),
    }
}

/// One session over the repository of a folder.
fn stdio<S: Source, K: Sink, D: Disk, T: Keeper>(
    alloc: Global,
    input: &mut S,
    output: &mut K,
    disk: D,
    table: T,
    moments: &[Moment],
) -> Ran<D, T>
    requires { 0 < length moments.now }
    ensures command { result.status ≢ status.Usage }
    ensures configuration { D.told → (key : Option (List ℕ)) → result.status ≡ status.BadConfig key → IsBadFile (D.tree disk config_file) key }
    ensures session { EndsEarly (devices D.Disk T.Keeper) disk table input.old input.new output.old output.new result
        ⊎ HoldsSession (devices D.Disk T.Keeper) moments.now disk table (S.left input.old) (S.left input.new) (S.ended input.new) (K.taken output.old) (K.taken output.new) result }
    ensures history { (settings : Settings) → FileGives (D.tree disk config_file) settings → IsFresh (devices D.Disk T.Keeper) disk table result.table
        → StandsBehind (devices D.Disk T.Keeper) (model_of settings) result.journal.entries result.disk result.table }
    ensures cause { HasStatusCause (record { reads = S.faults input.old; writes = K.faults output.old; disk = D.faults disk; keeper = T.faults table })
        (record { reads = S.faults input.new; writes = K.faults output.new; disk = D.faults result.disk; keeper = T.faults result.table }) result.status }
{
    let Ok(draws) = Draws::new(alloc, moments) else {
        return unopened(alloc, Status::NoMemory, disk, table);
    };
    match open(alloc, disk, table, moments[0].random) {
        Ok(core) => session(alloc, core, draws, input, output),
        Err(Unopened { why, disk, table }) => unopened(alloc, why, disk, table),
    }
}

/// One session over a core that was just opened.
fn session<S: Source, K: Sink, D: Disk, T: Keeper>(
    alloc: Global,
    core: Core<D, T>,
    draws: Draws,
    input: &mut S,
    output: &mut K,
) -> Ran<D, T>
    requires free { slice_get core.holds 0 ≡ Some None }
    requires sound { core.broken ≡ None }
    requires first { draws.next ≡ 0 }
    ensures session { HasServed (devices D.Disk T.Keeper) core draws.moments.items (S.left input.old) (S.left input.new) (S.ended input.new) (K.taken output.old) (K.taken output.new) result }
    ensures cause { HasStatusCause (record { reads = S.faults input.old; writes = K.faults output.old; disk = D.faults core.disk; keeper = T.faults core.table })
        (record { reads = S.faults input.new; writes = K.faults output.new; disk = D.faults result.disk; keeper = T.faults result.table }) result.status }
{
    let (end, core) = serve(alloc, core, draws, input, output);
    let status = status_of(end, core.broken());
    let closed = core.close();
    Ran {
        status,
        disk: closed.disk,
        table: closed.table,
        journal: closed.journal,
    }
}

/// The status of a session's end, over a core that was broken by this cause or by none.
fn status_of(end: End, broken: Option<Cause>) -> Status
    ensures { result ≡ status_of end broken }
{
    match end {
        End::Clean | End::Closed => match broken {
            None => Status::Ok,
            Some(cause) => status_of_fault(cause.fault),
        },
        End::Cut => Status::Cut,
        End::ReadFault => Status::ReadFault,
        End::WriteFault => Status::WriteFault,
        End::DownloadFault => Status::DownloadFault,
        End::InputTooLong => Status::InputTooLong,
        End::NoMemory => Status::NoMemory,
    }
}

/// The status of a core that is broken.
fn status_of_fault(fault: Fault) -> Status
    ensures { result ≡ fault_status fault }
{
    match fault {
        Fault::Disk => Status::DiskFault,
        Fault::Keeper => Status::KeeperFault,
        Fault::Memory => Status::NoMemory,
    }
}
