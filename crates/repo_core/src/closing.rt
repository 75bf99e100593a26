ghost use Rattle.std.specs.Prelude.{◌≡◌, Ok};

use crate::repository::Core;
use asset_keeper::Keeper;
use disk_model::Disk;
use repo_model::Journal;

/// Why a folder isn't closed in good order.
#[derive(Clone, Copy, Debug, PartialEq, Eq)]
pub enum CloseErr {
    DiskFault,
    KeeperFault,
    NoMemory,
}

/// What a core leaves that has ended.
#[derive(Drop)]
pub struct Closed<D, T> {
    pub disk: D,
    pub table: T,
    pub journal: Journal,
    /// Whether all that the next opening needs was written.
    pub end: Result<(), CloseErr>,
}

impl<D: Disk, T: Keeper> Core<D, T> {
    /// Gives both devices back as they are, with the journal. Nothing has to be written yet, so it calls neither.
    pub fn close(self) -> Closed<D, T>
        ensures { result ≡ record { disk = self.disk; table = self.table; journal = self.journal; end = Ok tt } }
    {
        self.stop()
    }

    /// Gives both devices back as they are, with the journal, without a call of either.
    pub fn stop(self) -> Closed<D, T>
        ensures { result ≡ record { disk = self.disk; table = self.table; journal = self.journal; end = Ok tt } }
    {
        let Core {
            disk,
            table,
            journal,
            alloc: _,
            config: _config,
            own: _own,
            holds: _holds,
            broken: _,
        } = self;
        Closed {
            disk,
            table,
            journal,
            end: Ok(()),
        }
    }
}
