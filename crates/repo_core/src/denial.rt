ghost use Rattle.std.specs.Prelude.{◌≡◌};
ghost use Rattle.repo_core.specs.Faults.{of_disk, of_keeper, refusal_of_fault, refusal_for};

use asset_keeper::KeepErr;
use disk_model::DiskErr;
use nx_base::{BlobId, Policy};
use repo_model::{Fault, Refusal};

/// Why the work of a call wasn't begun: nothing was changed.
#[derive(Clone, Copy, Debug, PartialEq, Eq)]
pub enum Denial {
    NotFound,
    UnknownRepo,
    WriteDenied { policy: Policy },
    NoWritable,
    IdTaken { id: BlobId },
    StampsUsed,
    Damaged { size: u64, found: Option<u64> },
    /// A device failed, or memory was refused, before anything could be seen.
    Failed(Fault),
}

/// What a refusal of the disk is.
pub(crate) fn disk_fault(refusal: DiskErr) -> Fault
    ensures { result ≡ of_disk refusal }
{
    match refusal {
        DiskErr::Failed => Fault::Disk,
        DiskErr::NoMemory => Fault::Memory,
    }
}

/// What a refusal of the keeper is.
pub(crate) fn keeper_fault(refusal: KeepErr) -> Fault
    ensures { result ≡ of_keeper refusal }
{
    match refusal {
        KeepErr::Failed => Fault::Keeper,
        KeepErr::NoMemory => Fault::Memory,
    }
}

/// The refusal that says that this failed.
pub(crate) fn refusal_of_fault(fault: Fault) -> Refusal
    ensures { result ≡ refusal_of_fault fault }
{
    match fault {
        Fault::Disk => Refusal::DiskFault,
        Fault::Keeper => Refusal::KeeperFault,
        Fault::Memory => Refusal::NoMemory,
    }
}

/// The refusal that says it.
pub(crate) fn refusal_for(why: Denial) -> Refusal
    ensures { result ≡ refusal_for why }
{
    match why {
        Denial::NotFound => Refusal::NotFound,
        Denial::UnknownRepo => Refusal::UnknownRepo,
        Denial::WriteDenied { policy } => Refusal::WriteDenied { policy },
        Denial::NoWritable => Refusal::NoWritable,
        Denial::IdTaken { id } => Refusal::IdTaken { id },
        Denial::StampsUsed => Refusal::StampsUsed,
        Denial::Damaged { size, found } => Refusal::Damaged { size, found },
        Denial::Failed(fault) => refusal_of_fault(fault),
    }
}
