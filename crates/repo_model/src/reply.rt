use nx_base::{Asset, BlobId, Policy, StoreName};

/// What failed.
#[derive(Clone, Copy, Debug, PartialEq, Eq)]
pub enum Fault {
    Disk,
    Keeper,
    Memory,
}

/// What broke the repository, and the number of the entry in which it did, from 0.
#[derive(Clone, Copy, Debug, PartialEq, Eq)]
pub struct Cause {
    pub fault: Fault,
    pub entry: u64,
}

/// Why a call isn't done.
#[derive(Clone, Copy, Debug, PartialEq, Eq)]
pub enum Refusal {
    /// The key has no content.
    NotFound,
    /// The repository isn't declared.
    UnknownRepo,
    /// The repository's policy, or its kind, doesn't allow the write.
    WriteDenied { policy: Policy },
    /// Each store that the repository writes to is read-only.
    NoWritable,
    /// A blob with the new one's id stands in the store.
    IdTaken { id: BlobId },
    /// The last timestamp has been given.
    StampsUsed,
    /// The remote failed, and nothing is stored.
    RemoteFault,
    /// The content isn't what its row says. `size` is the row's, `found` that of the file, or
    /// `None` where there is no file or its properties can't be read.
    Damaged { size: u64, found: Option<u64> },
    DiskFault,
    KeeperFault,
    /// An earlier call failed halfway.
    Broken { cause: Cause },
    /// The journal has no room. No entry holds this.
    JournalFull,
    NoMemory,
}

/// What a call is answered.
#[derive(Drop)]
pub enum Reply {
    Begun { store: StoreName },
    Stored { asset: Asset },
    Found { asset: Asset },
    Gone,
    Removed,
    /// `kept` is the number of rows.
    Reconciled { kept: u64 },
    Refused(Refusal),
}
