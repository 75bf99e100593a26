use asset_keeper::KeepErr;
use nx_base::{NameErr, NoMemory};
use repo_model::UploadErr;
use std::alloc::{AllocError, AllocFailed};
use std::io;

/// Why nothing was measured.
#[derive(Debug, Drop)]
pub enum Stop {
    /// The words name no bench, or lack a number.
    Words,
    /// The configuration isn't one.
    Config,
    /// The folder wasn't opened.
    NotOpen,
    Name(NameErr),
    /// A PUT or a GET was refused.
    Refused,
    Keep(KeepErr),
    Upload(UploadErr),
    Io(io::Error),
    Memory,
}

impl From<NameErr> for Stop {
    fn from(e: NameErr) -> Stop {
        Stop::Name(e)
    }
}

impl From<KeepErr> for Stop {
    fn from(e: KeepErr) -> Stop {
        Stop::Keep(e)
    }
}

impl From<UploadErr> for Stop {
    fn from(e: UploadErr) -> Stop {
        Stop::Upload(e)
    }
}

impl From<io::Error> for Stop {
    fn from(e: io::Error) -> Stop {
        Stop::Io(e)
    }
}

impl From<NoMemory> for Stop {
    fn from(_: NoMemory) -> Stop {
        Stop::Memory
    }
}

impl From<AllocError> for Stop {
    fn from(_: AllocError) -> Stop {
        Stop::Memory
    }
}

impl<T: Drop> From<AllocFailed<T>> for Stop {
    fn from(_: AllocFailed<T>) -> Stop {
        Stop::Memory
    }
}
