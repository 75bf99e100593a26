use nx_base::{Asset, Key};

/// What a look at a key gave: its content, what is known of it, or that its remote has to be asked.
#[derive(Drop)]
pub enum GotOf<L> {
    Hit { asset: Asset, download: L },
    Seen { asset: Asset },
    NeedFetch { key: Key },
}

/// Why a part of an upload wasn't taken. `Dead`: an earlier part failed on the disk.
#[derive(Clone, Copy, Debug, PartialEq, Eq)]
pub enum UploadErr {
    BodyTooLarge,
    DiskFault,
    Dead,
    NoMemory,
}

/// Why a part of a download wasn't given. `Short`: the file ended after `at` bytes.
#[derive(Clone, Copy, Debug, PartialEq, Eq)]
pub enum DownloadErr {
    DiskFault,
    Short { at: u64 },
}
