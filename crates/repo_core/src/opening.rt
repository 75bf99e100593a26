use repo_config::Config;

/// With what a folder is opened.
#[derive(Drop)]
pub struct Opening {
    pub config: Config,
    /// How many callers there are.
    pub passes: u32,
    /// Whether a recovery may give back what was deleted, and the bytes that name the table's next generation. No folder is
    /// recovered yet, so neither is read.
    pub undelete: bool,
    pub random: [u8; 10],
}

/// Why a folder isn't opened.
#[derive(Clone, Copy, Debug, PartialEq, Eq)]
pub enum OpenErr {
    DiskFault,
    KeeperFault,
    NoMemory,
}

/// The devices of a folder that isn't opened.
#[derive(Drop)]
pub struct NotOpen<D, T> {
    pub why: OpenErr,
    pub disk: D,
    pub table: T,
}
