/// Why a call of a disk was refused.
#[derive(Clone, Copy, Debug, PartialEq, Eq)]
pub enum DiskErr {
    /// The device failed. The call may have taken effect or not.
    Failed,
    /// Memory was refused. The tree is as it was.
    NoMemory,
}
