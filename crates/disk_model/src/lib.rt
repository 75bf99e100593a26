//! A disk as the repository sees it: a tree of named files, what a crash may leave of them, and the calls that change
//! both.
#![tactic(auto)]

mod disk;
mod disk_err;
mod memory;
mod reader;
mod replace;
#[cfg(test)]
mod silent;
#[cfg(test)]
mod tests;
mod writer;

pub use disk::{Disk, SMALL_LIMIT};
pub use disk_err::DiskErr;
pub use memory::{MemDisk, MemReader, MemSealed, MemWriter};
pub use reader::Reader;
pub use replace::{put_sealed, remove_settled, replace_small, write_whole};
pub use writer::Writer;
