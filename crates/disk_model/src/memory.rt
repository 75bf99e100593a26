//! The disk in memory: a log of the calls that changed it, and the present value of each name beside the log.

mod change;
pub mod count;
mod disk;
mod history;
mod reader;
mod shelf;
mod trail;
mod writer;

pub use disk::MemDisk;
pub use reader::MemReader;
pub use writer::{MemSealed, MemWriter};
