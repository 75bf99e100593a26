//! The step as a program over ordered maps: one module a part of the repository.

#[cfg(test)]
mod asks;
mod begins;
mod blob_map;
mod cleans;
mod config;
mod counts;
mod deletes;
mod freshness;
mod gets;
mod key_map;
mod notes;
mod policies;
mod puts;
mod reconciles;
mod removes;
#[cfg(test)]
mod rows;
mod serves;
mod spots;
mod state;
mod steps;
mod stores;
mod writing;

pub use blob_map::BlobMap;
pub use config::{PlainConfig, PlainGroup, PlainRepo, find_repo};
pub use counts::Counts;
pub use key_map::KeyMap;
pub use policies::{NoPattern, PathPattern, PlainPolicy};
pub use spots::Spots;
pub use state::PlainState;
pub use steps::{step, step_with};
pub use stores::{choose, may_take};
pub use writing::{is_barred, time};
