ghost use Rattle.std.specs.Prelude.{◌≡◌, None};
ghost use Rattle.std.specs.FinMap as map;
ghost use Rattle.std.specs.FinSet as set;

use crate::deletion::Deletion;
use crate::plain::blob_map::BlobMap;
use crate::plain::counts::Counts;
use crate::plain::key_map::KeyMap;
use crate::plain::spots::Spots;
use crate::reply::Cause;
use nx_base::{Asset, Key};
use std::alloc::Global;

/// The state of the repository.
#[derive(Drop)]
pub struct PlainState {
    pub rows: KeyMap<Asset>,
    pub trash: BlobMap<Deletion>,
    pub loose: BlobMap<Key>,
    pub taken: Spots,
    pub notes: KeyMap<u64>,
    pub last: u64,
    pub counts: Counts,
    pub broken: Option<Cause>,
}

impl PlainState {
    ghost use Rattle.repo_model.specs.Plain.{state_of};
    ghost use Rattle.repo_model.specs.State.{empty_state};

    /// An empty repository.
    pub fn new(alloc: Global) -> PlainState
        ensures { state_of result ≡ empty_state }
    {
        PlainState {
            rows: KeyMap::new(alloc),
            trash: BlobMap::new(alloc),
            loose: BlobMap::new(alloc),
            taken: Spots::new(alloc),
            notes: KeyMap::new(alloc),
            last: 0,
            counts: Counts::new(alloc),
            broken: None,
        }
    }
}
