ghost use Rattle.std.specs.Prelude.{◌≡◌};

use nx_base::{BlobRef, Key};

/// How far a cleanup has come: the key of the last row that it saw.
#[derive(Drop)]
pub struct CleanCursor {
    pub after: Option<Key>,
}

impl CleanCursor {
    /// At the first row.
    pub fn new() -> CleanCursor
        ensures { result.after ≡ None }
    {
        CleanCursor { after: None }
    }
}

/// How far a compaction has come: the time of deletion and the blob that it saw last.
#[derive(Drop)]
pub struct CompactCursor {
    pub after: Option<(u64, BlobRef)>,
}

impl CompactCursor {
    /// At the first deleted blob.
    pub fn new() -> CompactCursor
        ensures { result.after ≡ None }
    {
        CompactCursor { after: None }
    }
}
