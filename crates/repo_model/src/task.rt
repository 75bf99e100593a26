use nx_base::{BlobRef, Key, PolicyName};

/// What one step of a cleanup did.
#[derive(Drop)]
pub enum Cleaned {
    /// The policy is the first of the key's repository that takes the row.
    Removed { key: Key, policy: PolicyName },
    /// No policy takes the row.
    Kept { key: Key },
    /// No row follows.
    End,
}

/// Why a deleted blob stays.
#[derive(Clone, Copy, Debug, PartialEq, Eq)]
pub enum Why {
    /// A row names it.
    Named,
    /// A reader holds it.
    Held,
    /// It was deleted too lately.
    Young,
}

/// What one step of a compaction did.
#[derive(Drop)]
pub enum Compacted {
    Removed { blob: BlobRef },
    Skipped { blob: BlobRef, why: Why },
    /// No deleted blob follows.
    End,
}
