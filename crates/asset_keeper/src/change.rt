use crate::generation::Generation;
use nx_base::{Key, Row};

/// One commit to the table.
#[derive(Debug, Drop)]
pub enum Change {
    /// The key of the row gets its asset.
    Set(Row),
    /// The key has no asset any more.
    Remove(Key),
    Generation(Generation),
}
