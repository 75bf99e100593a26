use crate::denial::Denial;
use repo_model::Fault;

/// What ended the work of a call before it was done.
#[derive(Clone, Copy, Debug, PartialEq, Eq)]
pub enum Stop {
    /// Nothing was changed.
    Denied(Denial),
    /// A fault, or want of memory, from the first step on that can be seen.
    Broke(Fault),
}
