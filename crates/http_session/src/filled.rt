/// What a read from a source brought.
#[derive(Clone, Copy, Debug, PartialEq, Eq)]
pub enum Filled {
    /// Bytes.
    Bytes,
    /// The end of the input.
    Ended,
    /// More bytes than a session takes.
    Longer,
}
