/// Memory was refused.
#[derive(Clone, Copy, Debug, PartialEq, Eq)]
pub struct NoMemory;

/// Why a text is no name. The first of these that holds is told.
#[derive(Clone, Copy, Debug, PartialEq, Eq)]
pub enum NameErr {
    /// It has no byte.
    Empty,
    /// It has more bytes than its rule allows: so many.
    TooLong { length: usize },
    /// The byte at this place may not stand there. Where bytes aren't UTF-8, it is the first byte
    /// of the faulty sequence; where an id is too short, it is the end of the text.
    BadByte { at: usize },
    /// The segment that begins at this place is empty, `.` or `..`.
    BadSegment { at: usize },
    /// The text is good, but memory was refused.
    NoMemory,
}
