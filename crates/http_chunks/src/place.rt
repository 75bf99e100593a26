/// Where a body stands, behind the bytes that were taken.
#[derive(Clone, Copy, Debug, PartialEq, Eq, Hash)]
pub(crate) enum Place {
    /// Before a size line.
    Line,
    /// In a chunk's content, of which so many bytes are still to come.
    Inside { left: u64 },
    /// Behind a chunk's content, before its line end.
    After,
    /// Behind the last size line, and so many bytes of lines.
    Trailer { taken: u64 },
    /// Behind the body.
    Done,
}
