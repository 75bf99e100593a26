/// What the next bytes of a chunked body are.
#[derive(Clone, Copy, Debug, PartialEq, Eq, Hash)]
pub enum ChunkStep {
    /// So many of them, at least one, are framing.
    Framing { length: usize },
    /// So many of them, at least one, are content.
    Content { length: usize },
    /// They are none, or the beginning of a size line, of the line end behind content, or of a line behind the last size
    /// line: more are needed.
    Need,
    /// None: the body ended before them.
    End,
    /// No chunked body has these bytes there. The place counts from the first byte of the body: the first byte of a size
    /// line that is none or too long, the byte behind content that has no line end, or the byte behind the last size line
    /// where the lines after it are too long or one has a bare line feed.
    BadChunk { at: u64 },
    /// A size line that brings the content above its limit.
    BodyTooLarge,
}
