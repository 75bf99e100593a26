/// How the content behind a head is framed: not there, so many bytes, or in chunks.
#[derive(Clone, Copy, Debug, PartialEq, Eq, Hash)]
pub enum Framing {
    None,
    Length(u64),
    Chunked,
}
