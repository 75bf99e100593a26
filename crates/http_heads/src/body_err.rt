/// Why the content behind a head is refused: a chunk that is none, with its place from the first byte of the body on, or
/// too many bytes.
#[derive(Clone, Copy, Debug, PartialEq, Eq, Hash)]
pub enum BodyErr {
    BadChunk { at: u64 },
    BodyTooLarge,
}
