//! Contents in chunks.
use http_chunks::{ChunkStep, Chunks};
use std::alloc::{AllocError, Global};

/// How a text is read that comes in pieces of so many bytes: its content, the last step, and how many bytes were taken.
pub(crate) fn read(alloc: Global, text: &[u8], piece: usize) -> Result<String, AllocError> {
    let mut chunks = Chunks::new();
    let mut content = String::new(alloc);
    let mut taken = 0;
    let mut there = 0;
    for _ in 0..u64::MAX {
        match chunks.next(&text[taken..there]) {
            ChunkStep::Framing { length } => taken += length,
            ChunkStep::Content { length } => {
                for byte in &text[taken..taken + length] {
                    content.push(char::from(*byte))?;
                }
                taken += length;
            }
            ChunkStep::Need if there < text.len() => there += piece.min(text.len() - there),
            last => return format!(in alloc; "{content} {last:?} {taken}"),
        }
    }
    Ok(content)
}

/// How it is read, in pieces of one byte and of a few.
pub(crate) fn in_pieces(alloc: Global, text: &[u8]) -> Result<String, AllocError> {
    let whole = read(alloc, text, 100)?;
    for piece in [1, 2, 3, 7] {
        let found = read(alloc, text, piece)?;
        if found.as_str() != whole.as_str() {
            return format!(in alloc; "{found} in pieces of {piece}");
        }
    }
    Ok(whole)
}

/// Reads 65,536 bytes of a content.
fn takes_part(chunks: &mut Chunks, part: &[u8; 65_536]) -> bool {
    chunks.next(part) == ChunkStep::Content { length: 65_536 }
}

/// A content of 1 GiB, and then one byte more: whether it is read whole, and the step at the byte more and at the end.
pub(crate) fn largest(alloc: Global) -> Result<String, AllocError> {
    let mut chunks = Chunks::new();
    let first = chunks.next(b"40000000\r\n");
    let part = [b'x'; 65_536];
    let mut whole = true;
    for _ in 0..16_384 {
        whole = takes_part(&mut chunks, &part) && whole;
    }
    let end = chunks.next(b"\r\n");
    let more = chunks.next(b"1\r\n");
    let last = chunks.next(b"0\r\n");
    format!(in alloc; "{first:?} {whole} {end:?} {more:?} {last:?}")
}
