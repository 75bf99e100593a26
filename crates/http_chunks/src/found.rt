ghost use Rattle.std.specs.Prelude.{IfSome, IfNone};
ghost use Rattle.http_chunks.specs.Found.{HasReading, Takes, EndsReading};

use crate::chunk_step::ChunkStep;
use crate::chunks::Chunks;

// How many bytes the reader takes, or none where its reading ends.
fn take_next(chunks: &mut Chunks, bytes: &[u8]) -> Option<usize>
    ensures some { IfSome result (Takes chunks.old chunks.new bytes.now) }
    ensures none { IfNone result (EndsReading chunks.old bytes.now) }
{
    match chunks.next(bytes) {
        ChunkStep::Framing { length } | ChunkStep::Content { length } => Some(length),
        _ => None,
    }
}

/// A law: each stream has a reading. A reader finds it, which steps through the whole stream.
pub fn some_reading(stream: &[u8])
    ensures { HasReading stream.now }
{
    let mut chunks = Chunks::new();
    let mut at = 0;
    while let Some(n) = take_next(&mut chunks, &stream[at..]) {
        at += n;
    }
}
