ghost use Rattle.std.specs.Prelude.{◌≡◌, ℕ, List, [], length, not};
ghost use Rattle.http_heads.specs.declared.framing.Framing.{Framing};
ghost use Rattle.http_front.specs.Asking.{is_empty};
ghost use Rattle.http_session.specs.declared.body.Body.TheVariants as bodies;
ghost use Rattle.http_session.specs.Bodies.{IsReading, Reads, IsWithin};

use http_chunks::{ChunkStep, Chunks};
use http_heads::{BodyErr, Framing};

/// A reader of one content, by its framing. It keeps no bytes.
#[derive(Clone, Copy, Debug, PartialEq, Eq)]
pub enum Body {
    /// So many bytes are still to come.
    Sized { left: u64 },
    Chunked { chunks: Chunks },
}

/// What the next bytes of a content are.
#[derive(Clone, Copy, Debug, PartialEq, Eq)]
pub enum BodyStep {
    /// So many bytes of framing.
    Framing { length: usize },
    /// So many bytes of content.
    Content { length: usize },
    /// More bytes are needed.
    Need,
    /// The content came whole.
    Whole,
    /// No content of that framing has these bytes.
    Bad(BodyErr),
}

impl Body {
    /// A reader that has taken nothing.
    pub fn new(framing: Framing) -> Body
        ensures { IsReading framing result [] [] }
    {
        match framing {
            Framing::None => Body::Sized { left: 0 },
            Framing::Length(size) => Body::Sized { left: size },
            Framing::Chunked => Body::Chunked {
                chunks: Chunks::new(),
            },
        }
    }

    /// Whether content may come, where none has: whether the content isn't known to be empty.
    pub fn expects(&self) -> bool
        ensures { (framing : Framing) (part : List ℕ) → IsReading framing self.now part [] → result ≡ not (is_empty framing) }
    {
        match *self {
            Body::Sized { left } => left != 0,
            Body::Chunked { chunks: _ } => true,
        }
    }

    // A content of a size: so many bytes of it are still to come.
    fn next_sized(&mut self, left: u64, bytes: &[u8]) -> BodyStep
        requires { self.old ≡ bodies.Sized left }
        ensures within { IsWithin (length bytes.now) result }
        ensures reads { (framing : Framing) (part came : List ℕ) → IsReading framing self.old part came → Reads framing part came bytes.now self.new result }
    {
        if left == 0 {
            return BodyStep::Whole;
        }
        if bytes.is_empty() {
            return BodyStep::Need;
        }
        let length = left.min(bytes.len() as u64);
        *self = Body::Sized {
            left: left - length,
        };
        BodyStep::Content {
            length: length as usize,
        }
    }

    // A content in chunks.
    fn next_chunked(&mut self, mut chunks: Chunks, bytes: &[u8]) -> BodyStep
        requires { self.old ≡ bodies.Chunked chunks }
        ensures within { IsWithin (length bytes.now) result }
        ensures reads { (framing : Framing) (part came : List ℕ) → IsReading framing self.old part came → Reads framing part came bytes.now self.new result }
    {
        let step = chunks.next(bytes);
        *self = Body::Chunked { chunks };
        match step {
            ChunkStep::Framing { length } => BodyStep::Framing { length },
            ChunkStep::Content { length } => BodyStep::Content { length },
            ChunkStep::Need => BodyStep::Need,
            ChunkStep::End => BodyStep::Whole,
            ChunkStep::BadChunk { at } => BodyStep::Bad(BodyErr::BadChunk { at }),
            ChunkStep::BodyTooLarge => BodyStep::Bad(BodyErr::BodyTooLarge),
        }
    }

    /// Says what the next bytes are, and takes them where they are framing or content.
    pub fn next(&mut self, bytes: &[u8]) -> BodyStep
        ensures within { IsWithin (length bytes.now) result }
        // Whatever was taken before, in whatever pieces.
        ensures reads { (framing : Framing) (part came : List ℕ) → IsReading framing self.old part came → Reads framing part came bytes.now self.new result }
    {
        match *self {
            Body::Sized { left } => self.next_sized(left, bytes),
            Body::Chunked { chunks } => self.next_chunked(chunks, bytes),
        }
    }
}
