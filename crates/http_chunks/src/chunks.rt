ghost use Rattle.std.specs.Prelude.{◌+◌, ◌*◌, ◌<◌, ◌≤◌};
ghost use Rattle.http_chunks.specs.Room.{ahead_at, owed_at, spare_at, taken_at};

use crate::chunk_step::ChunkStep;
use crate::line_feed::first_feed;
use crate::place::Place;
use crate::size_line::{LineStep, size_line};

/// The most bytes of content (this project's own).
const CONTENT_LIMIT: u64 = 1_073_741_824;

/// The most bytes of lines behind the last size line (this project's own).
const TRAILER_LIMIT: u64 = 16_384;

/// A reader of one chunked body. It keeps no bytes: it knows where the body stands, and how many bytes it took.
#[derive(Clone, Copy, Debug, PartialEq, Eq)]
pub struct Chunks {
    place: Place,
    /// How many bytes were taken.
    at: u64,
    /// How much content was announced.
    total: u64,
    ghost some: { 0 < ahead_at place },
    ghost small: { total ≤ 1073741824 },
    ghost near: { at + owed_at place ≤ 1027 * total + spare_at place },
    ghost behind: { taken_at place ≤ at },
    ghost short: { taken_at place ≤ 16384 },
}

impl Chunks {
    ghost use Rattle.std.specs.Prelude.{◌≡◌, ℕ, List, [], length};
    ghost use Rattle.http_chunks.specs.Steps.{TookText, IsWithin, KeepsUnlessTaken, StepSays};

    /// A reader that has taken nothing.
    pub fn new() -> Chunks
        ensures { TookText result [] [] }
    {
        Chunks {
            place: Place::Line,
            at: 0,
            total: 0,
        }
    }

    // Before a size line.
    fn next_line(&mut self, bytes: &[u8]) -> ChunkStep
        requires { self.old.place ≡ Place.Line }
        ensures within { IsWithin (length bytes.now) result }
        ensures kept { KeepsUnlessTaken self.old self.new result }
        ensures says { (text content : List ℕ) → TookText self.old text content → StepSays text content bytes.now self.old.place self.new result }
    {
        match size_line(bytes) {
            LineStep::Need => ChunkStep::Need,
            LineStep::Bad => ChunkStep::BadChunk { at: self.at },
            LineStep::Line { length, size } => {
                if size > CONTENT_LIMIT - self.total {
                    return ChunkStep::BodyTooLarge;
                }
                if size == 0 {
                    self.place = Place::Trailer { taken: 0 };
                    self.at += length as u64;
                    return ChunkStep::Framing { length };
                }
                self.place = Place::Inside { left: size };
                self.total += size;
                self.at += length as u64;
                ChunkStep::Framing { length }
            }
        }
    }

    // In the content of a chunk.
    fn next_content(&mut self, bytes: &[u8], left: u64) -> ChunkStep
        requires { self.old.place ≡ Place.Inside left }
        ensures within { IsWithin (length bytes.now) result }
        ensures kept { KeepsUnlessTaken self.old self.new result }
        ensures says { (text content : List ℕ) → TookText self.old text content → StepSays text content bytes.now self.old.place self.new result }
    {
        if bytes.is_empty() {
            return ChunkStep::Need;
        }
        let length = left.min(bytes.len() as u64);
        let rest = left - length;
        self.place = if rest == 0 {
            Place::After
        } else {
            Place::Inside { left: rest }
        };
        self.at += length;
        ChunkStep::Content {
            length: length as usize,
        }
    }

    // Behind the content of a chunk.
    fn next_end(&mut self, bytes: &[u8]) -> ChunkStep
        requires { self.old.place ≡ Place.After }
        ensures within { IsWithin (length bytes.now) result }
        ensures kept { KeepsUnlessTaken self.old self.new result }
        ensures says { (text content : List ℕ) → TookText self.old text content → StepSays text content bytes.now self.old.place self.new result }
    {
        if bytes.is_empty() {
            return ChunkStep::Need;
        }
        if bytes[0] != b'\r' {
            return ChunkStep::BadChunk { at: self.at };
        }
        if bytes.len() == 1 {
            return ChunkStep::Need;
        }
        if bytes[1] != b'\n' {
            return ChunkStep::BadChunk { at: self.at };
        }
        self.place = Place::Line;
        self.at += 2;
        ChunkStep::Framing { length: 2 }
    }

    // Behind the last size line, and so many bytes of lines.
    fn next_trailer(&mut self, bytes: &[u8], taken: u64) -> ChunkStep
        requires { self.old.place ≡ Place.Trailer taken }
        ensures within { IsWithin (length bytes.now) result }
        ensures kept { KeepsUnlessTaken self.old self.new result }
        ensures says { (text content : List ℕ) → TookText self.old text content → StepSays text content bytes.now self.old.place self.new result }
    {
        let bad = ChunkStep::BadChunk {
            at: self.at - taken,
        };
        let room = TRAILER_LIMIT - taken;
        let Some(last) = first_feed(bytes) else {
            return if bytes.len() as u64 >= room {
                bad
            } else {
                ChunkStep::Need
            };
        };
        if last as u64 >= room || last == 0 || bytes[last - 1] != b'\r' {
            return bad;
        }
        let length = last + 1;
        self.place = if length == 2 {
            Place::Done
        } else {
            Place::Trailer {
                taken: taken + length as u64,
            }
        };
        self.at += length as u64;
        ChunkStep::Framing { length }
    }

    /// StepSays what the next bytes are, and takes them where they are framing or content. It never takes memory.
    pub fn next(&mut self, bytes: &[u8]) -> ChunkStep
        // At least one byte is taken, and no more than are there.
        ensures within { IsWithin (length bytes.now) result }
        // Where none is, nothing changes: the step comes again.
        ensures kept { KeepsUnlessTaken self.old self.new result }
        // Whatever was taken before, in whatever pieces.
        ensures says { (text content : List ℕ) → TookText self.old text content → StepSays text content bytes.now self.old.place self.new result }
    {
        match self.place {
            Place::Line => self.next_line(bytes),
            Place::Inside { left } => self.next_content(bytes, left),
            Place::After => self.next_end(bytes),
            Place::Trailer { taken } => self.next_trailer(bytes, taken),
            Place::Done => ChunkStep::End,
        }
    }
}
