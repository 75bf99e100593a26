ghost use Rattle.std.specs.Prelude.{◌≡◌, ◌≤◌, ◌-◌, ◌+◌, ◌⊎◌, take, drop, length};

use nx_base::NoMemory;
use nx_io::{Failed, Source};
use std::alloc::Global;
use std::marker::Model;

/// How many bytes a session keeps.
const SIZE: usize = 32_768;

/// How much room a read has at least, where so much can be made.
const READ_SIZE: usize = 16_384;

/// The bytes that were fed and not taken yet, of which contracts see the list.
#[derive(Drop)]
pub struct Buffer {
    bytes: Vec<u8>,
    start: usize,
    end: usize,
}

impl Model for Buffer {
    ghost use Rattle.std.specs.Prelude.{List, ℕ, ◌-◌, ◌≤◌, ◌≡◌, take, drop, length};

    ghost Value = { List ℕ };

    ghost view = { λ b. take (b.end - b.start) (drop b.start b.bytes.items) };

    ghost invariant = { λ b. (b.start ≤ b.end) × (b.end ≤ 32768) × (length b.bytes.items ≡ 32768) };
}

impl Buffer {
    ghost use Rattle.std.specs.Prelude.{◌≡◌, [], ◌<◌, ◌≤◌, ◌-◌, ◌++◌, min, take, drop, length, IfOk};
    ghost use Rattle.nx_io.specs.Causes.{HasCause};
    ghost use Rattle.http_session.specs.Fills.{ReadsBehind};

    /// An empty buffer.
    pub fn new(alloc: Global) -> Result<Buffer, NoMemory>
        ensures { IfOk result (λ b. b ≡ []) }
    {
        let mut bytes = Vec::new(alloc);
        match bytes.resize(SIZE, 0) {
            Ok(()) => Ok(Buffer {
                bytes,
                start: 0,
                end: 0,
            }),
            Err(_) => Err(NoMemory),
        }
    }

    /// The bytes.
    pub fn held(&self) -> &[u8]
        ensures held { result.now ≡ self.now }
        ensures short { length result.now ≤ 32768 }
    {
        &self.bytes[self.start..self.end]
    }

    /// Takes bytes from the front.
    pub fn take(&mut self, count: usize)
        requires { count ≤ length self.old }
        ensures { self.new ≡ drop count self.old }
    {
        self.start += count;
    }

    /// Puts as many bytes behind as fit, and answers how many. What is kept is moved only where the room behind it runs out.
    pub fn feed(&mut self, bytes: &[u8]) -> usize
        ensures count { result ≡ min (length bytes.now) (32768 - length self.old) }
        ensures added { self.new ≡ self.old ++ take result bytes.now }
    {
        let kept = self.end - self.start;
        let start = make_room(&mut self.bytes, self.start, self.end, bytes.len());
        let end = start + kept;
        let count = (SIZE - end).min(bytes.len());
        self.bytes[end..end + count].copy_from_slice(&bytes[..count]);
        self.start = start;
        self.end = end + count;
        count
    }

    /// Reads the next bytes of a source behind, so many at most, and answers how many. None are the end. What is kept is moved only
    /// where little room is left behind it.
    pub fn read_from<S: Source>(&mut self, input: &mut S, most: usize) -> Result<usize, Failed>
        requires room { length self.old < 32768 }
        requires some { 0 < most }
        ensures reads { ReadsBehind (S.left input.old) (S.left input.new) (S.ended input.new) most self.old self.new result }
        ensures cause { HasCause (S.faults input.old) (S.faults input.new) result }
    {
        let kept = self.end - self.start;
        let start = make_room(&mut self.bytes, self.start, self.end, READ_SIZE);
        let end = start + kept;
        let room = (SIZE - end).min(most);
        self.start = start;
        self.end = end;
        let Ok(count) = input.read(&mut self.bytes[end..end + room]) else {
            return Err(Failed);
        };
        self.end += count;
        Ok(count)
    }
}

/// Moves what is kept to the front, where so many bytes don't fit behind it. Answers where it then begins.
fn make_room(bytes: &mut Vec<u8>, start: usize, end: usize, wanted: usize) -> usize
    requires order { start ≤ end }
    requires within { end ≤ 32768 }
    requires size { length bytes.old.items ≡ 32768 }
    ensures size { length bytes.new.items ≡ 32768 }
    ensures kept { take (end - start) (drop result bytes.new.items) ≡ take (end - start) (drop start bytes.old.items) }
    ensures within { result ≤ start }
    ensures room { (wanted ≤ 32768 - (result + (end - start))) ⊎ (result ≡ 0) }
{
    if wanted <= SIZE - end {
        return start;
    }
    bytes.copy_within(start..end, 0);
    0
}
