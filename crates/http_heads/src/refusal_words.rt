ghost use Rattle.std.specs.Prelude.{◌≡◌, ◌+◌, ◌≤◌, ◌++◌, length, take};
ghost use Rattle.std.specs.Fmt.{decimal};

use itoa::Buffer;
use std::marker::Model;

/// The words of a refusal: its name, and its values behind one space each. They take no memory.
#[derive(Drop)]
pub struct RefusalWords {
    text: [u8; 128],
    length: usize,
}

impl Model for RefusalWords {
    ghost use Rattle.std.specs.Prelude.{List, ℕ, ◌≤◌, take};

    ghost Value = { List ℕ };

    ghost view = { λ w. take w.length w.text };

    ghost invariant = { λ w. w.length ≤ 128 };
}

// Writes a part behind the first bytes, and returns the place behind it.
fn append(text: &mut [u8; 128], at: usize, part: &[u8]) -> usize
    requires { at + length part.now ≤ 128 }
    ensures end { result ≡ at + length part.now }
    ensures text { take result text.new ≡ take at text.old ++ part.now }
{
    text[at..at + part.len()].copy_from_slice(part);
    at + part.len()
}

impl RefusalWords {
    /// A name of at most 64 bytes alone.
    pub fn new(name: &str) -> RefusalWords
        requires { length name.now ≤ 64 }
        ensures { result ≡ name.now }
    {
        let mut text = [0; 128];
        let length = append(&mut text, 0, name.as_bytes());
        RefusalWords { text, length }
    }

    /// With a text behind it.
    pub fn and(mut self, part: &[u8]) -> RefusalWords
        requires { length self + length part.now ≤ 128 }
        ensures { result ≡ self ++ part.now }
    {
        self.length = append(&mut self.text, self.length, part);
        self
    }

    /// With a number behind it, in decimal digits.
    pub fn and_number(self, number: u64) -> RefusalWords
        requires { length self ≤ 88 }
        ensures words { result ≡ self ++ decimal number }
        ensures short { length result ≤ length self + 40 }
    {
        let mut digits = Buffer::new();
        self.and(digits.format(number).as_bytes())
    }

    pub fn as_bytes(&self) -> &[u8]
        ensures words { result.now ≡ self.now }
        ensures short { length result.now ≤ 128 }
    {
        &self.text[..self.length]
    }
}
