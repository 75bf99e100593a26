ghost use Rattle.std.specs.Prelude.{◌≡◌, Ok, Err, IfOk, MatchResult, ◌≤◌, length};
ghost use Rattle.std.specs.List.{prefix_len};
ghost use Rattle.nx_base.specs.NameErr.{Gives};
ghost use Rattle.nx_base.specs.ContentTypes.{content_type_of, is_printing, good_type_len};

use crate::name_err::{NameErr, NoMemory};
use crate::text::owned;
use std::alloc::Global;
use std::marker::Model;
use std::str::from_utf8;

/// The most bytes of a media type.
const TYPE_LENGTH: usize = 255;

/// The media type of a content: 1 to 255 printing characters of ASCII and spaces, with no space at
/// either end.
#[derive(Debug, Drop)]
pub struct ContentType {
    text: String,
}

impl Model for ContentType {
    ghost use Rattle.std.specs.Prelude.{ℕ, List, IsTrue};
    ghost use Rattle.std.specs.String.{string_bytes};
    ghost use Rattle.nx_base.specs.ContentTypes.{is_content_type};

    ghost Value = { List ℕ };

    ghost view = { λ t. string_bytes t.text };

    ghost invariant = { λ t. IsTrue (is_content_type (string_bytes t.text)) };
}

// How many bytes in front print, spaces among them.
fn printing_len(text: &[u8]) -> usize
    ensures { result ≡ prefix_len is_printing text.now }
{
    for (at, byte) in text.iter().enumerate() {
        if *byte < b' ' || *byte > b'~' {
            return at;
        }
    }
    text.len()
}

// How many bytes in front break no rule.
fn good_len(text: &[u8]) -> usize
    ensures value { result ≡ good_type_len text.now }
    ensures within { result ≤ length text.now }
{
    let printing = printing_len(text);
    match text {
        [b' ', ..] => 0,
        [.., b' '] => printing.min(text.len() - 1),
        _ => printing,
    }
}

// Reads the text as a media type.
fn read_type(text: &[u8]) -> Result<&str, NameErr>
    ensures read { MatchResult result (λ t. content_type_of text.now ≡ Ok t.now) (λ e. content_type_of text.now ≡ Err e) }
    ensures same { IfOk result (λ t. t.now ≡ text.now) }
{
    if text.is_empty() {
        return Err(NameErr::Empty);
    }
    if text.len() > TYPE_LENGTH {
        return Err(NameErr::TooLong { length: text.len() });
    }
    let good = good_len(text);
    if good < text.len() {
        return Err(NameErr::BadByte { at: good });
    }
    match from_utf8(text) {
        Ok(name) => Ok(name),
        Err(_) => unreachable!(),
    }
}

impl ContentType {
    /// Reads a media type.
    pub fn parse(alloc: Global, text: &[u8]) -> Result<ContentType, NameErr>
        ensures { Gives (content_type_of text.now) result }
    {
        let name = read_type(text)?;
        match owned(alloc, name) {
            Ok(text) => Ok(ContentType { text }),
            Err(NoMemory) => Err(NameErr::NoMemory),
        }
    }

    pub fn as_bytes(&self) -> &[u8]
        ensures text { result.now ≡ self.now }
        ensures reads { content_type_of self.now ≡ Ok self.now }
    {
        self.text.as_bytes()
    }

    pub fn as_str(&self) -> &str
        ensures text { result.now ≡ self.now }
        ensures reads { content_type_of self.now ≡ Ok self.now }
    {
        self.text.as_str()
    }

    pub fn try_clone(&self, alloc: Global) -> Result<ContentType, NoMemory>
        ensures { IfOk result (λ t. t ≡ self.now) }
    {
        let text = owned(alloc, self.text.as_str())?;
        Ok(ContentType { text })
    }
}
