//! The rule of the names of repositories, stores and policies.
ghost use Rattle.std.specs.Prelude.{◌≡◌, Ok, Err, MatchResult, IfOk};
ghost use Rattle.std.specs.List.{prefix_len};
ghost use Rattle.nx_base.specs.Names.{is_name_byte, name_of};

use crate::name_err::NameErr;
use std::str::from_utf8;

/// The most bytes of a name.
const NAME_LENGTH: usize = 64;

/// Whether the byte may stand in a name.
fn is_name_byte(byte: u8) -> bool
    ensures { result ≡ is_name_byte byte }
{
    byte.is_ascii_alphanumeric() || byte == b'.' || byte == b'_' || byte == b'-'
}

/// How many bytes in front may stand in a name.
fn name_len(text: &[u8]) -> usize
    ensures { result ≡ prefix_len is_name_byte text.now }
{
    for (at, byte) in text.iter().enumerate() {
        if !is_name_byte(*byte) {
            return at;
        }
    }
    text.len()
}

/// Reads the text as a name.
pub fn read_name(text: &[u8]) -> Result<&str, NameErr>
    ensures read { MatchResult result (λ name. name_of text.now ≡ Ok name.now) (λ e. name_of text.now ≡ Err e) }
    ensures same { IfOk result (λ name. name.now ≡ text.now) }
{
    if text.is_empty() {
        return Err(NameErr::Empty);
    }
    if text.len() > NAME_LENGTH {
        return Err(NameErr::TooLong { length: text.len() });
    }
    let good = name_len(text);
    if good < text.len() {
        return Err(NameErr::BadByte { at: good });
    }
    match from_utf8(text) {
        Ok(name) => Ok(name),
        Err(_) => unreachable!(),
    }
}
