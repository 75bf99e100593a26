ghost use Rattle.std.specs.Prelude.{◌≡◌, ◌↔◌, ◌<◌, ◌^◌, ℕ, List, length, None, Some, IsOk, IfOk, IfErr};
ghost use Rattle.nx_base.specs.Texts.{name_cmp};
ghost use Rattle.nx_base.specs.Ids.{id_made, id_text, is_id_byte, id_refusal};

use crate::name_err::NameErr;
use crate::text::compare_texts;
use std::cmp::Ordering;
use std::marker::Model;
use uuid::{Builder, Uuid};

/// The length of an id's text.
pub const ID_LENGTH: usize = 36;

/// The id of a blob: sixteen bytes.
#[derive(Clone, Copy, Debug, PartialEq, Eq, PartialOrd, Ord, Hash)]
pub struct BlobId {
    bytes: [u8; 16],
}

impl Model for BlobId {
    ghost use Rattle.std.specs.Prelude.{ℕ, List};

    ghost Value = { List ℕ };

    ghost view = { λ id. id.bytes };

    ghost inverse = { λ bytes. record { bytes = bytes } };
}

// Whether the byte may stand at the place of an id's text.
fn is_id_byte(at: usize, byte: u8) -> bool
    ensures { result ≡ is_id_byte at byte }
{
    match at {
        8 | 13 | 18 | 23 => byte == b'-',
        _ => byte.is_ascii_digit() || (b'a' <= byte && byte <= b'f'),
    }
}

// The order of two ids' bytes, which is that of their texts.
fn compare_ids(a: &[u8], b: &[u8]) -> Ordering
    requires a_len { length a.now ≡ 16 }
    requires b_len { length b.now ≡ 16 }
    ensures bytes { result ≡ name_cmp a.now b.now }
    ensures texts { result ≡ name_cmp (id_text a.now) (id_text b.now) }
{
    compare_texts(a, b)
}

impl BlobId {
    /// The id of version 7 (RFC 9562, section 5.7) of a timestamp in milliseconds and ten random bytes.
    pub fn made(timestamp: u64, random: &[u8; 10]) -> BlobId
        requires { timestamp < 2 ^ 48 }
        ensures { result ≡ id_made timestamp random.now }
    {
        let uuid = Builder::from_unix_timestamp_millis(timestamp, random).into_uuid();
        BlobId {
            bytes: *uuid.as_bytes(),
        }
    }

    pub fn as_bytes(&self) -> &[u8]
        ensures bytes { result.now ≡ self.now }
        ensures len { length result.now ≡ 16 }
    {
        &self.bytes
    }

    /// The order of ids: that of their bytes, and so that of their texts.
    pub fn compare(&self, other: &BlobId) -> Ordering
        ensures bytes { result ≡ name_cmp self.now other.now }
        ensures texts { result ≡ name_cmp (id_text self.now) (id_text other.now) }
    {
        compare_ids(&self.bytes, &other.bytes)
    }

    /// The id in 36 characters, with hexadecimal digits in lower case.
    pub fn text(&self) -> [u8; 36]
        ensures text { result ≡ id_text self.now }
        ensures readable { id_refusal result ≡ None }
    {
        let mut buffer = Uuid::encode_buffer();
        let uuid = Uuid::from_bytes(self.bytes);
        let text = uuid.hyphenated().encode_lower(&mut buffer);
        let mut copy = [0u8; 36];
        copy.copy_from_slice(text.as_bytes());
        copy
    }

    /// Reads the text of an id, as [`BlobId::text`] writes it. It takes no memory.
    pub fn parse(text: &[u8]) -> Result<BlobId, NameErr>
        ensures read { IfOk result (λ id. id_text id ≡ text.now) }
        ensures refused { IfErr result (λ e. id_refusal text.now ≡ Some e) }
        ensures accepted { IsOk result ↔ (id_refusal text.now ≡ None) }
    {
        if text.is_empty() {
            return Err(NameErr::Empty);
        }
        if text.len() > ID_LENGTH {
            return Err(NameErr::TooLong { length: text.len() });
        }
        for at in 0..text.len() {
            if !is_id_byte(at, text[at]) {
                return Err(NameErr::BadByte { at });
            }
        }
        if text.len() < ID_LENGTH {
            return Err(NameErr::BadByte { at: text.len() });
        }
        match Uuid::try_parse_ascii(text) {
            Ok(uuid) => Ok(BlobId {
                bytes: *uuid.as_bytes(),
            }),
            Err(_) => unreachable!(),
        }
    }
}
