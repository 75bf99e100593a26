ghost use Rattle.std.specs.Prelude.{◌≡◌, ℕ, List, codes};
ghost use Rattle.http_heads.specs.Framings.{coded, sized, unframed, framing_of};
ghost use Rattle.http_heads.specs.Kept.{values_under, IsGiven};

use crate::framing::Framing;
use crate::head_err::HeadErr;
use crate::kept::{Given, only_value};
use crate::words::{decimal, same_word};
use http_header::HeaderMap;

/// The most bytes of a content (this project's own).
const CONTENT_LIMIT: u64 = 1_073_741_824;

// The framing of one coding.
fn coded(put: bool, minor: u8, coding: &[u8]) -> Result<Framing, HeadErr>
    ensures { result ≡ coded put minor coding.now }
{
    if minor != 1 || !same_word(coding, b"chunked") {
        return Err(HeadErr::BadCoding);
    }
    if put {
        Ok(Framing::Chunked)
    } else {
        Err(HeadErr::BadLength)
    }
}

// The framing of one length.
fn sized(put: bool, length: Option<u64>) -> Result<Framing, HeadErr>
    ensures { result ≡ sized put length }
{
    let Some(length) = length else {
        return Err(HeadErr::BadLength);
    };
    if !put {
        return if length == 0 {
            Ok(Framing::Length(length))
        } else {
            Err(HeadErr::BadLength)
        };
    }
    if length <= CONTENT_LIMIT {
        Ok(Framing::Length(length))
    } else {
        Err(HeadErr::BodyTooLarge)
    }
}

// The framing where nothing is given.
fn unframed(put: bool) -> Result<Framing, HeadErr>
    ensures { result ≡ unframed put }
{
    if put {
        Err(HeadErr::LengthRequired)
    } else {
        Ok(Framing::None)
    }
}

// The framing by what is given of lengths and of codings.
fn framing(put: bool, minor: u8, lengths: Given, codings: Given) -> Result<Framing, HeadErr>
    ensures { (texts words : List (List ℕ)) → IsGiven texts lengths.entry → IsGiven words codings.entry → result ≡ framing_of put minor texts words }
{
    match lengths {
        Given::Nothing => match codings {
            Given::Nothing => unframed(put),
            Given::One(coding) => coded(put, minor, coding),
            Given::Several => Err(HeadErr::BadCoding),
        },
        Given::One(text) => match codings {
            Given::Nothing => sized(put, decimal(text)),
            Given::One(_) => Err(HeadErr::BothFramings),
            Given::Several => Err(HeadErr::BothFramings),
        },
        Given::Several => match codings {
            Given::Nothing => Err(HeadErr::BadLength),
            Given::One(_) => Err(HeadErr::BothFramings),
            Given::Several => Err(HeadErr::BothFramings),
        },
    }
}

/// How the content behind a head is framed, or why it isn't.
pub(crate) fn read_framing(put: bool, minor: u8, kept: &HeaderMap) -> Result<Framing, HeadErr>
    ensures { result ≡ framing_of put minor (values_under (codes "content-length") kept.now) (values_under (codes "transfer-encoding") kept.now) }
{
    let lengths = only_value(kept, "content-length");
    let codings = only_value(kept, "transfer-encoding");
    framing(put, minor, lengths, codings)
}
