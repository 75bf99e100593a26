ghost use Rattle.std.specs.Prelude.{◌≡◌, ◌==◌, ◌&&◌, ◌||◌, codes, IfOk};
ghost use Rattle.http_heads.specs.Kept.{values_under};
ghost use Rattle.http_heads.specs.Options.{octets, type_of, wants_continue, has_close, any_close};

use crate::accepted::accepted;
use crate::kept::first;
use crate::words::{place_of, same_word, trimmed};
use http_header::HeaderMap;
use nx_base::{ContentType, NoMemory};
use std::alloc::Global;

// The media type where a request names none.
fn octets(alloc: Global) -> Result<ContentType, NoMemory>
    ensures { IfOk result (λ t. t ≡ octets) }
{
    match ContentType::parse(alloc, b"application/octet-stream") {
        Ok(octets) => Ok(octets),
        Err(_) => Err(NoMemory),
    }
}

/// The media type of the content: the first one that the head names, where it is one.
pub(crate) fn read_type(alloc: Global, kept: &HeaderMap) -> Result<ContentType, NoMemory>
    ensures { IfOk result (λ t. t ≡ type_of (values_under (codes "content-type") kept.now)) }
{
    let Some(text) = first(kept, "content-type") else {
        return octets(alloc);
    };
    match accepted(ContentType::parse(alloc, text))? {
        Some(content_type) => Ok(content_type),
        None => octets(alloc),
    }
}

// Whether the first value of Expect asks for `100 Continue`.
fn wants_continue(kept: &HeaderMap) -> bool
    ensures { result ≡ wants_continue (values_under (codes "expect") kept.now) }
{
    match first(kept, "expect") {
        Some(text) => same_word(text, b"100-continue"),
        None => false,
    }
}

// Whether a value of Connection has the member `close`.
fn has_close(value: &[u8]) -> bool
    ensures { result ≡ has_close value.now }
{
    let mut rest = value;
    'members: loop {
        let at = place_of(rest, b',');
        if same_word(trimmed(&rest[..at]), b"close") {
            return true;
        }
        if at == rest.len() {
            return false;
        }
        rest = &rest[at + 1..];
    }
}

// Whether a value of Connection has it.
fn any_close(kept: &HeaderMap) -> bool
    ensures { result ≡ any_close (values_under (codes "connection") kept.now) }
{
    for value in kept.get_all("connection") {
        if has_close(value.as_bytes()) {
            return true;
        }
    }
    false
}

/// Whether a request waits for `100 Continue`: a PUT in HTTP/1.1 that asks for it.
pub(crate) fn expects(put: bool, minor: u8, kept: &HeaderMap) -> bool
    ensures { result ≡ ((put && minor == 1) && wants_continue (values_under (codes "expect") kept.now)) }
{
    put && minor == 1 && wants_continue(kept)
}

/// Whether a request closes: it is HTTP/1.0, or says so.
pub(crate) fn closes(minor: u8, kept: &HeaderMap) -> bool
    ensures { result ≡ (minor == 0 || any_close (values_under (codes "connection") kept.now)) }
{
    minor == 0 || any_close(kept)
}
