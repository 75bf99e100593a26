ghost use Rattle.std.specs.Prelude.{◌≡◌, ◌↔◌, IsTrue};
ghost use Rattle.http_heads.specs.Head.{is_put, method_of, judge, IsTooLong, GivesHead};
ghost use Rattle.http_heads.specs.Cut.{HasNoHead};
ghost use Rattle.http_heads.specs.Kept.{values_kept};
ghost use Rattle.http_heads.specs.Gives.{GivesOr};

use crate::cut::head_len;
use crate::framing::Framing;
use crate::framing_rule::read_framing;
use crate::head_err::HeadErr;
use crate::kept::keep;
use crate::method::Method;
use crate::options::{closes, expects, read_type};
use crate::parse::{Parse, parse_head};
use crate::target::read_target;
use http_header::HeaderMap;
use httparse::spans::EMPTY_HEADER_SPAN;
use nx_base::{ContentType, Key};
use std::alloc::Global;

/// The most bytes of a head.
pub const HEAD_LIMIT: usize = 16_384;

/// What an accepted head asks for.
#[derive(Debug, Drop)]
pub struct Head {
    pub method: Method,
    pub key: Key,
    pub framing: Framing,
    /// The media type of the content: `application/octet-stream` where the head names none.
    pub content_type: ContentType,
    /// Whether it waits for `100 Continue` before it sends its content.
    pub expects: bool,
    /// Whether the session ends after its response.
    pub closes: bool,
}

// The method that a word names.
#[tactic(auto, unfolding(crate::specs::Head::method_of))]
fn read_method(word: &[u8]) -> Result<Method, HeadErr>
    ensures { result ≡ method_of word.now }
{
    if word == b"GET".as_slice() {
        Ok(Method::Get)
    } else if word == b"HEAD".as_slice() {
        Ok(Method::Head)
    } else if word == b"PUT".as_slice() {
        Ok(Method::Put)
    } else if word == b"DELETE".as_slice() {
        Ok(Method::Delete)
    } else {
        Err(HeadErr::BadMethod)
    }
}

fn is_put(method: Method) -> bool
    ensures { result ≡ is_put method }
{
    match method {
        Method::Put => true,
        Method::Get | Method::Head | Method::Delete => false,
    }
}

// What a head asks for, or the first cause for which it is refused.
fn judge(
    alloc: Global,
    method: &[u8],
    target: &[u8],
    minor: u8,
    kept: &HeaderMap,
) -> Result<Head, HeadErr>
    ensures { GivesOr (judge method.now target.now minor (values_kept kept.now)) result }
{
    let method = read_method(method)?;
    let key = read_target(alloc, target)?;
    let put = is_put(method);
    let framing = read_framing(put, minor, kept)?;
    let content_type = read_type(alloc, kept)?;
    Ok(Head {
        method,
        key,
        framing,
        content_type,
        expects: expects(put, minor, kept),
        closes: closes(minor, kept),
    })
}

// Whether no head stands in a text.
fn has_no_head(text: &[u8]) -> bool
    ensures { IsTrue result ↔ HasNoHead text.now }
{
    match head_len(text, 0) {
        Some(_) => false,
        None => true,
    }
}

// Whether a text is no head because it is too long.
#[tactic(auto, unfolding(crate::specs::Cut::head_limit))]
pub(crate) fn is_too_long(text: &[u8]) -> bool
    ensures { IsTrue result ↔ IsTooLong text.now }
{
    text.len() > HEAD_LIMIT || (text.len() == HEAD_LIMIT && has_no_head(text))
}

/// Reads a text as one head of a request (RFC 9112, sections 2 to 6). The caller hands it a head as [`crate::head_len`] cuts it, or
/// the first 16,384 bytes where no head lies in them; each other text is answered too.
pub fn read_head(alloc: Global, text: &[u8]) -> Result<Head, HeadErr>
    ensures { GivesHead text.now result }
{
    if is_too_long(text) {
        return Err(HeadErr::HeadTooLarge);
    }
    let mut fields = [EMPTY_HEADER_SPAN; 64];
    let spans = match parse_head(text, &mut fields) {
        Parse::Whole(spans) => spans,
        Parse::TooManyHeaders => return Err(HeadErr::TooManyHeaders),
        Parse::BadHead => return Err(HeadErr::BadHead),
    };
    let kept = keep(alloc, text, &fields[..spans.headers])?;
    judge(
        alloc,
        spans.method.of(text),
        spans.path.of(text),
        spans.version,
        &kept,
    )
}
