ghost use Rattle.std.specs.Prelude.{length};
ghost use Rattle.http_heads.specs.Parse.{GivesParse};

use httparse::spans::{HeaderSpan, RequestSpans, parse_request};
use httparse::{Error, Status};

/// What stands in a text that is to be one head.
#[derive(Clone, Copy, Debug)]
pub(crate) enum Parse {
    Whole(RequestSpans),
    TooManyHeaders,
    BadHead,
}

/// Parses a text that is to be one head.
pub(crate) fn parse_head(text: &[u8], fields: &mut [HeaderSpan]) -> Parse
    ensures { GivesParse text.now (length fields.old) fields.new result }
{
    match parse_request(text, fields) {
        Ok(Status::Complete(spans)) => {
            if spans.len == text.len() {
                Parse::Whole(spans)
            } else {
                Parse::BadHead
            }
        }
        Err(Error::TooManyHeaders) => Parse::TooManyHeaders,
        _ => Parse::BadHead,
    }
}
