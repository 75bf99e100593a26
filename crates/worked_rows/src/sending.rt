//! The bytes of responses.
use crate::text::{as_text, characters, number};
use http_heads::{BodyErr, HeadErr, RefusalWords, refusal_response, response_head};
use nx_base::ContentType;
use std::alloc::{AllocError, Global};

fn refused(alloc: Global, why: HeadErr, bare: bool) -> Result<String, AllocError> {
    let (status, word) = why.answer();
    let words = RefusalWords::new(word);
    let mut out = [0; 1024];
    let len = refusal_response(status, words.as_bytes(), bare, true, &mut out);
    characters(alloc, &out[..len])
}

/// The response to a head that is refused so.
pub(crate) fn refusal(alloc: Global, text: &[u8]) -> Result<String, AllocError> {
    match as_text(text) {
        "HeadTooLarge" => refused(alloc, HeadErr::HeadTooLarge, false),
        "LengthRequired to HEAD" => refused(alloc, HeadErr::LengthRequired, true),
        "BadMethod" => refused(alloc, HeadErr::BadMethod, false),
        _ => String::from_str(alloc, "no such refusal"),
    }
}

fn words_of(alloc: Global, why: BodyErr) -> Result<String, AllocError> {
    let (_status, words) = why.answer();
    characters(alloc, words.as_bytes())
}

/// The words for a content that is refused: too large, or at a place.
pub(crate) fn refused_content(alloc: Global, text: &[u8]) -> Result<String, AllocError> {
    match as_text(text) {
        "too large" => words_of(alloc, BodyErr::BodyTooLarge),
        at => words_of(alloc, BodyErr::BadChunk { at: number(at) }),
    }
}

fn head(
    alloc: Global,
    status: u16,
    content_type: Option<&ContentType>,
    size: Option<u64>,
    closes: bool,
) -> Result<String, AllocError> {
    let mut out = [0; 1024];
    let len = response_head(status, content_type, size, closes, &mut out);
    characters(alloc, &out[..len])
}

/// The head of a response.
pub(crate) fn response(alloc: Global, text: &[u8]) -> Result<String, AllocError> {
    match as_text(text) {
        "text/plain of 3 bytes" => match ContentType::parse(alloc, b"text/plain") {
            Ok(content_type) => head(alloc, 200, Some(&content_type), Some(3), false),
            Err(_) => String::from_str(alloc, "no type"),
        },
        "go on" => head(alloc, 100, None, None, false),
        "deleted and closes" => head(alloc, 204, None, None, true),
        "stored" => head(alloc, 201, None, Some(0), false),
        _ => String::from_str(alloc, "no such response"),
    }
}
