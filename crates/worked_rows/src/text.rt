//! How bytes stand in a row: `%XX` is a byte in hexadecimal digits, and of the parts between marks `^` one that is a number,
//! `*` and a text is that text so many times.
use percent_encoding::percent_decode;
use std::alloc::{AllocError, Global};
use std::str::from_utf8;

/// A number, or 0.
pub(crate) fn number(text: &str) -> u64 {
    text.parse::<u64>().unwrap_or(0)
}

fn append(out: &mut Vec<u8>, part: &str) -> Result<(), AllocError> {
    percent_decode(part.as_bytes()).append_to(out)?;
    Ok(())
}

fn append_times(out: &mut Vec<u8>, count: u64, part: &str) -> Result<(), AllocError> {
    for _ in 0..count {
        append(out, part)?;
    }
    Ok(())
}

fn append_part(out: &mut Vec<u8>, part: &str) -> Result<(), AllocError> {
    match part.split_once('*') {
        Some((count, part)) => append_times(out, number(count), part),
        None => append(out, part),
    }
}

/// The bytes that a text of a row stands for.
pub(crate) fn unpacked(alloc: Global, text: &str) -> Result<Vec<u8>, AllocError> {
    let mut out = Vec::new(alloc);
    for part in text.split('^') {
        append_part(&mut out, part)?;
    }
    Ok(out)
}

/// The bytes as characters of one byte each.
pub(crate) fn characters(alloc: Global, bytes: &[u8]) -> Result<String, AllocError> {
    let mut text = String::new(alloc);
    for byte in bytes {
        text.push(char::from(*byte))?;
    }
    Ok(text)
}

/// The bytes as a text, or none.
pub(crate) fn as_text(bytes: &[u8]) -> &str {
    from_utf8(bytes).unwrap_or("")
}
