//! Properties texts: the written form of what they say, or why they are refused.
use crate::text::{as_text, characters};
use java_props::{Pairs, SetErr, read, write};
use std::alloc::{AllocError, Global};

fn form(alloc: Global, pairs: &Pairs) -> Result<String, AllocError> {
    match write(alloc, pairs) {
        Ok(text) => characters(alloc, text.as_slice()),
        Err(why) => format!(in alloc; "{why:?}"),
    }
}

/// The written form of what the text says.
pub(crate) fn written(alloc: Global, text: &[u8]) -> Result<String, AllocError> {
    match read(alloc, text) {
        Ok(pairs) => form(alloc, &pairs),
        Err(why) => format!(in alloc; "{why:?}"),
    }
}

/// The lines `k000`, `k001` .. `k255`.
fn keys(alloc: Global) -> Result<Vec<u8>, AllocError> {
    let mut text = Vec::new(alloc);
    for i in 0..=255_u8 {
        let line = [
            b'k',
            b'0' + i / 100,
            b'0' + i / 10 % 10,
            b'0' + i % 10,
            b'\n',
        ];
        text.extend_from_slice(&line)?;
    }
    Ok(text)
}

/// How many pairs there are with 256 keys in front of the text.
pub(crate) fn behind_keys(alloc: Global, text: &[u8]) -> Result<String, AllocError> {
    let mut all = keys(alloc)?;
    all.extend_from_slice(text)?;
    match read(alloc, all.as_slice()) {
        Ok(pairs) => format!(in alloc; "{}", pairs.len()),
        Err(why) => format!(in alloc; "{why:?}"),
    }
}

/// Sets `key=value`, and says why not.
fn set_one(pairs: &mut Pairs, part: &str) -> Option<SetErr> {
    let (key, value) = part.split_once('=').unwrap_or((part, ""));
    pairs.set(key, value).err()
}

fn set_all(alloc: Global, mut pairs: Pairs, text: &str) -> Result<String, AllocError> {
    for part in text.split(',') {
        if let Some(why) = set_one(&mut pairs, part) {
            return format!(in alloc; "{why:?}");
        }
    }
    form(alloc, &pairs)
}

/// The written form of pairs that are set one after another.
pub(crate) fn set(alloc: Global, text: &[u8]) -> Result<String, AllocError> {
    set_all(alloc, Pairs::new(alloc), as_text(text))
}

/// The same, over 256 pairs that are there; how many there are then.
pub(crate) fn set_behind_keys(alloc: Global, text: &[u8]) -> Result<String, AllocError> {
    let all = keys(alloc)?;
    match read(alloc, all.as_slice()) {
        Ok(mut pairs) => match set_one(&mut pairs, as_text(text)) {
            None => format!(in alloc; "{}", pairs.len()),
            Some(why) => format!(in alloc; "{why:?}"),
        },
        Err(why) => format!(in alloc; "{why:?}"),
    }
}
