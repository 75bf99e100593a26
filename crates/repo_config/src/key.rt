//! The parts of a key, and keys made of parts.
ghost use Rattle.std.specs.Prelude.{◌≡◌, ◌∷◌, ◌++◌, ◌-◌, ◌<◌, ◌≤◌, not, length, slice_index, string_bytes, IfOk};
ghost use Rattle.std.specs.List.{position_or_len, suffix_len};
ghost use Rattle.nx_base.specs.Texts.{same_name};
ghost use Rattle.repo_config.specs.Keys.{is_dot, head_of, middle_of, tail_of, subject_of, key_text};

use crate::form::{Subject, Word};
use std::alloc::{AllocError, Global};

/// Whether the two texts are the same.
pub(crate) fn is_same(a: &str, b: &str) -> bool
    ensures { result ≡ same_name a.now b.now }
{
    a == b
}

/// The place of the first dot, or the text's end.
fn first_dot(text: &[u8]) -> usize
    ensures first { result ≡ position_or_len is_dot text.now }
    ensures within { result ≤ length text.now }
    ensures dot { result < length text.now → slice_index text.now result ≡ 46 }
{
    for (at, byte) in text.iter().enumerate() {
        if *byte == b'.' {
            return at;
        }
    }
    text.len()
}

/// The place behind the last dot, or the text's beginning.
fn after_last_dot(text: &[u8]) -> usize
    ensures last { result ≡ length text.now - suffix_len (λ b. not (is_dot b)) text.now }
    ensures within { result ≤ length text.now }
    ensures dot { 0 < result → slice_index text.now (result - 1) ≡ 46 }
{
    let mut at = text.len();
    while at > 0 && text[at - 1] != b'.' {
        at -= 1;
    }
    at
}

fn head(key: &str) -> &str
    ensures { result.now ≡ head_of key.now }
{
    &key[..first_dot(key.as_bytes())]
}

/// What stands behind the last dot of a key, or all of it.
pub(crate) fn tail(key: &str) -> &str
    ensures { result.now ≡ tail_of key.now }
{
    &key[after_last_dot(key.as_bytes())..]
}

/// What stands between the first and the last dot of a key.
pub(crate) fn middle(key: &str) -> &str
    ensures { result.now ≡ middle_of key.now }
{
    let end = after_last_dot(key.as_bytes());
    if end == 0 {
        return "";
    }
    match key[..end - 1].split_once('.') {
        Some((_, middle)) => middle,
        None => "",
    }
}

/// What a key is a key of, by what stands before its first dot.
pub(crate) fn subject(key: &str) -> Option<Subject>
    ensures { result ≡ subject_of key.now }
{
    if first_dot(key.as_bytes()) == key.len() {
        return Some(Subject::OfAll);
    }
    let head = head(key);
    if is_same(head, "store") {
        return Some(Subject::OfStore);
    }
    if is_same(head, "repo") {
        return Some(Subject::OfRepo);
    }
    None
}

/// The key of a subject, a name and a word; a key of the whole has no name.
pub(crate) fn key_text(
    alloc: Global,
    subject: Subject,
    name: &str,
    word: Word,
) -> Result<String, AllocError>
    ensures { IfOk result (λ key. string_bytes key ≡ key_text subject name.now word) }
{
    let word = word.text();
    match subject {
        Subject::OfAll => String::from_str(alloc, word),
        Subject::OfStore => format!(in alloc; "store.{name}.{word}"),
        Subject::OfRepo => format!(in alloc; "repo.{name}.{word}"),
    }
}
