//! The rule of texts of segments between slashes.
ghost use Rattle.std.specs.Prelude.{◌≡◌, ◌≢◌, ℕ, ◌<◌, ◌≤◌, length, slice_index, Ok, Err, MatchResult, IfOk, IfErr, IfSome};
ghost use Rattle.std.specs.List.{prefix_len};
ghost use Rattle.nx_base.specs.NameErr.{SpeaksOf};
ghost use Rattle.nx_base.specs.Paths.{is_path_byte, good_len, segments_of, is_bad_segment, bad_place, slashed_of};

use crate::name_err::NameErr;
use std::str::from_utf8;

/// How many bytes in front may stand in a path, UTF-8 left aside.
fn plain_len(text: &[u8]) -> usize
    ensures { result ≡ prefix_len is_path_byte text.now }
{
    for (at, byte) in text.iter().enumerate() {
        if *byte < b' ' || *byte == 127 {
            return at;
        }
    }
    text.len()
}

/// Reads the bytes of a path. If they are bad the answer is how many in front are good.
#[tactic(auto, unfolding(crate::specs::Paths::good_len))]
fn read_bytes(text: &[u8]) -> Result<&str, usize>
    ensures good { MatchResult result (λ s. (s.now ≡ text.now) × (good_len text.now ≡ length text.now)) (λ n. n ≡ good_len text.now) }
    ensures bad { IfErr result (λ n. n < length text.now) }
{
    let plain = plain_len(text);
    match from_utf8(text) {
        Ok(read) => {
            if plain < text.len() {
                return Err(plain);
            }
            Ok(read)
        }
        Err(fault) => Err(plain.min(fault.valid_up_to())),
    }
}

/// Where the segment that begins at `start` ends.
fn segment_end(text: &[u8], start: usize) -> usize
    requires { start ≤ length text.now }
    ensures from { start ≤ result }
    ensures within { result ≤ length text.now }
    ensures inside { (k : ℕ) → start ≤ k → k < result → slice_index text.now k ≢ 47 }
    ensures stops { result < length text.now → slice_index text.now result ≡ 47 }
{
    for at in start..text.len() {
        if text[at] == b'/' {
            return at;
        }
    }
    text.len()
}

/// Whether a segment is empty, `.` or `..`.
fn is_bad(segment: &[u8]) -> bool
    ensures { result ≡ is_bad_segment segment.now }
{
    match segment {
        [] => true,
        [a] => *a == b'.',
        [a, b] => *a == b'.' && *b == b'.',
        _ => false,
    }
}

/// The place of the first bad segment.
fn first_bad(text: &[u8]) -> Option<usize>
    ensures place { result ≡ bad_place 0 (segments_of text.now) }
    ensures within { IfSome result (λ at. at ≤ length text.now) }
{
    let mut start = 0;
    'walk: loop {
        let end = segment_end(text, start);
        if is_bad(&text[start..end]) {
            return Some(start);
        }
        if end == text.len() {
            return None;
        }
        start = end + 1;
    }
}

/// Reads the text as one of 1 to `most` bytes with good segments.
#[tactic(auto, unfolding(crate::specs::Paths::slashed_of))]
pub fn read_slashed(text: &[u8], most: usize) -> Result<&str, NameErr>
    ensures read { MatchResult result (λ path. slashed_of most text.now ≡ Ok path.now) (λ e. slashed_of most text.now ≡ Err e) }
    ensures same { IfOk result (λ path. path.now ≡ text.now) }
    ensures within { IfErr result (SpeaksOf (length text.now)) }
{
    if text.is_empty() {
        return Err(NameErr::Empty);
    }
    if text.len() > most {
        return Err(NameErr::TooLong { length: text.len() });
    }
    match read_bytes(text) {
        Err(at) => Err(NameErr::BadByte { at }),
        Ok(path) => match first_bad(text) {
            Some(at) => Err(NameErr::BadSegment { at }),
            None => Ok(path),
        },
    }
}
