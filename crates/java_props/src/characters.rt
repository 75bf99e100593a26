//! One character of a logical line: a byte, an escape, or the two escapes of a surrogate pair.
ghost use Rattle.std.specs.Prelude.{◌≡◌, true, false, ◌+◌, ◌<◌, ◌≤◌, length, IfOk, IfSome, MatchOption, MatchResult, None, Some};
ghost use Rattle.java_props.specs.From.{Stands, line, later, pieces_at, ends_at, NoDigit, IsDigit, HasFault, HasUnit};
ghost use Rattle.java_props.specs.Reading.{hex_value, escaped, four_digits, pieces, next_is_low};
ghost use Rattle.java_props.specs.Texts.{TakesChar, HasError};
ghost use Rattle.std.specs.Char.Utf16.{is_low_surrogate, is_high_surrogate, surrogate_pair_char};

use crate::PropsErr;
use crate::lines::{is_end, next_place};

fn digit(byte: u8) -> Option<u16>
    ensures value { result ≡ hex_value byte }
    ensures small { IfSome result (λ d. d < 16) }
{
    match byte {
        b'0'..=b'9' => Some((byte - 48) as u16),
        b'a'..=b'f' => Some((byte - 87) as u16),
        b'A'..=b'F' => Some((byte - 55) as u16),
        _ => None,
    }
}

/// The digit at this place of the logical line, and the next place.
fn digit_at(bytes: &[u8], at: usize) -> Option<(u16, usize)>
    requires within { at ≤ length bytes.now }
    requires stands { Stands bytes.now at }
    ensures within { IfSome result (λ r. (r.0 < 16) × (at < r.1) × (r.1 ≤ length bytes.now)) }
    ensures stands { IfSome result (λ r. Stands bytes.now r.1) }
    ensures cell { MatchOption result (NoDigit (line bytes.now at)) (λ r. IsDigit bytes.now at r.0 r.1) }
{
    if at == bytes.len() {
        return None;
    }
    match digit(bytes[at]) {
        None => None,
        Some(d) => Some((d, next_place(bytes, at + 1))),
    }
}

#[tactic(auto, unfolding(crate::specs::Reading::pieces))]
fn four_digits(bytes: &[u8], at: usize) -> Option<(u16, usize)>
    requires within { at ≤ length bytes.now }
    requires stands { Stands bytes.now at }
    ensures within { IfSome result (λ r. (at < r.1) × (r.1 ≤ length bytes.now)) }
    ensures stands { IfSome result (λ r. Stands bytes.now r.1) }
    ensures number { MatchOption result (four_digits (line bytes.now at) ≡ None) (λ r. four_digits (line bytes.now at) ≡ Some r.0) }
    ensures moves { IfSome result (λ r. pieces 4 (line bytes.now at) ≡ pieces_at bytes.now r.1) }
    ensures others { IfSome result (λ r. later bytes.now at ≡ later bytes.now r.1) }
{
    let (a, at) = digit_at(bytes, at)?;
    let (b, at) = digit_at(bytes, at)?;
    let (c, at) = digit_at(bytes, at)?;
    let (d, at) = digit_at(bytes, at)?;
    Some((16 * (16 * (16 * a + b) + c) + d, at))
}

fn escaped_byte(byte: u8) -> u8
    ensures { result ≡ escaped byte }
{
    match byte {
        b't' => 9,
        b'n' => 10,
        b'r' => 13,
        b'f' => 12,
        _ => byte,
    }
}

/// The unit that stands at this place, and the next place; none for a faulty escape.
#[tactic(auto, unfolding(crate::specs::Reading::pieces))]
fn unit_at(bytes: &[u8], at: usize) -> Option<(u16, usize)>
    requires within { at < length bytes.now }
    requires stands { Stands bytes.now at }
    requires inside { ends_at bytes.now at ≡ false }
    ensures stands { IfSome result (λ r. Stands bytes.now r.1) }
    ensures piece { MatchOption result (HasFault bytes.now at) (λ r. HasUnit bytes.now at r.0 r.1) }
    ensures within { IfSome result (λ r. (at < r.1) × (r.1 ≤ length bytes.now)) }
{
    if bytes[at] != b'\\' {
        return Some((bytes[at] as u16, next_place(bytes, at + 1)));
    }
    let next = next_place(bytes, at + 2);
    if bytes[at + 1] != b'u' {
        return Some((escaped_byte(bytes[at + 1]) as u16, next));
    }
    match four_digits(bytes, next) {
        None => None,
        Some(found) => Some(found),
    }
}

/// The low surrogate that stands at this place, and the next place.
fn low_at(bytes: &[u8], at: usize) -> Option<(u16, usize)>
    requires within { at ≤ length bytes.now }
    requires stands { Stands bytes.now at }
    ensures within { IfSome result (λ r. (at < r.1) × (r.1 ≤ length bytes.now)) }
    ensures stands { IfSome result (λ r. Stands bytes.now r.1) }
    ensures low { IfSome result (λ r. is_low_surrogate r.0 ≡ true) }
    ensures piece { MatchOption result (next_is_low (pieces_at bytes.now at) ≡ false) (λ r. HasUnit bytes.now at r.0 r.1) }
{
    if is_end(bytes, at) {
        return None;
    }
    match unit_at(bytes, at) {
        None => None,
        Some(found) => {
            if 0xDC00 <= found.0 && found.0 < 0xE000 {
                return Some(found);
            }
            None
        }
    }
}

/// The character that stands at this place, and the next place.
pub(crate) fn char_at(bytes: &[u8], at: usize) -> Result<(char, usize), PropsErr>
    requires within { at < length bytes.now }
    requires stands { Stands bytes.now at }
    requires inside { ends_at bytes.now at ≡ false }
    ensures within { IfOk result (λ r. (at < r.1) × (r.1 ≤ length bytes.now)) }
    ensures stands { IfOk result (λ r. Stands bytes.now r.1) }
    ensures char { MatchResult result
        (λ r. TakesChar (pieces_at bytes.now at) r.0 (pieces_at bytes.now r.1))
        (λ e. HasError (pieces_at bytes.now at) e) }
    ensures others { IfOk result (λ r. later bytes.now at ≡ later bytes.now r.1) }
{
    match unit_at(bytes, at) {
        None => Err(PropsErr::BadEscape { at }),
        Some(found) => with_unit(bytes, at, found.0, found.1),
    }
}

fn is_high(unit: u16) -> bool
    ensures { result ≡ is_high_surrogate unit }
{
    0xD800 <= unit && unit < 0xDC00
}

fn is_low(unit: u16) -> bool
    ensures { result ≡ is_low_surrogate unit }
{
    0xDC00 <= unit && unit < 0xE000
}

fn pair_char(high: u16, low: u16) -> char
    requires high { is_high_surrogate high ≡ true }
    requires low { is_low_surrogate low ≡ true }
    ensures { result ≡ surrogate_pair_char high low }
{
    let code = 0x1_0000 + (high as u32 - 0xD800) * 0x400 + (low as u32 - 0xDC00);
    match char::from_u32(code) {
        Some(c) => c,
        None => unreachable!(),
    }
}

fn lone_char(unit: u16) -> char
    requires high { is_high_surrogate unit ≡ false }
    requires low { is_low_surrogate unit ≡ false }
    ensures { result ≡ unit }
{
    match char::from_u32(unit as u32) {
        Some(c) => c,
        None => unreachable!(),
    }
}

/// The character that begins with the unit which stands at this place, and the next place.
fn with_unit(bytes: &[u8], at: usize, unit: u16, next: usize) -> Result<(char, usize), PropsErr>
    requires within { (at < next) × (next ≤ length bytes.now) }
    requires stands { Stands bytes.now next }
    requires piece { HasUnit bytes.now at unit next }
    ensures within { IfOk result (λ r. (at < r.1) × (r.1 ≤ length bytes.now)) }
    ensures stands { IfOk result (λ r. Stands bytes.now r.1) }
    ensures char { MatchResult result
        (λ r. TakesChar (pieces_at bytes.now at) r.0 (pieces_at bytes.now r.1))
        (λ e. HasError (pieces_at bytes.now at) e) }
    ensures others { IfOk result (λ r. later bytes.now at ≡ later bytes.now r.1) }
{
    if is_high(unit) {
        return match low_at(bytes, next) {
            None => Err(PropsErr::BadSurrogate { at }),
            Some(found) => Ok((pair_char(unit, found.0), found.1)),
        };
    }
    if is_low(unit) {
        return Err(PropsErr::BadSurrogate { at });
    }
    Ok((lone_char(unit), next))
}
