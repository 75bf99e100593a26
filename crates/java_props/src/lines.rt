//! The lines of a text, walked by places: line ends, white space, lines that go on, and lines that are skipped.
ghost use Rattle.std.specs.Prelude.{◌≡◌, ◌+◌, ◌<◌, ◌≤◌, ◌==◌, ◌||◌, true, false, [], length, slice_index, IfSome, MatchOption};
ghost use Rattle.java_props.specs.Lines.{is_white_byte, is_mark_byte, natural_lines, logical_lines, trim};
ghost use Rattle.java_props.specs.From.{rest, natural_from, middle_from, trim_first, others_of, lines_from, ends_at};
ghost use Rattle.java_props.specs.From.{Stands, line, later, AtEnd};

pub(crate) fn is_white(byte: u8) -> bool
    ensures { result ≡ is_white_byte byte }
{
    byte == b' ' || byte == b'\t' || byte == 12
}

fn ends_line(byte: u8) -> bool
    ensures { result ≡ ((byte == 13) || (byte == 10)) }
{
    byte == b'\r' || byte == b'\n'
}

/// No byte of the line is left at this place.
pub(crate) fn is_end(bytes: &[u8], at: usize) -> bool
    ensures within { (result ≡ false) → at < length bytes.now }
    ensures past { length bytes.now ≤ at → result ≡ true }
    ensures here { at < length bytes.now → result ≡ ends_at bytes.now at }
{
    match bytes.get(at) {
        None => true,
        Some(byte) => ends_line(*byte),
    }
}

/// The place after white space.
fn after_white(bytes: &[u8], at: usize) -> usize
    requires { at ≤ length bytes.now }
    ensures within { (at ≤ result) × (result ≤ length bytes.now) }
    ensures trimmed { trim_first (natural_from bytes.now at) ≡ natural_from bytes.now result }
{
    let mut at = at;
    while at < bytes.len() && is_white(bytes[at]) {
        at += 1;
    }
    at
}

/// The place after the line end at this place.
pub(crate) fn after_line_end(bytes: &[u8], at: usize) -> usize
    requires { at < length bytes.now }
    ensures within { (at < result) × (result ≤ length bytes.now) }
    ensures lines { natural_lines (slice_index bytes.now at == 13) (rest bytes.now (at + 1)) ≡ natural_from bytes.now result }
{
    if bytes[at] != b'\r' {
        return at + 1;
    }
    if at + 1 == bytes.len() {
        return at + 1;
    }
    if bytes[at + 1] == b'\n' {
        return at + 2;
    }
    at + 1
}

/// The place after the line's end that is here; the end of the text where the text ends here.
pub(crate) fn next_line(bytes: &[u8], at: usize) -> usize
    requires within { at ≤ length bytes.now }
    requires end { AtEnd bytes.now at }
    ensures within { (at ≤ result) × (result ≤ length bytes.now) }
    ensures moves { at < length bytes.now → at < result }
    ensures lines { later bytes.now at ≡ lines_from bytes.now result }
{
    if at == bytes.len() {
        return at;
    }
    after_line_end(bytes, at)
}

/// The place after the natural line of this place.
fn after_line(bytes: &[u8], at: usize) -> usize
    requires { at ≤ length bytes.now }
    ensures within { (at ≤ result) × (result ≤ length bytes.now) }
    ensures lines { logical_lines false (others_of (natural_from bytes.now at)) ≡ lines_from bytes.now result }
{
    let mut at = at;
    while !is_end(bytes, at) {
        at += 1;
    }
    next_line(bytes, at)
}

/// The place of the next byte of the logical line, or of its end: past backslashes with which lines go on.
pub(crate) fn next_place(bytes: &[u8], at: usize) -> usize
    requires { at ≤ length bytes.now }
    ensures within { (at ≤ result) × (result ≤ length bytes.now) }
    ensures same { middle_from bytes.now at ≡ middle_from bytes.now result }
    ensures stands { Stands bytes.now result }
{
    let mut at = at;
    while at < bytes.len() {
        if bytes[at] != b'\\' {
            return at;
        }
        if at + 1 == bytes.len() {
            return at + 1;
        }
        if !ends_line(bytes[at + 1]) {
            return at;
        }
        at = after_white(bytes, after_line_end(bytes, at + 1));
    }
    at
}

/// The place after white space of the logical line.
pub(crate) fn after_blanks(bytes: &[u8], at: usize) -> usize
    requires within { at ≤ length bytes.now }
    requires stands { Stands bytes.now at }
    ensures stands { Stands bytes.now result }
    ensures within { (at ≤ result) × (result ≤ length bytes.now) }
    ensures trimmed { trim (line bytes.now at) ≡ line bytes.now result }
    ensures others { later bytes.now at ≡ later bytes.now result }
{
    let mut at = at;
    while at < bytes.len() && is_white(bytes[at]) {
        at = next_place(bytes, at + 1);
    }
    at
}

fn begins_comment(byte: u8) -> bool
    ensures { result ≡ is_mark_byte byte }
{
    byte == b'#' || byte == b'!'
}

/// The place where the next logical line begins: past natural lines of white space alone and comments.
pub(crate) fn begin(bytes: &[u8], at: usize) -> Option<usize>
    requires { at ≤ length bytes.now }
    ensures within { IfSome result (λ i. (at ≤ i) × (i < length bytes.now)) }
    ensures lines { MatchOption result (lines_from bytes.now at ≡ []) (λ i. lines_from bytes.now at ≡ middle_from bytes.now i) }
{
    let mut at = at;
    while at < bytes.len() {
        let from = after_white(bytes, at);
        if from == bytes.len() {
            return None;
        }
        if ends_line(bytes[from]) {
            at = after_line_end(bytes, from);
        } else if begins_comment(bytes[from]) {
            at = after_line(bytes, from + 1);
        } else {
            return Some(at);
        }
    }
    None
}
