ghost use Rattle.std.specs.Prelude.{◌≡◌, ◌==◌, ◌≤◌, length};
ghost use Rattle.std.specs.List.{position_or_len};
ghost use Rattle.httparse.specs.Grammar.{is_ows, skip_ows, trim_ows};
ghost use Rattle.http_heads.specs.Fields.{same_word, decimal_of};

/// Whether two texts are the same but for the case of letters.
pub(crate) fn same_word(text: &[u8], word: &[u8]) -> bool
    ensures { result ≡ same_word text.now word.now }
{
    text.eq_ignore_ascii_case(word)
}

/// The number that 1 to 19 decimal digits write.
#[tactic(auto, unfolding(crate::specs::Fields::decimal_of))]
pub(crate) fn decimal(text: &[u8]) -> Option<u64>
    ensures { result ≡ decimal_of text.now }
{
    if text.is_empty() || text.len() > 19 {
        return None;
    }
    let mut number = 0;
    for byte in text {
        if !byte.is_ascii_digit() {
            return None;
        }
        number = number * 10 + u64::from(*byte - b'0');
    }
    Some(number)
}

fn is_blank(byte: u8) -> bool
    ensures { result ≡ is_ows byte }
{
    byte == b' ' || byte == b'\t'
}

// The text without the spaces and tabs in front.
fn skip_blank(text: &[u8]) -> &[u8]
    ensures { result.now ≡ skip_ows text.now }
{
    for (at, byte) in text.iter().enumerate() {
        if !is_blank(*byte) {
            return &text[at..];
        }
    }
    &text[text.len()..]
}

/// The text without the spaces and tabs at both ends.
pub(crate) fn trimmed(text: &[u8]) -> &[u8]
    ensures { result.now ≡ trim_ows text.now }
{
    let prefix = skip_blank(text);
    let mut end = prefix.len();
    while end > 0 {
        if !is_blank(prefix[end - 1]) {
            return &prefix[..end];
        }
        end -= 1;
    }
    &prefix[..0]
}

/// Where the first byte of that value stands, or the text's length.
pub(crate) fn place_of(text: &[u8], byte: u8) -> usize
    ensures within { result ≤ length text.now }
    ensures place { result ≡ position_or_len (λ b. b == byte) text.now }
{
    for (at, b) in text.iter().enumerate() {
        if *b == byte {
            return at;
        }
    }
    text.len()
}
