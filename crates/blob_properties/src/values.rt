//! What the values of keys mean.
ghost use Rattle.std.specs.Prelude.{◌≡◌, ◌^◌, ◌<◌, ◌≤◌, length, SomeIff, IfSome};
ghost use Rattle.std.specs.Str.Parse.{IsNumeral, digits_value};
ghost use Rattle.blob_properties.specs.Values.{number_of, sha1_of, says_true};

use hex::FromHex;

// The number that digits alone write.
fn digits_number(text: &str) -> Option<u64>
    ensures { SomeIff result (IsNumeral 10 text.now × (digits_value 10 text.now < 2 ^ 64)) (digits_value 10 text.now) }
{
    let bytes = text.as_bytes();
    if bytes.len() > 0 && bytes[0] == b'+' {
        return None;
    }
    match text.parse::<u64>() {
        Ok(number) => Some(number),
        Err(_) => None,
    }
}

// The same, of at most so many digits, below `end`.
fn bounded(text: &str, most: usize, end: u64) -> Option<u64>
    ensures { SomeIff result (IsNumeral 10 text.now × (length text.now ≤ most) × (digits_value 10 text.now < end)) (digits_value 10 text.now) }
{
    if text.len() > most {
        return None;
    }
    match digits_number(text) {
        Some(number) if number < end => Some(number),
        _ => None,
    }
}

/// The number below `end` that 1 to `most` digits write, with or without leading zeros.
pub fn number(text: &str, most: usize, end: u64) -> Option<u64>
    ensures value { result ≡ number_of most end text.now }
    ensures range { IfSome result (λ n. n < end) }
{
    bounded(text, most, end)
}

/// The twenty bytes that forty hexadecimal digits write.
pub fn sha1(text: &str) -> Option<[u8; 20]>
    ensures { result ≡ sha1_of text.now }
{
    <[u8; 20] as FromHex>::from_hex(text.as_bytes()).ok()
}

/// Whether the text is `true`, in any case of its letters.
pub fn says_true(text: &str) -> bool
    ensures { result ≡ says_true text.now }
{
    text.eq_ignore_ascii_case("true")
}
