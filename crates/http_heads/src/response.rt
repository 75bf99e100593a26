ghost use Rattle.std.specs.Prelude.{◌≡◌, ◌+◌, ◌≤◌, ◌++◌, Some, length, take, option_map, IfSome, IfOk};
ghost use Rattle.http_heads.specs.Response.{line, why, status_line, type_line, length_line, allow_line, close_line, head_of, refused_with};

use crate::reason::reason;
use itoa::Buffer;
use nx_base::ContentType;

// Writes a part at a place, and returns the place behind it.
fn put(out: &mut [u8; 1024], at: usize, part: &[u8]) -> usize
    requires { at + length part.now ≤ 1024 }
    ensures end { result ≡ at + length part.now }
    ensures text { take result out.new ≡ take at out.old ++ part.now }
{
    out[at..at + part.len()].copy_from_slice(part);
    at + part.len()
}

// Writes a line of a name and a value.
fn put_line(out: &mut [u8; 1024], at: usize, name: &[u8], value: &[u8]) -> usize
    requires { at + length name.now + length value.now + 2 ≤ 1024 }
    ensures end { result ≡ at + length name.now + length value.now + 2 }
    ensures text { take result out.new ≡ take at out.old ++ line (name.now ++ value.now) }
{
    let at = put(out, at, name);
    let at = put(out, at, value);
    put(out, at, b"\r\n")
}

#[tactic(auto, unfolding(crate::specs::Response::status_line))]
fn put_status(out: &mut [u8; 1024], status: u16) -> usize
    ensures end { result ≤ 83 }
    ensures text { take result out.new ≡ status_line status }
{
    let mut digits = Buffer::new();
    let at = put(out, 0, b"HTTP/1.1 ");
    let at = put(out, at, digits.format(status).as_bytes());
    let at = put(out, at, b" ");
    let at = put(out, at, reason(status).as_bytes());
    put(out, at, b"\r\n")
}

fn put_type(out: &mut [u8; 1024], at: usize, content_type: Option<&[u8]>) -> usize
    requires room { at ≤ 512 }
    requires short { IfSome content_type (λ t. length t.now ≤ 255) }
    ensures end { result ≤ at + 271 }
    ensures text { take result out.new ≡ take at out.old ++ type_line (option_map (λ t. t.now) content_type.entry) }
{
    match content_type {
        Some(content_type) => put_line(out, at, b"Content-Type: ", content_type),
        None => at,
    }
}

fn put_length(out: &mut [u8; 1024], at: usize, size: Option<u64>) -> usize
    requires { at ≤ 512 }
    ensures end { result ≤ at + 58 }
    ensures text { take result out.new ≡ take at out.old ++ length_line size }
{
    match size {
        Some(size) => {
            let mut digits = Buffer::new();
            put_line(out, at, b"Content-Length: ", digits.format(size).as_bytes())
        }
        None => at,
    }
}

fn put_allow(out: &mut [u8; 1024], at: usize, status: u16) -> usize
    requires { at ≤ 512 }
    ensures end { result ≤ at + 31 }
    ensures text { take result out.new ≡ take at out.old ++ allow_line status }
{
    if status != 405 {
        return at;
    }
    put_line(out, at, b"Allow: ", b"GET, HEAD, PUT, DELETE")
}

fn put_close(out: &mut [u8; 1024], at: usize, closes: bool) -> usize
    requires { at ≤ 512 }
    ensures end { result ≤ at + 19 }
    ensures text { take result out.new ≡ take at out.old ++ close_line closes }
{
    if !closes {
        return at;
    }
    put_line(out, at, b"Connection: ", b"close")
}

fn put_head(
    out: &mut [u8; 1024],
    status: u16,
    content_type: Option<&[u8]>,
    size: Option<u64>,
    closes: bool,
) -> usize
    requires { IfSome content_type (λ t. length t.now ≤ 255) }
    ensures within { result ≤ 512 }
    ensures text { take result out.new ≡ head_of status (option_map (λ t. t.now) content_type.entry) size closes }
{
    let at = put_status(out, status);
    let at = put_type(out, at, content_type);
    let at = put_length(out, at, size);
    let at = put_allow(out, at, status);
    let at = put_close(out, at, closes);
    put(out, at, b"\r\n")
}

/// Writes the head of a response and returns its length: its status, the type and the length of its body, and whether the
/// session ends after it.
pub fn response_head(
    status: u16,
    content_type: Option<&ContentType>,
    size: Option<u64>,
    closes: bool,
    out: &mut [u8; 1024],
) -> usize
    ensures within { result ≤ 1024 }
    ensures text { take result out.new ≡ head_of status (option_map (λ t. t.now) content_type.entry) size closes }
{
    match content_type {
        Some(content_type) => put_head(out, status, Some(content_type.as_bytes()), size, closes),
        None => put_head(out, status, None, size, closes),
    }
}

/// Writes the response of a refusal and returns its length: its words as plain text and a line feed, or the head alone.
pub fn refusal_response(
    status: u16,
    words: &[u8],
    bare: bool,
    closes: bool,
    out: &mut [u8; 1024],
) -> usize
    requires { length words.now ≤ 128 }
    ensures within { result ≤ 1024 }
    ensures text { take result out.new ≡ refused_with bare closes (why status words.now) }
{
    let size = words.len() as u64 + 1;
    let at = put_head(out, status, Some(b"text/plain"), Some(size), closes);
    if bare {
        return at;
    }
    let at = put(out, at, words);
    put(out, at, b"\n")
}
