ghost use Rattle.std.specs.Prelude.{◌≡◌, ◌+◌, ◌<◌, ◌≤◌, ◌↔◌, IsTrue, IfSome, IfNone, length, take, drop};
ghost use Rattle.http_heads.specs.Cut.{drop_blank, EndsHead, IsHeadLen, HasNoHead};

/// How many bytes of line ends stand in front. A lone CR at the end is none of them, since LF may follow.
pub fn blank_len(bytes: &[u8]) -> usize
    ensures within { result ≤ length bytes.now }
    ensures rest { drop result bytes.now ≡ drop_blank bytes.now }
{
    let mut at = 0;
    while at < bytes.len() {
        if bytes[at] == b'\n' {
            at += 1;
        } else if bytes[at] == b'\r' && at + 1 < bytes.len() && bytes[at + 1] == b'\n' {
            at += 2;
        } else {
            return at;
        }
    }
    at
}

// Whether the first `last + 1` bytes end with an empty line.
fn ends_at(bytes: &[u8], last: usize) -> bool
    requires { last < length bytes.now }
    ensures { IsTrue result ↔ EndsHead (take (last + 1) bytes.now) }
{
    if bytes[last] != b'\n' || last == 0 {
        return false;
    }
    if bytes[last - 1] == b'\n' {
        return true;
    }
    if bytes[last - 1] != b'\r' || last == 1 {
        return false;
    }
    bytes[last - 2] == b'\n'
}

/// The length of the head in front: of the shortest prefix that ends with an empty line. The caller may say how many bytes
/// it has scanned before without finding one, so that bytes that come piece by piece are scanned once.
pub fn head_len(bytes: &[u8], scanned: usize) -> Option<usize>
    requires within { scanned ≤ length bytes.now }
    requires none_yet { HasNoHead (take scanned bytes.now) }
    ensures found { IfSome result (IsHeadLen bytes.now) }
    ensures none { IfNone result (HasNoHead bytes.now) }
{
    for last in scanned..bytes.len() {
        if ends_at(bytes, last) {
            return Some(last + 1);
        }
    }
    None
}
