ghost use Rattle.http_requests.specs.Found.{HasPrefix, HasOpening, HasRequests};

use http_chunks::some_reading;
use http_heads::{HEAD_LIMIT, blank_len, head_len, some_answer};

// A stream ends, or a head is refused or asked for.
fn some_prefix(bytes: &[u8])
    ensures { HasPrefix bytes.now }
{
    let window = &bytes[..bytes.len().min(HEAD_LIMIT)];
    let Some(len) = head_len(window, 0) else {
        return;
    };
    some_answer(&bytes[..len]);
    some_reading(&bytes[len..]);
}

// The same behind the line ends in front.
fn some_opening(bytes: &[u8])
    ensures { HasOpening bytes.now }
{
    let blank = blank_len(bytes);
    some_prefix(&bytes[blank..]);
}

/// A law: each stream holds a list of requests. What stands in front of each rest of it is looked at.
pub fn some_list(bytes: &[u8])
    ensures { HasRequests bytes.now }
{
    for at in 0..bytes.len() {
        some_opening(&bytes[at..]);
    }
}
