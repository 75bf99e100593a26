ghost use Rattle.std.specs.Prelude.{IfSome, IfNone, length};
ghost use Rattle.http_chunks.specs.Trailers.{IsFirstFeed, HasNoFeed};

/// Where the first line feed stands.
pub(crate) fn first_feed(bytes: &[u8]) -> Option<usize>
    ensures some { IfSome result (IsFirstFeed bytes.now) }
    ensures none { IfNone result (HasNoFeed (length bytes.now) bytes.now) }
{
    for (at, byte) in bytes.iter().enumerate() {
        if *byte == b'\n' {
            return Some(at);
        }
    }
    None
}
