ghost use Rattle.std.specs.Prelude.{◌≡◌};
ghost use Rattle.http_heads.specs.Found.{HasAnswer};

use crate::head::is_too_long;
use crate::parse::parse_head;
use httparse::spans::EMPTY_HEADER_SPAN;

/// A law: each text has an answer that is no want of memory.
pub fn some_answer(text: &[u8])
    ensures { HasAnswer text.now }
{
    if is_too_long(text) {
        return;
    }
    let mut fields = [EMPTY_HEADER_SPAN; 64];
    let _parse = parse_head(text, &mut fields);
}
