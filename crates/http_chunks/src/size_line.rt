ghost use Rattle.std.specs.Prelude.{◌≡◌, take, length};
ghost use Rattle.http_chunks.specs.Lines.{line_limit, GivesLine, IsLineWithin};

use httparse::{Status, parse_chunk_size};

/// The most bytes of a size line, with its end.
const LINE_LIMIT: usize = 1_024;

/// What stands in front of bytes where a size line is wanted.
#[derive(Clone, Copy, Debug, PartialEq, Eq)]
pub(crate) enum LineStep {
    Line { length: usize, size: u64 },
    Need,
    Bad,
}

// The first bytes, as many as a size line may have.
#[tactic(auto, unfolding(crate::specs::Lines::line_limit))]
fn prefix(bytes: &[u8]) -> &[u8]
    ensures { result.now ≡ take line_limit bytes.now }
{
    if bytes.len() > LINE_LIMIT {
        &bytes[..LINE_LIMIT]
    } else {
        bytes
    }
}

/// Reads the size line in front.
#[tactic(auto, unfolding(crate::specs::Lines::line_limit))]
pub(crate) fn size_line(bytes: &[u8]) -> LineStep
    ensures line { GivesLine bytes.now result }
    ensures within { IsLineWithin (length bytes.now) result }
{
    match parse_chunk_size(prefix(bytes)) {
        Ok(Status::Complete((length, size))) => LineStep::Line { length, size },
        Ok(Status::Partial) => {
            if bytes.len() < LINE_LIMIT {
                LineStep::Need
            } else {
                LineStep::Bad
            }
        }
        Err(_) => LineStep::Bad,
    }
}
