//! The requests of a text.
ghost use Rattle.http_front.specs.Looks.{IsLook};
ghost use Rattle.std.specs.Prelude.{◌≤◌, IfOk, length};

use http_chunks::{ChunkStep, Chunks};
use http_front::{Look, look_at};
use http_heads::{Framing, Head, blank_len};
use std::alloc::{AllocError, Global};

/// A content that is read off a text: what is said of it, and where it ends.
#[derive(Drop)]
struct Content {
    said: String,
    end: usize,
}

/// Reads a content of so many bytes.
fn sized(alloc: Global, text: &[u8], from: usize, size: u64) -> Result<Content, AllocError>
    requires { from ≤ length text.now }
    ensures { IfOk result (λ content. content.end ≤ length text.now) }
{
    let there = text.len() - from;
    if (there as u64) < size {
        let said = format!(in alloc; "cut {there}")?;
        return Ok(Content {
            said,
            end: text.len(),
        });
    }
    let said = format!(in alloc; "whole {size}")?;
    Ok(Content {
        said,
        end: from + size as usize,
    })
}

/// Reads a chunked content.
fn chunked(alloc: Global, text: &[u8], from: usize) -> Result<Content, AllocError>
    requires { from ≤ length text.now }
    ensures { IfOk result (λ content. content.end ≤ length text.now) }
{
    let mut chunks = Chunks::new();
    let mut at = from;
    let mut size = 0_u64;
    let mut last = ChunkStep::Need;
    for _ in 0..u64::MAX {
        match chunks.next(&text[at..]) {
            ChunkStep::Framing { length } => at += length,
            ChunkStep::Content { length } => {
                at += length;
                size = size.saturating_add(length as u64);
            }
            step => {
                last = step;
                break;
            }
        }
    }
    let said = match last {
        ChunkStep::End => format!(in alloc; "whole {size}")?,
        ChunkStep::Need => format!(in alloc; "cut {size}")?,
        refusal => format!(in alloc; "stopped {size} {refusal:?}")?,
    };
    Ok(Content { said, end: at })
}

fn content_behind(
    alloc: Global,
    text: &[u8],
    from: usize,
    head: &Head,
) -> Result<Content, AllocError>
    requires { from ≤ length text.now }
    ensures { IfOk result (λ content. content.end ≤ length text.now) }
{
    match head.framing {
        Framing::None => sized(alloc, text, from, 0),
        Framing::Length(size) => sized(alloc, text, from, size),
        Framing::Chunked => chunked(alloc, text, from),
    }
}

/// The head in front of what is left of a text.
fn next_head(alloc: Global, rest: &[u8]) -> Look
    ensures { IsLook rest.now result }
{
    look_at(alloc, rest, 0)
}

/// The requests of a text, each with a bar behind it, and how it ends.
pub(crate) fn read(alloc: Global, text: &[u8]) -> Result<String, AllocError> {
    let mut said = String::new(alloc);
    let mut at = 0;
    for _ in 0..u64::MAX {
        at += blank_len(&text[at..]);
        match next_head(alloc, &text[at..]) {
            Look::NoMemory => return String::from_str(alloc, "no memory"),
            Look::Open => {
                said.push_str(if at < text.len() { "inside" } else { "end" })?;
                return Ok(said);
            }
            Look::Refused { why, bare } => {
                let item = format!(in alloc; "refused {why:?} {bare} |")?;
                said.push_str(item.as_str())?;
                return Ok(said);
            }
            Look::Head { head, length } => {
                let content = content_behind(alloc, text, at + length, &head)?;
                let method = head.method;
                let path = head.key.path.as_str();
                let item = format!(in alloc; "{method:?} {path} {} |", content.said.as_str())?;
                said.push_str(item.as_str())?;
                if head.closes || !content.said.as_str().starts_with("whole") {
                    return Ok(said);
                }
                at = content.end;
            }
        }
    }
    Ok(said)
}
