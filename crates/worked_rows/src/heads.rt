//! Heads of requests.
use http_heads::{Head, read_head};
use std::alloc::{AllocError, Global};

/// What an accepted head asks for.
fn line(alloc: Global, head: &Head) -> Result<String, AllocError> {
    let (method, framing) = (head.method, head.framing);
    let repo = head.key.repo.as_str();
    let path = head.key.path.as_str();
    let content_type = head.content_type.as_str();
    let waits = if head.expects { " waits" } else { "" };
    let closes = if head.closes { " closes" } else { "" };
    format!(in alloc; "{method:?} {repo} {path} {framing:?} {content_type}{waits}{closes}")
}

/// What a text is read as.
pub(crate) fn read(alloc: Global, text: &[u8]) -> Result<String, AllocError> {
    match read_head(alloc, text) {
        Ok(head) => line(alloc, &head),
        Err(why) => format!(in alloc; "{why:?}"),
    }
}

/// Whether it is accepted.
pub(crate) fn is_ok(alloc: Global, text: &[u8]) -> Result<String, AllocError> {
    match read_head(alloc, text) {
        Ok(_) => String::from_str(alloc, "Ok"),
        Err(why) => format!(in alloc; "{why:?}"),
    }
}
