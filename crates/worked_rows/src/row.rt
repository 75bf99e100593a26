//! A row, and the answer to its text.
use crate::{
    blobs, chunks, configs, heads, judging, names, places, properties, requests, sending, text,
};
use std::alloc::{AllocError, Global};

fn about_others(alloc: Global, kind: &str, text: &[u8]) -> Result<String, AllocError> {
    match kind {
        "may-be-written" => judging::may_be_written(alloc, text),
        "age" => judging::age(alloc, text),
        "notes" => judging::notes(alloc, text),
        "holds" => judging::holds(alloc),
        _ => String::from_str(alloc, "no such kind"),
    }
}

fn about_blobs(alloc: Global, kind: &str, text: &[u8]) -> Result<String, AllocError> {
    match kind {
        "unmarked" => blobs::unmarked(alloc, text),
        "marked" => blobs::marked(alloc, text),
        "blob-pairs" => blobs::pairs(alloc, text),
        "marked-pairs" => blobs::marked_pairs(alloc, text),
        _ => about_others(alloc, kind, text),
    }
}

fn about_places(alloc: Global, kind: &str, text: &[u8]) -> Result<String, AllocError> {
    match kind {
        "hash" => places::hash(alloc, text),
        "files-of" => places::files_of(alloc, text),
        "blob-of" => places::blob_of(alloc, text),
        _ => about_blobs(alloc, kind, text),
    }
}

fn about_responses(alloc: Global, kind: &str, text: &[u8]) -> Result<String, AllocError> {
    match kind {
        "refusal" => sending::refusal(alloc, text),
        "refused-content" => sending::refused_content(alloc, text),
        "response" => sending::response(alloc, text),
        _ => about_places(alloc, kind, text),
    }
}

fn about_requests(alloc: Global, kind: &str, text: &[u8]) -> Result<String, AllocError> {
    match kind {
        "head" => heads::read(alloc, text),
        "head-is-ok" => heads::is_ok(alloc, text),
        "requests" => requests::read(alloc, text),
        _ => about_responses(alloc, kind, text),
    }
}

fn about_chunks(alloc: Global, kind: &str, text: &[u8]) -> Result<String, AllocError> {
    match kind {
        "chunks" => chunks::in_pieces(alloc, text),
        "long-chunks" => chunks::read(alloc, text, 1_000),
        "largest-content" => chunks::largest(alloc),
        _ => about_requests(alloc, kind, text),
    }
}

fn about_configs(alloc: Global, kind: &str, text: &[u8]) -> Result<String, AllocError> {
    match kind {
        "config" => configs::read(alloc, text),
        "config-holds" => configs::holds(alloc, text),
        "config-sha1" => configs::sha1(alloc, text),
        _ => about_chunks(alloc, kind, text),
    }
}

fn about_properties(alloc: Global, kind: &str, text: &[u8]) -> Result<String, AllocError> {
    match kind {
        "properties" => properties::written(alloc, text),
        "behind-256-keys" => properties::behind_keys(alloc, text),
        "set" => properties::set(alloc, text),
        "set-behind-256-keys" => properties::set_behind_keys(alloc, text),
        _ => about_configs(alloc, kind, text),
    }
}

fn about_texts(alloc: Global, kind: &str, text: &[u8]) -> Result<String, AllocError> {
    match kind {
        "file-name" => names::file_name(alloc, text),
        "content-type" => names::content_type(alloc, text),
        "id" => names::id(alloc, text),
        "id-of-time" => names::id_of_time(alloc, text),
        _ => about_properties(alloc, kind, text),
    }
}

fn answer(alloc: Global, kind: &str, text: &[u8]) -> Result<String, AllocError> {
    match kind {
        "repo-name" => names::repo_name(alloc, text),
        "store-name" => names::store_name(alloc, text),
        "policy-name" => names::policy_name(alloc, text),
        "path" => names::path(alloc, text),
        _ => about_texts(alloc, kind, text),
    }
}

fn judged(
    alloc: Global,
    line: &str,
    asked: &str,
    want: &str,
) -> Result<Option<String>, AllocError> {
    let (kind, text) = asked.split_once(' ').unwrap_or((asked, ""));
    let text = text::unpacked(alloc, text)?;
    let want = text::unpacked(alloc, want)?;
    let said = answer(alloc, kind, text.as_slice())?;
    if said.as_bytes() == want.as_slice() {
        return Ok(None);
    }
    Ok(Some(format!(in alloc; "{line}: {said}")?))
}

/// The row with its answer, where that isn't the one that is wanted.
pub(crate) fn complaint(alloc: Global, line: &str) -> Result<Option<String>, AllocError> {
    match line.split_once(" => ") {
        Some((asked, want)) => judged(alloc, line, asked, want),
        None => Ok(Some(format!(in alloc; "{line}: no row")?)),
    }
}
