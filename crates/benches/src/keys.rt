use crate::stop::Stop;
use nx_base::{AssetPath, Key, RepoName};
use std::alloc::Global;

/// The key with that number. Keys are in the order of their numbers.
pub fn key(alloc: Global, number: u64) -> Result<Key, Stop> {
    let path = format!(in alloc; "p/{number:010}")?;
    Ok(Key {
        repo: RepoName::parse(alloc, b"files")?,
        path: AssetPath::parse(alloc, path.as_bytes())?,
    })
}
