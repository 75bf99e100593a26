//! Where files of blobs lie.
ghost use Rattle.blob_paths.specs.Places.{HasRoom};

use crate::text::as_text;
use blob_paths::{Ending, file_name, id_of_name, java_hash, location, tier};
use nx_base::{BlobId, BlobRef, Layout, Name, NameErr, StoreName};
use std::alloc::{AllocError, Global};

/// Java's hash of the text, and its volume and chapter.
pub(crate) fn hash(alloc: Global, text: &[u8]) -> Result<String, AllocError> {
    let hash = java_hash(text);
    let (volume, chapter) = tier(text);
    format!(in alloc; "{hash} {volume} {chapter}")
}

/// The blob with that id of the store `default`.
fn blob(alloc: Global, id: &[u8]) -> Result<BlobRef, NameErr> {
    Ok(BlobRef {
        store: StoreName::parse(alloc, b"default")?,
        id: BlobId::parse(id)?,
        timestamp: 1_700_000_000_000,
    })
}

fn file(alloc: Global, place: &Name, ending: Ending) -> Result<String, AllocError>
    requires { HasRoom place.now }
{
    match file_name(alloc, place, ending) {
        Ok(name) => String::from_str(alloc, name.as_str()),
        Err(why) => format!(in alloc; "{why:?}"),
    }
}

fn files(alloc: Global, blob: &BlobRef) -> Result<String, AllocError> {
    match location(alloc, blob, Layout::Volume) {
        Ok(place) => {
            let bytes = file(alloc, &place, Ending::Bytes)?;
            let properties = file(alloc, &place, Ending::Properties)?;
            format!(in alloc; "{bytes} {properties}")
        }
        Err(why) => format!(in alloc; "{why:?}"),
    }
}

/// The two files of the blob with that id.
pub(crate) fn files_of(alloc: Global, text: &[u8]) -> Result<String, AllocError> {
    match blob(alloc, text) {
        Ok(blob) => files(alloc, &blob),
        Err(why) => format!(in alloc; "{why:?}"),
    }
}

fn found(alloc: Global, store: &StoreName, name: &Name) -> Result<String, AllocError> {
    match id_of_name(store, name) {
        Some((id, ending)) => {
            let id = crate::text::characters(alloc, &id.text())?;
            format!(in alloc; "{id} {ending:?}")
        }
        None => String::from_str(alloc, "None"),
    }
}

/// Of which blob of the store `default` the name is, and of which of its files.
pub(crate) fn blob_of(alloc: Global, text: &[u8]) -> Result<String, AllocError> {
    match (
        StoreName::parse(alloc, b"default"),
        Name::parse(alloc, as_text(text)),
    ) {
        (Ok(store), Ok(name)) => found(alloc, &store, &name),
        _ => String::from_str(alloc, "no names"),
    }
}
