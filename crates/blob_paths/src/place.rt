//! The place of a blob and the names of its files, both ways.
ghost use Rattle.std.specs.Prelude.{◌≡◌, ◌≢◌, ◌↔◌, ℕ, ◌+◌, ◌<◌, ◌≤◌, List, ◌++◌, length, Ok, IsTrue, IfOk, IfSome, IfNone};
ghost use Rattle.std.specs.Str.{IsUtf8};
ghost use Rattle.nx_base.specs.Names.{store_name_of};
ghost use Rattle.nx_base.specs.Paths.{file_name_of};
ghost use Rattle.blob_paths.specs.Hash.{tier_of};
ghost use Rattle.blob_paths.specs.Ids.{IsId};
ghost use Rattle.blob_paths.specs.Places.{two_digits, folders_of, HasRoom, volume_place, place_of, file_at, IsOutsideTmp};
ghost use Rattle.blob_paths.specs.Parts.{AreParts};
ghost use Rattle.blob_paths.specs.declared.ending.Ending.{Ending};

use crate::ending::Ending;
use crate::hash::tier;
use nx_base::{BlobId, BlobRef, Layout, Name, NameErr, NoMemory, StoreName};
use std::alloc::Global;
use std::str::from_utf8;

/// The length of the folders between a store and an id.
const FOLDERS_LENGTH: usize = 24;

/// The length of an id's text.
const ID_LENGTH: usize = 36;

/// The two digits of a number.
fn two_digits(number: u32) -> [u8; 2]
    requires { number < 100 }
    ensures { result ≡ two_digits number }
{
    [b'0' + (number / 10) as u8, b'0' + (number % 10) as u8]
}

/// The folders between a store and the text of an id.
fn folders(text: &[u8]) -> [u8; 24]
    ensures { result ≡ folders_of text.now }
{
    let (volume, chapter) = tier(text);
    let volume = two_digits(volume);
    let chapter = two_digits(chapter);
    let mut folders = *b"/content/vol-00/chap-00/";
    folders[13] = volume[0];
    folders[14] = volume[1];
    folders[21] = chapter[0];
    folders[22] = chapter[1];
    folders
}

/// One text behind another.
fn joined(alloc: Global, prefix: &[u8], back: &[u8]) -> Result<Vec<u8>, NoMemory>
    ensures { IfOk result (λ text. text.items ≡ prefix.now ++ back.now) }
{
    let mut text = Vec::from_slice(alloc, prefix).map_err(|_| NoMemory)?;
    text.extend_from_slice(back).map_err(|_| NoMemory)?;
    Ok(text)
}

/// The name that a text is.
fn named(alloc: Global, text: &[u8]) -> Result<Name, NoMemory>
    requires utf8 { IsUtf8 text.now }
    requires name { file_name_of text.now ≡ Ok text.now }
    ensures { IfOk result (λ name. name ≡ text.now) }
{
    let Ok(text) = from_utf8(text) else {
        unreachable!();
    };
    match Name::parse(alloc, text) {
        Ok(name) => Ok(name),
        Err(NameErr::NoMemory) => Err(NoMemory),
        Err(_) => unreachable!(),
    }
}

/// The text of the place of an id in a store.
fn place_text(alloc: Global, store: &StoreName, id: &BlobId) -> Result<Vec<u8>, NoMemory>
    ensures text { IfOk result (λ text. text.items ≡ volume_place store.now id.now) }
    ensures store { store_name_of store.now ≡ Ok store.now }
{
    let id = id.text();
    let prefix = joined(alloc, store.as_bytes(), folders(&id).as_slice())?;
    joined(alloc, prefix.as_slice(), id.as_slice())
}

/// The place of a blob: the name of each of its files without the ending.
///
/// Today blobs are placed by volume and chapter alone.
pub fn location(alloc: Global, blob: &BlobRef, layout: Layout) -> Result<Name, NoMemory>
    requires volume { layout ≡ Layout.Volume }
    ensures place { IfOk result (λ name. name ≡ place_of blob.now) }
    ensures room { IfOk result (λ name. HasRoom name) }
    ensures outside { IfOk result (λ name. (ending : Ending) → IsOutsideTmp (file_at name ending)) }
{
    let text = place_text(alloc, &blob.store, &blob.id)?;
    named(alloc, text.as_slice())
}

/// The name of one of the two files at a place.
pub fn file_name(alloc: Global, place: &Name, ending: Ending) -> Result<Name, NoMemory>
    requires room { HasRoom place.now }
    ensures name { IfOk result (λ name. name ≡ file_at place.now ending) }
{
    let text = joined(alloc, place.as_str().as_bytes(), ending.text())?;
    named(alloc, text.as_slice())
}

/// The parts of a name that has the length of a file's: what stands before the folders, the folders, the text of the id,
/// and what stands behind it.
#[derive(Drop)]
struct Parts<'a> {
    prefix: &'a [u8],
    folders: &'a [u8],
    text: &'a [u8],
    end: &'a [u8],
}

/// Cuts a name into its parts, the first of which has this length.
fn cut(name: &[u8], prefix: usize) -> Parts<'_>
    requires { prefix + 60 ≤ length name.now }
    ensures parts { AreParts name.now result.prefix.now result.folders.now result.text.now result.end.now }
    ensures prefix { length result.prefix.now ≡ prefix }
{
    let (prefix, rest) = name.split_at(prefix);
    let (folders, rest) = rest.split_at(FOLDERS_LENGTH);
    let (text, end) = rest.split_at(ID_LENGTH);
    Parts {
        prefix,
        folders,
        text,
        end,
    }
}

/// Whether the parts of a name are those of the file of the id whose text is among them.
fn are_those(parts: &Parts<'_>, store: &[u8], ending: &[u8]) -> bool
    ensures { IsTrue result ↔ ((parts.now.prefix.now ≡ store.now)
        × (parts.now.folders.now ≡ folders_of parts.now.text.now) × (parts.now.end.now ≡ ending.now)) }
{
    parts.prefix == store && parts.end == ending && parts.folders == folders(parts.text).as_slice()
}

/// The id of which a name is that of the file with this ending.
fn id_with(store: &[u8], name: &[u8], ending: Ending) -> Option<BlobId>
    ensures found { IfSome result (λ id. name.now ≡ file_at (volume_place store.now id) ending) }
    ensures none { IfNone result ((id : List ℕ) → name.now ≢ file_at (volume_place store.now id) ending) }
{
    let ending = ending.text();
    if name.len() != store.len() + FOLDERS_LENGTH + ID_LENGTH + ending.len() {
        return None;
    }
    let parts = cut(name, store.len());
    let Ok(id) = BlobId::parse(parts.text) else {
        return None;
    };
    if are_those(&parts, store, ending) {
        Some(id)
    } else {
        None
    }
}

/// The id of the blob of a store that has a file of this name, and which of its files that is; None exactly where the name
/// is that of no file of any id. It takes no memory.
pub fn id_of_name(store: &StoreName, name: &Name) -> Option<(BlobId, Ending)>
    ensures found { IfSome result (λ file. name.now ≡ file_at (volume_place store.now file.0) file.1) }
    ensures none { IfNone result ((id : List ℕ) (ending : Ending) → name.now ≢ file_at (volume_place store.now id) ending) }
{
    let (store, name) = (store.as_bytes(), name.as_bytes());
    if let Some(id) = id_with(store, name, Ending::Bytes) {
        return Some((id, Ending::Bytes));
    }
    let id = id_with(store, name, Ending::Properties)?;
    Some((id, Ending::Properties))
}
