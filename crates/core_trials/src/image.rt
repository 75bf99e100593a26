//! The contents of an image, read from its files.

use crate::script::{Contents, Path, Text};
use crate::stop::Stop;
use blob_properties::{BlobProps, PropsRead, read_blob};
use disk_model::{Disk, MemDisk};
use nx_base::Name;
use sha1::Sha1;
use std::alloc::Global;

const STORE: &str = "default";

const PROPERTIES: &str = ".properties";

const BYTES: &str = ".bytes";

/// What a properties file makes of its blob.
#[derive(Clone, Copy)]
enum Found {
    /// It isn't readable, its blob is deleted, or the bytes aren't those that it describes.
    Nothing,
    Blob {
        path: Path,
        text: Text,
        timestamp: u64,
    },
    /// A blob that the script doesn't make.
    Stray,
}

/// The blob with these properties and these bytes.
fn blob_of(props: &BlobProps, bytes: &[u8]) -> Found {
    let is_whole = bytes.len() as u64 == props.size && Sha1::digest(bytes) == props.sha1;
    if !is_whole || props.deleted.is_some() {
        return Found::Nothing;
    }
    let is_ours = props.key.repo.as_bytes() == b"files".as_slice();
    match (Path::of(props.key.path.as_bytes()), Text::of(bytes)) {
        (Some(path), Some(text)) if is_ours => Found::Blob {
            path,
            text,
            timestamp: props.timestamp,
        },
        _ => Found::Stray,
    }
}

/// The name of the bytes that belong to a properties file.
fn bytes_name(alloc: Global, prefix: &str) -> Result<Name, Stop> {
    let text = format!(in alloc; "{prefix}{BYTES}")?;
    Ok(Name::parse(alloc, &text)?)
}

/// The blob of a file.
fn blob_at(alloc: Global, image: &MemDisk, name: &Name) -> Result<Found, Stop> {
    let Some(prefix) = name.as_str().strip_suffix(PROPERTIES) else {
        return Ok(Found::Nothing);
    };
    let Some(text) = image.value(name) else {
        return Ok(Found::Nothing);
    };
    let PropsRead::Good(props) = read_blob(alloc, text)? else {
        return Ok(Found::Nothing);
    };
    match image.value(&bytes_name(alloc, prefix)?) {
        Some(bytes) => Ok(blob_of(&props, bytes)),
        None => Ok(Found::Nothing),
    }
}

/// The newest timestamp of each path, and the contents that go with them.
#[derive(Clone, Copy)]
struct Newest {
    contents: Contents,
    changed: Option<u64>,
    kept: Option<u64>,
}

impl Newest {
    const NONE: Newest = Newest {
        contents: Contents::NONE,
        changed: None,
        kept: None,
    };

    /// With a blob more.
    fn see(&mut self, path: Path, text: Text, timestamp: u64) {
        let newest = match path {
            Path::Changed => &mut self.changed,
            Path::Kept => &mut self.kept,
        };
        if newest.is_none_or(|before| before < timestamp) {
            *newest = Some(timestamp);
            self.contents = self.contents.with(path, Some(text));
        }
    }
}

/// The contents of an image: of each key its newest blob that is whole and not deleted. None where there is one that the script
/// doesn't make.
pub fn contents_in(alloc: Global, image: &mut MemDisk) -> Result<Option<Contents>, Stop> {
    let names = image.list(&Name::parse(alloc, STORE)?)?;
    let mut newest = Newest::NONE;
    for name in &names {
        match blob_at(alloc, image, name)? {
            Found::Nothing => {}
            Found::Blob {
                path,
                text,
                timestamp,
            } => newest.see(path, text, timestamp),
            Found::Stray => return Ok(None),
        }
    }
    Ok(Some(newest.contents))
}

/// The names of all files of blobs.
pub fn blob_names(alloc: Global, disk: &mut MemDisk) -> Result<Vec<Name>, Stop> {
    Ok(disk.list(&Name::parse(alloc, STORE)?)?)
}

/// How many images a crash may leave now, where no other names than these have several values.
pub fn image_count(disk: &MemDisk, names: &[Name]) -> Result<u64, Stop> {
    let mut count = 1u64;
    for name in names {
        let values = disk.values_at(disk.clock(), name)?.len() as u64;
        count = count.saturating_mul(values);
    }
    Ok(count)
}
