//! Uploads a content of so many parts of 32 KiB of the letter `A` into a file that keeps nothing, then one byte more, and tells
//! the size, the SHA-1 and whether that byte was refused: of 32,768 parts it is one too many.
ghost use Rattle.std.specs.Prelude.{IsSome, IfOk};

use crate::drain::Drain;
use crate::stop::Stop;
use blob_files::{Ready, Upload};
use nx_base::{AssetPath, ContentType, Key, RepoName, StoreName};
use repo_model::{Begin, Kind, UploadErr};
use std::alloc::Global;

/// An upload of which nothing was taken.
fn begun(alloc: Global) -> Result<Upload<Drain>, Stop>
    ensures { IfOk result (λ upload. IsSome upload.target) }
{
    let begin = Begin {
        key: Key {
            repo: RepoName::parse(alloc, b"files")?,
            path: AssetPath::parse(alloc, b"a")?,
        },
        content_type: ContentType::parse(alloc, b"text/plain")?,
        kind: Kind::Put,
    };
    let store = StoreName::parse(alloc, b"default")?;
    Ok(Upload::new(begin, store, Drain))
}

/// Writes so many parts.
fn write_parts(upload: &mut Upload<Drain>, parts: u64) -> Result<(), Stop>
    requires { IsSome upload.old.target }
    ensures { IsSome upload.new.target }
{
    let part = [b'A'; 32_768];
    for _ in 0..parts {
        upload.write(&part)?;
    }
    Ok(())
}

/// What became of a content: its size, its SHA-1, and whether one byte more was refused.
#[derive(Drop)]
struct Sum {
    size: u64,
    sha1: [u8; 20],
    refused: bool,
}

/// Writes so many parts into the upload and one byte more, and seals it.
fn fill(upload: &mut Upload<Drain>, parts: u64) -> Result<Sum, Stop>
    requires { IsSome upload.old.target }
{
    write_parts(upload, parts)?;
    let refused = match upload.write(b"A") {
        Ok(()) => false,
        Err(UploadErr::BodyTooLarge) => true,
        Err(e) => return Err(Stop::Upload(e)),
    };
    let Ready {
        file,
        begin: _,
        store: _,
        size,
        sha1,
    } = upload.seal()?;
    file.end();
    Ok(Sum {
        size,
        sha1,
        refused,
    })
}

/// One upload of so many parts.
fn measure_one(rt: &HostRuntime, parts: u64) -> Result<(), Stop> {
    let mut upload = begun(rt.alloc())?;
    let filled = fill(&mut upload, parts);
    upload.abort();
    let Sum {
        size,
        sha1,
        refused,
    } = filled?;
    let more = if refused { "refused" } else { "taken" };
    let digest = hex::encode(rt.alloc(), sha1)?;
    println!(rt; "size {size} sha1 {digest} one more {more}")?;
    Ok(())
}

/// So many uploads of so many parts each.
pub fn measure(rt: &HostRuntime, parts: u64, turns: u64) -> Result<(), Stop> {
    for _ in 0..turns {
        measure_one(rt, parts)?;
    }
    Ok(())
}
