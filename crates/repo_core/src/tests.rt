//! A worked session over the disk and the table in memory, with ample memory.
ghost use Rattle.std.specs.Prelude.{◌≡◌, IfOk, Some, None, slice_get};

use crate::folder::open_folder;
use crate::opening::Opening;
use crate::repository::Core;
use asset_keeper::{Generation, MapKeeper};
use blob_files::Download;
use disk_model::{MemDisk, Reader};
use nx_base::{AssetPath, ContentType, Key, Moment, NoMemory, RepoName};
use repo_config::Config;
use repo_model::{Begin, GotOf, Kind, Look, Refusal};
use std::alloc::Global;
use std::test::Fail;

/// One hosted repository `files` in one file store `default`.
const CONFIG: &[u8] = b"stores=default\nrepositories=files\nrepo.files.store=default\n";

fn config(alloc: Global) -> Result<Config, Fail> {
    match Config::read(alloc, CONFIG) {
        Ok(config) => Ok(config),
        Err(_) => Err(NoMemory)?,
    }
}

fn key(alloc: Global, path: &[u8]) -> Result<Key, Fail> {
    Ok(Key {
        repo: RepoName::parse(alloc, b"files")?,
        path: AssetPath::parse(alloc, path)?,
    })
}

fn moment(now: u64) -> Moment {
    Moment {
        now,
        random: [0; 10],
    }
}

/// Begins an upload, feeds it, and puts it. Whether all of it went well.
fn put(
    alloc: Global,
    core: &mut Core<MemDisk, MapKeeper>,
    path: &[u8],
    content: &[u8],
    now: u64,
) -> Result<bool, Fail>
    ensures { core.new.holds ≡ core.old.holds }
{
    let begin = Begin {
        key: key(alloc, path)?,
        content_type: ContentType::parse(alloc, b"text/plain")?,
        kind: Kind::Put,
    };
    let Ok(mut upload) = core.begin(0, begin) else {
        return Ok(false);
    };
    if upload.write(content).is_err() {
        core.end_upload(0, upload);
        return Ok(false);
    }
    let ready = match upload.seal() {
        Ok(ready) => ready,
        Err(_) => {
            core.end_upload(0, upload);
            return Ok(false);
        }
    };
    upload.abort();
    match core.commit_put(0, ready, moment(now)) {
        Ok(_) => Ok(true),
        Err(_) => Ok(false),
    }
}

fn fresh(alloc: Global) -> Result<Core<MemDisk, MapKeeper>, Fail>
    ensures { IfOk result (λ core. slice_get core.holds 0 ≡ Some None) }
{
    let disk = MemDisk::new(alloc, Vec::new(alloc), Vec::new(alloc), None)?;
    let generation = Generation {
        number: 0,
        random: [0; 10],
    };
    let table = MapKeeper::new(alloc, Vec::new(alloc), generation, Vec::new(alloc))?;
    let opening = Opening {
        config: config(alloc)?,
        passes: 1,
        undelete: false,
        random: [0; 10],
    };
    match open_folder(alloc, disk, table, opening) {
        Ok(core) => Ok(core),
        Err(_) => Err(NoMemory)?,
    }
}

/// The first bytes of a download.
fn first_bytes<R: Reader>(download: &mut Download<R>) -> [u8; 4] {
    let mut bytes = [0u8; 4];
    let _count = download.read(&mut bytes);
    bytes
}

/// The timestamp, the size and the first bytes of what a key has.
fn got(core: &mut Core<MemDisk, MapKeeper>, key: Key, now: u64) -> Option<(u64, u64, [u8; 4])>
    requires { slice_get core.old.holds 0 ≡ Some None }
{
    match core.get(0, key, Look::Get, moment(now)) {
        Ok(
            GotOf::Hit {
                asset,
                mut download,
            },
        ) => {
            let bytes = first_bytes(&mut download);
            core.end_get(0, download);
            Some((asset.blob.timestamp, asset.size, bytes))
        }
        Ok(GotOf::Seen { .. }) | Ok(GotOf::NeedFetch { .. }) | Err(_) => None,
    }
}

/// Whether there was a content to delete. None where the deletion was refused for another cause.
fn deleted(core: &mut Core<MemDisk, MapKeeper>, key: Key) -> Option<bool> {
    match core.delete(0, key, moment(0)) {
        Ok(()) => Some(true),
        Err(Refusal::NotFound) => Some(false),
        Err(_) => None,
    }
}

#[test]
fn a_put_is_got_and_deleted(rt: HostRuntime) -> Result<(), Fail> {
    let alloc = rt.alloc();
    let mut core = fresh(alloc)?;
    assert!(rt; put(alloc, &mut core, b"a/b.txt", b"abc", 1_700_000_000_000)?);
    assert!(rt; put(alloc, &mut core, b"a/b.txt", b"defg", 1_700_000_000_000)?);
    let path = key(alloc, b"a/b.txt")?;
    let got = got(&mut core, path, 1_700_000_000_001);
    assert_eq!(rt; got, Some((1_700_000_000_001, 4, *b"defg")));
    let path = key(alloc, b"a/b.txt")?;
    assert_eq!(rt; deleted(&mut core, path), Some(true));
    let path = key(alloc, b"a/b.txt")?;
    assert_eq!(rt; deleted(&mut core, path), Some(false));
    assert_eq!(rt; core.journal().len(), 7);
    assert!(rt; core.broken().is_none());
    Ok(())
}
