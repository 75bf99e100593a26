//! Worked blobs over the disk in memory, with ample memory.
use crate::{Download, Ready, Upload, create, erase, open_bytes, read_props};
use blob_paths::BlobFiles;
use blob_properties::PropsRead;
use disk_model::{Disk, MemDisk};
use nx_base::{AssetPath, BlobId, BlobRef, ContentType, Key, Layout, RepoName, StoreName};
use repo_model::{Begin, DownloadErr, Kind, UploadErr};
use std::alloc::Global;
use std::test::Fail;

/// The properties of the blob of `abc` at the path `a/b.txt`.
const PROPS: &[u8] =
    b"@BlobStore.blob-name=a/b.txt\n@BlobStore.content-type=text/plain\n@Bucket.repo-name=files\ncreationTime=1700000000000\nsha1=a9993e364706816aba3e25717850c26c9cd0d89d\nsize=3\n";

/// The SHA-1 of `abc` (FIPS 180-4, its first example).
const DIGEST: [u8; 20] = [
    0xa9, 0x99, 0x3e, 0x36, 0x47, 0x06, 0x81, 0x6a, 0xba, 0x3e, 0x25, 0x71, 0x78, 0x50, 0xc2, 0x6c,
    0x9c, 0xd0, 0xd8, 0x9d,
];

fn begin(alloc: Global) -> Result<Begin, Fail> {
    Ok(Begin {
        key: Key {
            repo: RepoName::parse(alloc, b"files")?,
            path: AssetPath::parse(alloc, b"a/b.txt")?,
        },
        content_type: ContentType::parse(alloc, b"text/plain")?,
        kind: Kind::Put,
    })
}

fn files(alloc: Global) -> Result<BlobFiles, Fail> {
    let blob = BlobRef {
        store: StoreName::parse(alloc, b"default")?,
        id: BlobId::parse(b"018bcfe5-6800-7000-8000-000000000000")?,
        timestamp: 1_700_000_000_000,
    };
    Ok(BlobFiles::of(alloc, &blob, Layout::Volume)?)
}

/// An empty disk that stops after so many calls.
fn disk(alloc: Global, stop_after: Option<u64>) -> Result<MemDisk, Fail> {
    Ok(MemDisk::new(alloc, Vec::new(alloc), Vec::new(alloc), stop_after)?)
}

/// Uploads `ab` and `c`, and makes the blob of it. The first refusal is told by name.
fn stored(alloc: Global, disk: &mut MemDisk) -> Result<Option<&'static str>, Fail> {
    let begin = begin(alloc)?;
    let store = StoreName::parse(alloc, b"default")?;
    let files = files(alloc)?;
    let Ok(writer) = disk.temp() else {
        return Ok(Some("temp"));
    };
    let mut upload = Upload::new(begin, store, writer);
    if upload.write(b"ab").is_err() || upload.write(b"c").is_err() {
        disk.give_up(upload.into_writer());
        return Ok(Some("write"));
    }
    let Ok(ready) = upload.seal() else {
        disk.give_up(upload.into_writer());
        return Ok(Some("seal"));
    };
    upload.abort();
    let Ready {
        file,
        begin: _,
        store: _,
        size,
        sha1,
    } = ready;
    if size != 3 || sha1 != DIGEST {
        disk.discard(file);
        return Ok(Some("digest"));
    }
    match create(disk, file, &files, PROPS) {
        Ok(()) => Ok(None),
        Err(_) => Ok(Some("create")),
    }
}

#[test]
fn a_blob_and_its_files(rt: HostRuntime) -> Result<(), Fail> {
    let alloc = rt.alloc();
    let files = files(alloc)?;
    let mut disk = disk(alloc, None)?;
    assert!(rt; matches!(&read_props(alloc, &mut disk, &files), Ok(None)));
    assert_eq!(rt; stored(alloc, &mut disk)?, None);
    assert_eq!(rt;
        files.bytes().as_str(),
        "default/content/vol-39/chap-14/018bcfe5-6800-7000-8000-000000000000.bytes"
    );
    assert_eq!(rt; disk.value(files.bytes()), Some(b"abc".as_slice()));
    assert_eq!(rt; disk.value(files.properties()), Some(PROPS));
    match read_props(alloc, &mut disk, &files) {
        Ok(Some(PropsRead::Good(props))) => assert_eq!(rt; props.size, 3),
        _ => Err("no properties")?,
    }
    let Ok(Some(reader)) = open_bytes(&mut disk, &files) else {
        return Err("no bytes")?;
    };
    let mut download = Download::new(reader, 3);
    let mut room = [0_u8; 2];
    assert_eq!(rt; download.read(&mut []), Ok(0));
    assert_eq!(rt; download.read(&mut room), Ok(2));
    assert_eq!(rt; room, *b"ab");
    assert_eq!(rt; download.read(&mut room), Ok(1));
    assert_eq!(rt; room, *b"cb");
    assert_eq!(rt; download.read(&mut room), Ok(0));
    disk.end_reader(download.into_reader());
    assert!(rt; erase(&mut disk, &files).is_ok());
    assert_eq!(rt; disk.value(files.bytes()), None);
    assert_eq!(rt; disk.value(files.properties()), None);
    Ok(())
}

#[test]
fn a_file_that_is_too_short(rt: HostRuntime) -> Result<(), Fail> {
    let alloc = rt.alloc();
    let mut disk = disk(alloc, None)?;
    assert_eq!(rt; stored(alloc, &mut disk)?, None);
    let files = files(alloc)?;
    let Ok(Some(reader)) = open_bytes(&mut disk, &files) else {
        return Err("no bytes")?;
    };
    let mut download = Download::new(reader, 4);
    let mut room = [0_u8; 8];
    assert_eq!(rt; download.read(&mut room), Ok(3));
    assert_eq!(rt; download.read(&mut room), Err(DownloadErr::Short { at: 3 }));
    disk.end_reader(download.into_reader());
    Ok(())
}

#[test]
fn each_failing_call_of_the_writer(rt: HostRuntime) -> Result<(), Fail> {
    let alloc = rt.alloc();
    for (call, at) in [(0, "write"), (1, "write"), (2, "seal")] {
        let mut disk = disk(alloc, None)?;
        let mut writes = Vec::new(alloc);
        writes.push((0, call))?;
        disk.fail_parts(writes, Vec::new(alloc));
        assert_eq!(rt; stored(alloc, &mut disk)?, Some(at));
        assert_eq!(rt; disk.faults(), 1);
        assert_eq!(rt; stored(alloc, &mut disk)?, None);
    }
    Ok(())
}

#[test]
fn an_upload_that_is_dead(rt: HostRuntime) -> Result<(), Fail> {
    let alloc = rt.alloc();
    let mut disk = disk(alloc, None)?;
    let mut writes = Vec::new(alloc);
    writes.push((0, 0))?;
    disk.fail_parts(writes, Vec::new(alloc));
    let begin = begin(alloc)?;
    let store = StoreName::parse(alloc, b"default")?;
    let Ok(writer) = disk.temp() else {
        return Err("no writer")?;
    };
    let mut upload = Upload::new(begin, store, writer);
    assert_eq!(rt; upload.write(b"ab"), Err(UploadErr::DiskFault));
    assert_eq!(rt; upload.write(b"c"), Err(UploadErr::Dead));
    match upload.seal() {
        Err(why) => assert_eq!(rt; why, UploadErr::Dead),
        Ok(ready) => {
            let Ready {
                file,
                begin: _,
                store: _,
                size: _,
                sha1: _,
            } = ready;
            disk.discard(file);
            upload.abort();
            return Err("sealed")?;
        }
    }
    disk.give_up(upload.into_writer());
    Ok(())
}

/// Whether a crash left no properties file, or both files whole.
fn is_none_or_whole(disk: &MemDisk, files: &BlobFiles) -> bool {
    match disk.value(files.properties()) {
        None => true,
        Some(props) => props == PROPS && disk.value(files.bytes()) == Some(b"abc".as_slice()),
    }
}

#[test]
fn each_crash_inside_a_creation(rt: HostRuntime) -> Result<(), Fail> {
    let alloc = rt.alloc();
    let files = files(alloc)?;
    for stop in 0..7 {
        for pick in 0..9 {
            let mut disk = disk(alloc, Some(stop))?;
            let told = stored(alloc, &mut disk)?;
            assert_eq!(rt; told.is_none(), stop == 6);
            let left = disk.crash(pick)?;
            assert!(rt; is_none_or_whole(&left, &files));
            assert!(rt; stop < 6 || left.value(files.properties()).is_some());
        }
    }
    Ok(())
}
