//! Worked marks over the disk in memory, with ample memory.
use crate::{MarkErr, mark, place, stage_mark, stage_unmark, unmark};
use blob_paths::BlobFiles;
use blob_properties::{BlobProps, PropsRead, read_blob};
use disk_model::{DiskErr, MemDisk, MemSealed};
use nx_base::{BlobId, BlobRef, Layout, StoreName};
use std::alloc::Global;
use std::test::Fail;

const PROPS: &[u8] =
    b"@BlobStore.blob-name=a/b.txt\n@BlobStore.content-type=text/plain\n@Bucket.repo-name=files\ncreationTime=1700000000000\nsha1=a9993e364706816aba3e25717850c26c9cd0d89d\nsize=3\n";

const MARKED: &[u8] =
    b"@BlobStore.blob-name=a/b.txt\n@BlobStore.content-type=text/plain\n@Bucket.repo-name=files\ncreationTime=1700000000000\ndeleted=true\ndeletedDateTime=1700000005000\ndeletedReason=Deleted by request\nsha1=a9993e364706816aba3e25717850c26c9cd0d89d\nsize=3\n";

const REASON: &str = "Deleted by request";

const AT: u64 = 1_700_000_005_000;

fn files(alloc: Global) -> Result<BlobFiles, Fail> {
    let blob = BlobRef {
        store: StoreName::parse(alloc, b"default")?,
        id: BlobId::parse(b"018bcfe5-6800-7000-8000-000000000000")?,
        timestamp: 1_700_000_000_000,
    };
    Ok(BlobFiles::of(alloc, &blob, Layout::Volume)?)
}

fn said(alloc: Global, text: &[u8]) -> Result<BlobProps, Fail> {
    match read_blob(alloc, text)? {
        PropsRead::Good(props) => Ok(props),
        PropsRead::Unreadable => Err("unreadable")?,
    }
}

/// A disk with the properties file of this text, that stops after so many calls.
fn disk(alloc: Global, text: &[u8], stop_after: Option<u64>) -> Result<MemDisk, Fail> {
    let mut entries = Vec::new(alloc);
    let name = files(alloc)?.properties().try_clone(alloc)?;
    entries.push((name, Vec::from_slice(alloc, text)?))?;
    Ok(MemDisk::new(alloc, entries, Vec::new(alloc), stop_after)?)
}

/// Marks, for the reason and at the time of these tests.
fn marked(
    alloc: Global,
    disk: &mut MemDisk,
    files: &BlobFiles,
    props: &BlobProps,
) -> Result<(), MarkErr> {
    mark(alloc, disk, files, props, REASON, AT)
}

/// Takes the mark away.
fn unmarked(
    alloc: Global,
    disk: &mut MemDisk,
    files: &BlobFiles,
    props: &BlobProps,
) -> Result<(), MarkErr> {
    unmark(alloc, disk, files, props)
}

/// The first half of a mark.
fn marked_text(alloc: Global, disk: &mut MemDisk, props: &BlobProps) -> Result<MemSealed, Fail> {
    match stage_mark(alloc, disk, props, REASON, AT) {
        Ok(file) => Ok(file),
        Err(_) => Err("not staged")?,
    }
}

/// The first half of taking the mark away.
fn unmarked_text(alloc: Global, disk: &mut MemDisk, props: &BlobProps) -> Result<MemSealed, Fail> {
    match stage_unmark(alloc, disk, props) {
        Ok(file) => Ok(file),
        Err(_) => Err("not staged")?,
    }
}

/// The second half of both.
fn placed(disk: &mut MemDisk, file: MemSealed, files: &BlobFiles) -> Result<(), DiskErr> {
    place(disk, file, files)
}

/// The text of the properties file.
fn text<'a>(disk: &'a MemDisk, files: &BlobFiles) -> Option<&'a [u8]> {
    disk.value(files.properties())
}

#[test]
fn a_mark_and_back(rt: HostRuntime) -> Result<(), Fail> {
    let alloc = rt.alloc();
    let files = files(alloc)?;
    let mut disk = disk(alloc, PROPS, None)?;
    let props = said(alloc, PROPS)?;
    assert_eq!(rt; marked(alloc, &mut disk, &files, &props), Ok(()));
    assert_eq!(rt; text(&disk, &files), Some(MARKED));
    assert_eq!(rt; unmarked(alloc, &mut disk, &files, &props), Ok(()));
    assert_eq!(rt; text(&disk, &files), Some(PROPS));
    let file = marked_text(alloc, &mut disk, &props)?;
    assert_eq!(rt; text(&disk, &files), Some(PROPS));
    assert_eq!(rt; placed(&mut disk, file, &files), Ok(()));
    assert_eq!(rt; text(&disk, &files), Some(MARKED));
    let file = unmarked_text(alloc, &mut disk, &props)?;
    assert_eq!(rt; text(&disk, &files), Some(MARKED));
    assert_eq!(rt; placed(&mut disk, file, &files), Ok(()));
    assert_eq!(rt; text(&disk, &files), Some(PROPS));
    Ok(())
}

/// What a mark answers on a disk that stops after so many calls, and one that a crash then leaves.
fn crashed(alloc: Global, stop: u64, pick: u64) -> Result<(Result<(), MarkErr>, MemDisk), Fail> {
    let files = files(alloc)?;
    let props = said(alloc, PROPS)?;
    let mut disk = disk(alloc, PROPS, Some(stop))?;
    let told = marked(alloc, &mut disk, &files, &props);
    Ok((told, disk.crash(pick)?))
}

#[test]
fn each_crash_inside_a_mark(rt: HostRuntime) -> Result<(), Fail> {
    let alloc = rt.alloc();
    let files = files(alloc)?;
    for stop in 0..4 {
        for pick in 0..3 {
            let (told, left) = crashed(alloc, stop, pick)?;
            let wanted = if stop == 3 {
                Ok(())
            } else {
                Err(MarkErr::Disk(DiskErr::Failed))
            };
            assert_eq!(rt; told, wanted);
            let text = text(&left, &files);
            assert!(rt; text == Some(MARKED) || (stop < 3 && text == Some(PROPS)));
        }
    }
    Ok(())
}
