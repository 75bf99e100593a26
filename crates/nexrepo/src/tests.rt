//! Worked sessions over devices in memory.

mod policies;
mod texts;

use crate::devices::{CONFIG, disk_with, empty_table};
use crate::run::{Ran, run};
use crate::status::Status;
use crate::tests::texts::{
    BAD_CHUNK, BAD_CHUNK_LAST, BAD_HEAD, BAD_METHOD, BOTH, BOTH_FRAMINGS, BROKEN_KEEPER,
    CHUNKED_ABC, CLOSING_ABC, CONTINUE, CREATED, DELETE_ABC, DELETE_ELSEWHERE, DISK_FAULT_LAST,
    FOUND_ABC, FOUND_ABC_BARE, FOUND_ABC_LAST, FOUND_EMPTY, GET_ABC, GET_EMPTY, GET_NONE, GONE,
    HEAD_ABC, HEAD_NONE, JOURNAL_FULL, KEEPER_FAULT, NO_HEAD, NOT_FOUND, NOT_FOUND_BARE,
    NOT_FOUND_LAST, OLD_NONE, POST, PUT_ABC, PUT_ELSEWHERE, PUT_EMPTY, PUT_NOTHING_ELSEWHERE,
    STAMPS_USED, UNKNOWN_REPO, UNKNOWN_REPO_LAST, WAITING_ABC,
};
use asset_keeper::MapKeeper;
use disk_model::{Disk, MemDisk};
use nx_base::{Moment, Name};
use nx_io::{MemSink, MemSource};
use std::alloc::Global;
use std::process::Abort;
use std::test::Fail;

/// The milliseconds of an ordinary moment.
const NOW: u64 = 1_700_000_000_000;
/// The milliseconds of the last moment that has a timestamp.
const LAST: u64 = 281_474_976_710_655;

/// The devices of a run: the text of the configuration, how the input is cut, the room for the output, and which calls of
/// which device fail.
#[derive(Clone, Copy)]
struct Setup<'a> {
    config: &'a str,
    now: u64,
    piece: usize,
    room: usize,
    failing_reads: &'a [u64],
    failing_writes: &'a [u64],
    disk: &'a [u64],
    table: &'a [u64],
    /// Pairs of a writer of the disk and a call of it, and of a reader.
    disk_writes: &'a [(u64, u64)],
    disk_reads: &'a [(u64, u64)],
}

/// Nothing fails.
fn usual<'a>() -> Setup<'a> {
    Setup {
        config: CONFIG,
        now: NOW,
        piece: 20,
        room: 4096,
        failing_reads: &[],
        failing_writes: &[],
        disk: &[],
        table: &[],
        disk_writes: &[],
        disk_reads: &[],
    }
}

/// What a run left, and what it wrote.
#[derive(Drop)]
struct Worked {
    ran: Ran<MemDisk, MapKeeper>,
    written: Vec<u8>,
}

/// The texts, one after another.
fn joined(alloc: Global, texts: &[&str]) -> Result<Vec<u8>, Fail> {
    let mut all = Vec::new(alloc);
    for text in texts {
        all.extend_from_slice(text.as_bytes())?;
    }
    Ok(all)
}

fn words(alloc: Global, texts: &[&str]) -> Result<Vec<String>, Fail> {
    let mut all = Vec::new(alloc);
    for text in texts {
        all.push(String::from_str(alloc, text)?)?;
    }
    Ok(all)
}

fn disk_of(alloc: Global, setup: &Setup) -> Result<MemDisk, Fail> {
    let failing = Vec::from_slice(alloc, setup.disk)?;
    let mut disk = disk_with(alloc, setup.config, failing)?;
    let writes = Vec::from_slice(alloc, setup.disk_writes)?;
    let reads = Vec::from_slice(alloc, setup.disk_reads)?;
    disk.fail_parts(writes, reads);
    Ok(disk)
}

/// A run over a disk.
fn run_over(alloc: Global, disk: MemDisk, setup: &Setup, input: &[u8]) -> Result<Worked, Fail> {
    let failing = Vec::from_slice(alloc, setup.failing_reads)?;
    let bytes = Vec::from_slice(alloc, input)?;
    let mut source = MemSource::new(bytes, setup.piece.max(1), failing);
    let failing = Vec::from_slice(alloc, setup.failing_writes)?;
    let mut sink = MemSink::new(alloc, setup.room, failing)?;
    let table = empty_table(alloc, Vec::from_slice(alloc, setup.table)?)?;
    let moments = [Moment {
        now: setup.now,
        random: [0; 10],
    }];
    let words = words(alloc, &[".", "stdio"])?;
    let ran = run(alloc, &words, &mut source, &mut sink, disk, table, &moments);
    let written = Vec::from_slice(alloc, sink.bytes())?;
    Ok(Worked { ran, written })
}

fn session(alloc: Global, setup: &Setup, input: &[u8]) -> Result<Worked, Fail> {
    run_over(alloc, disk_of(alloc, setup)?, setup, input)
}

/// The run ends so, and writes this, however its bytes are cut.
fn check(
    rt: &impl Abort,
    alloc: Global,
    setup: &Setup,
    input: &[&str],
    want: (&str, &[&str]),
) -> Result<(), Fail> {
    let input = joined(alloc, input)?;
    let output = joined(alloc, want.1)?;
    for piece in [1usize, 5, 7, 50, 1000] {
        let worked = session(alloc, &Setup { piece, ..*setup }, &input)?;
        assert_eq!(rt; worked.ran.status.name(), want.0, "in pieces of {piece}");
        assert_eq!(rt;
            worked.written.as_slice(),
            output.as_slice(),
            "in pieces of {piece}"
        );
    }
    Ok(())
}

#[test]
fn worked_sessions(rt: HostRuntime) -> Result<(), Fail> {
    let alloc = rt.alloc();
    let rows: [(&[&str], &[&str], &str); 10] = [
        (&[], &[], "Ok"),
        (&["\r\n\n"], &[], "Ok"),
        (&[PUT_ABC], &[CREATED], "Ok"),
        (&[PUT_ABC, GET_ABC], &[CREATED, FOUND_ABC], "Ok"),
        (
            &[PUT_ABC, PUT_EMPTY, GET_EMPTY, GET_ABC],
            &[CREATED, CREATED, FOUND_EMPTY, FOUND_ABC],
            "Ok",
        ),
        (&[GET_NONE, PUT_ABC], &[NOT_FOUND, CREATED], "Ok"),
        (&[PUT_ABC, NO_HEAD, GET_ABC], &[CREATED, BAD_HEAD], "Ok"),
        (&[PUT_ABC, "\r\n", "GET"], &[CREATED], "Cut"),
        (&["PUT /repository/files/a"], &[], "Cut"),
        (
            &["PUT /repository/files/a HTTP/1.1\r\nContent-Length: 3\r\n\r\nab"],
            &[],
            "Cut",
        ),
    ];
    for (input, output, status) in rows {
        check(&rt, alloc, &usual(), input, (status, output))?;
    }
    Ok(())
}

#[test]
fn the_whole_profile(rt: HostRuntime) -> Result<(), Fail> {
    let alloc = rt.alloc();
    let rows: [(&[&str], &[&str], &str); 13] = [
        (
            &[CHUNKED_ABC, HEAD_ABC, HEAD_NONE, GET_ABC],
            &[CREATED, FOUND_ABC_BARE, NOT_FOUND_BARE, FOUND_ABC],
            "Ok",
        ),
        (
            &[PUT_ABC, DELETE_ABC, GET_ABC],
            &[CREATED, GONE, NOT_FOUND],
            "Ok",
        ),
        (&[DELETE_ABC, PUT_ABC], &[NOT_FOUND, CREATED], "Ok"),
        (
            &[WAITING_ABC, GET_ABC],
            &[CONTINUE, CREATED, FOUND_ABC],
            "Ok",
        ),
        (&[BAD_CHUNK, GET_ABC], &[CONTINUE, BAD_CHUNK_LAST], "Ok"),
        (
            &[PUT_ABC, CLOSING_ABC, GET_ABC],
            &[CREATED, FOUND_ABC_LAST],
            "Ok",
        ),
        (&[OLD_NONE, GET_ABC], &[NOT_FOUND_LAST], "Ok"),
        (&[BOTH, GET_ABC], &[BOTH_FRAMINGS], "Ok"),
        (&[POST, GET_ABC], &[BAD_METHOD], "Ok"),
        (
            &[DELETE_ELSEWHERE, PUT_NOTHING_ELSEWHERE, GET_NONE],
            &[UNKNOWN_REPO, UNKNOWN_REPO, NOT_FOUND],
            "Ok",
        ),
        (
            &[PUT_ABC, PUT_ELSEWHERE, GET_ABC],
            &[CREATED, UNKNOWN_REPO_LAST],
            "Ok",
        ),
        (
            &["PUT /repository/files/a HTTP/1.1\r\nTransfer-Encoding: chunked\r\n\r\n3\r\nab"],
            &[],
            "Cut",
        ),
        (
            &[
                "PUT /repository/files/a HTTP/1.1\r\nExpect: 100-Continue\r\nContent-Length: 3\r\n\r\nab",
            ],
            &[CONTINUE],
            "Cut",
        ),
    ];
    for (input, output, status) in rows {
        check(&rt, alloc, &usual(), input, (status, output))?;
    }
    Ok(())
}

#[test]
fn timestamps_are_used_once(rt: HostRuntime) -> Result<(), Fail> {
    let input: &[&str] = &[PUT_ABC, PUT_ABC, GET_ABC];
    let want: (&str, &[&str]) = ("Ok", &[CREATED, STAMPS_USED, FOUND_ABC]);
    for now in [LAST, LAST + 1] {
        let late = Setup { now, ..usual() };
        check(&rt, rt.alloc(), &late, input, want)?;
    }
    Ok(())
}

/// Whether a run ended so, or as the usual one, with a prefix of what that wrote.
fn ends_in_prefix(worked: &Worked, name: &str, usual: &Worked) -> bool {
    let same = worked.ran.status.number() == 0 && worked.written == usual.written;
    (same || worked.ran.status.name() == name) && usual.written.starts_with(&worked.written)
}

#[test]
fn failing_devices(rt: HostRuntime) -> Result<(), Fail> {
    let alloc = rt.alloc();
    let input = joined(alloc, &[PUT_ABC, GET_ABC, GET_NONE])?;
    let whole = session(alloc, &usual(), &input)?;
    assert_eq!(rt; whole.ran.status.name(), "Ok");
    for room in 0..200usize {
        let little = session(alloc, &Setup { room, ..usual() }, &input)?;
        let full = room < whole.written.len();
        let want = if full { "WriteFault" } else { "Ok" };
        assert_eq!(rt; little.ran.status.name(), want, "room {room}");
        assert_eq!(rt;
            little.written.as_slice(),
            &whole.written[..room.min(whole.written.len())],
            "room {room}"
        );
    }
    for call in 0..40u64 {
        let setup = Setup {
            failing_reads: &[call],
            ..usual()
        };
        let worked = session(alloc, &setup, &input)?;
        assert!(rt; ends_in_prefix(&worked, "ReadFault", &whole), "read {call}");
        assert!(rt; call > 0 || worked.written.is_empty(), "read {call}");
        let setup = Setup {
            failing_writes: &[call],
            ..usual()
        };
        let worked = session(alloc, &setup, &input)?;
        assert!(rt;
            ends_in_prefix(&worked, "WriteFault", &whole),
            "write {call}"
        );
        assert!(rt; call > 0 || worked.written.is_empty(), "write {call}");
    }
    Ok(())
}

#[test]
fn a_failing_repository(rt: HostRuntime) -> Result<(), Fail> {
    let alloc = rt.alloc();
    let setup = Setup {
        table: &[1],
        ..usual()
    };
    let want: (&str, &[&str]) = ("KeeperFault", &[KEEPER_FAULT, BROKEN_KEEPER]);
    check(&rt, alloc, &setup, &[PUT_ABC, GET_ABC], want)?;
    let setup = Setup {
        disk_writes: &[(0, 0)],
        ..usual()
    };
    let want: (&str, &[&str]) = ("Ok", &[DISK_FAULT_LAST]);
    check(&rt, alloc, &setup, &[PUT_ABC, GET_ABC], want)?;
    let setup = Setup {
        disk_reads: &[(0, 0)],
        ..usual()
    };
    let want: (&str, &[&str]) = ("DownloadFault", &[CREATED, FOUND_ABC_BARE]);
    check(&rt, alloc, &setup, &[PUT_ABC, GET_ABC], want)?;
    let short = "stores=default\nrepositories=files\nrepo.files.store=default\njournal=2\n";
    let setup = Setup {
        config: short,
        ..usual()
    };
    let want: (&str, &[&str]) = ("Ok", &[CREATED, JOURNAL_FULL]);
    check(&rt, alloc, &setup, &[PUT_ABC, GET_ABC], want)
}

/// The contents of the files below a folder whose names end so.
fn contents_below(
    alloc: Global,
    disk: &mut MemDisk,
    folder: &str,
    ending: &str,
) -> Result<Vec<u8>, Fail> {
    let mut all = Vec::new(alloc);
    let Ok(names) = disk.list(&Name::parse(alloc, folder)?) else {
        return Ok(all);
    };
    for name in &names {
        if name.as_str().ends_with(ending) {
            all.extend_from_slice(disk.value(name).unwrap_or(&[]))?;
        }
    }
    Ok(all)
}

#[test]
fn the_devices_are_handed_back(rt: HostRuntime) -> Result<(), Fail> {
    let alloc = rt.alloc();
    let input = joined(alloc, &[PUT_ABC, PUT_EMPTY, GET_ABC])?;
    let mut ran = session(alloc, &usual(), &input)?.ran;
    assert_eq!(rt; ran.journal.len(), 5);
    let bytes = contents_below(alloc, &mut ran.disk, "default", ".bytes")?;
    assert_eq!(rt; bytes.as_slice(), b"abc".as_slice());
    let input = joined(alloc, &[PUT_ABC, DELETE_ABC])?;
    let mut ran = session(alloc, &usual(), &input)?.ran;
    assert_eq!(rt; ran.journal.len(), 3);
    let bytes = contents_below(alloc, &mut ran.disk, "tmp", "")?;
    assert_eq!(rt; bytes.len(), 0);
    Ok(())
}

/// A configuration that is refused, and what is printed behind the status.
fn refuse_config(rt: &impl Abort, setup: &Setup, alloc: Global, detail: &str) -> Result<(), Fail> {
    let worked = session(alloc, setup, PUT_ABC.as_bytes())?;
    assert_eq!(rt; worked.ran.status.name(), "BadConfig");
    assert_eq!(rt; worked.ran.status.detail(), Some(detail));
    assert_eq!(rt; (worked.written.len(), worked.ran.journal.len()), (0, 0));
    Ok(())
}

#[test]
fn configurations_are_refused(rt: HostRuntime) -> Result<(), Fail> {
    let alloc = rt.alloc();
    let rows = [
        ("stores=default,default\n", "stores"),
        ("journal=0\n", "journal"),
        ("repositories=files\n", "repo.files.store"),
        ("more=1\n", "more"),
        ("\\u12", "config.properties"),
    ];
    for (config, detail) in rows {
        refuse_config(&rt, &Setup { config, ..usual() }, alloc, detail)?;
    }
    let none = MemDisk::new(alloc, Vec::new(alloc), Vec::new(alloc), None)?;
    let worked = run_over(alloc, none, &usual(), PUT_ABC.as_bytes())?;
    assert_eq!(rt; worked.ran.status.detail(), Some("config.properties"));
    let first_call = Setup {
        disk: &[0],
        ..usual()
    };
    let worked = session(alloc, &first_call, PUT_ABC.as_bytes())?;
    assert_eq!(rt; worked.ran.status.name(), "DiskFault");
    assert_eq!(rt; worked.written.len(), 0);
    Ok(())
}

#[test]
fn other_words_are_refused(rt: HostRuntime) -> Result<(), Fail> {
    let alloc = rt.alloc();
    let lines: [(&[&str], &str); 6] = [
        (&[], "Usage"),
        (&["stdio"], "Usage"),
        (&["", "stdio"], "Usage"),
        (&[".", "Stdio"], "Usage"),
        (&[".", "stdio", "more"], "Usage"),
        (&["a folder", "stdio"], "Ok"),
    ];
    let moments = [Moment {
        now: NOW,
        random: [0; 10],
    }];
    for (line, want) in lines {
        let mut source = MemSource::new(Vec::new(alloc), 1, Vec::new(alloc));
        let mut sink = MemSink::new(alloc, 10, Vec::new(alloc))?;
        let words = words(alloc, line)?;
        let disk = disk_of(alloc, &usual())?;
        let table = empty_table(alloc, Vec::new(alloc))?;
        let ran = run(alloc, &words, &mut source, &mut sink, disk, table, &moments);
        assert_eq!(rt; ran.status.name(), want);
    }
    Ok(())
}

#[test]
fn names_of_statuses(rt: HostRuntime) -> Result<(), Fail> {
    assert_eq!(rt;
        (Status::Usage.number(), Status::Usage.name()),
        (2, "Usage")
    );
    assert_eq!(rt; Status::Ok.detail(), None);
    Ok(())
}
