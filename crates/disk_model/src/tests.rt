//! What the disk in memory answers where memory is ample, and how long many calls take.
use crate::silent::SilentDisk;
use crate::*;
use nx_base::{Name, NameErr, NoMemory};
use nx_io::Failed;
use std::alloc::Global;

#[derive(Debug, Drop)]
enum Stop {
    Name(NameErr),
    Memory(NoMemory),
    Disk(DiskErr),
    Test,
}

fn name(alloc: Global, text: &str) -> Result<Name, Stop> {
    Name::parse(alloc, text).map_err(|e| Stop::Name(e))
}

fn bytes(alloc: Global, text: &[u8]) -> Result<Vec<u8>, Stop> {
    Vec::from_slice(alloc, text).map_err(|_| Stop::Memory(NoMemory))
}

// A disk with one file `a` of the text `old`.
fn one_file(alloc: Global, failing: Vec<u64>, stop_after: Option<u64>) -> Result<MemDisk, Stop> {
    let mut files = Vec::new(alloc);
    let file = (name(alloc, "a")?, bytes(alloc, b"old")?);
    if files.push(file).is_err() {
        return Err(Stop::Memory(NoMemory));
    }
    MemDisk::new(alloc, files, failing, stop_after).map_err(|e| Stop::Memory(e))
}

fn listing(alloc: Global, number: u64) -> Result<Vec<u64>, Stop> {
    let mut numbers = Vec::new(alloc);
    match numbers.push(number) {
        Ok(()) => Ok(numbers),
        Err(_) => Err(Stop::Memory(NoMemory)),
    }
}

#[test]
fn each_failing_call_of_a_replacement(rt: HostRuntime) -> Result<(), Stop> {
    let alloc = rt.alloc();
    let a = name(alloc, "a")?;
    let rows = [
        (0, b"old".as_slice(), 1),
        (1, b"old".as_slice(), 2),
        (2, b"new".as_slice(), 3),
    ];
    for (number, text, calls) in rows {
        let mut disk = one_file(alloc, listing(alloc, number)?, None)?;
        assert_eq!(rt; replace_small(&mut disk, &a, b"new"), Err(DiskErr::Failed));
        assert_eq!(rt; disk.value(&a), Some(text));
        assert_eq!(rt; disk.clock(), calls);
        assert_eq!(rt; disk.faults(), 1);
        assert_eq!(rt; replace_small(&mut disk, &a, b"new"), Ok(()));
    }
    for stop in 0..5 {
        let mut disk = one_file(alloc, Vec::new(alloc), Some(stop))?;
        let answer = replace_small(&mut disk, &a, b"new");
        assert_eq!(rt; answer.is_ok(), stop >= 3);
        assert_eq!(rt;
            disk.value(&a),
            Some(if stop >= 2 {
                b"new".as_slice()
            } else {
                b"old".as_slice()
            })
        );
    }
    Ok(())
}

// Whether a crash at the moment leaves the name one of the two texts, and nothing else.
fn leaves_old_or_new(disk: &MemDisk, moment: u64, a: &Name) -> bool {
    match disk.values_at(moment, a) {
        Ok(values) => values.iter().all(|value| match value {
            Some(bytes) => bytes.as_slice() == b"old".as_slice()
                || bytes.as_slice() == b"new".as_slice(),
            None => false,
        }),
        Err(_) => false,
    }
}

#[test]
fn crashes_at_each_moment_of_a_replacement(rt: HostRuntime) -> Result<(), Stop> {
    let alloc = rt.alloc();
    let a = name(alloc, "a")?;
    for stop in 0..5 {
        let mut disk = one_file(alloc, Vec::new(alloc), Some(stop))?;
        let _answer = replace_small(&mut disk, &a, b"new");
        for moment in 0..4 {
            assert!(rt; leaves_old_or_new(&disk, moment, &a));
        }
        let Ok(values) = disk.values_at(disk.clock(), &a) else {
            return Err(Stop::Test);
        };
        assert_eq!(rt; values.len(), if stop == 0 || stop >= 3 { 1 } else { 2 });
    }
    Ok(())
}

#[test]
fn images_of_a_replacement(rt: HostRuntime) -> Result<(), Stop> {
    let alloc = rt.alloc();
    let a = name(alloc, "a")?;
    let rows = [
        (0, 0, b"old".as_slice()),
        (0, 1, b"old".as_slice()),
        (1, 0, b"old".as_slice()),
        (1, 1, b"new".as_slice()),
        (2, 0, b"old".as_slice()),
        (2, 1, b"new".as_slice()),
        (2, 2, b"old".as_slice()),
        (3, 0, b"new".as_slice()),
        (3, 1, b"new".as_slice()),
    ];
    for (stop, pick, text) in rows {
        let mut disk = one_file(alloc, Vec::new(alloc), Some(stop))?;
        let _answer = replace_small(&mut disk, &a, b"new");
        let Ok(mut left) = disk.crash(pick) else {
            return Err(Stop::Test);
        };
        assert_eq!(rt; left.value(&a), Some(text));
        assert_eq!(rt; replace_small(&mut left, &a, b"newer"), Ok(()));
    }
    Ok(())
}

#[test]
fn failing_parts(rt: HostRuntime) -> Result<(), Stop> {
    let alloc = rt.alloc();
    let a = name(alloc, "a")?;
    for call in 0..2 {
        let mut disk = one_file(alloc, Vec::new(alloc), None)?;
        let mut writes = Vec::new(alloc);
        if writes.push((1, call)).is_err() {
            return Err(Stop::Test);
        }
        disk.fail_parts(writes, Vec::new(alloc));
        assert_eq!(rt; replace_small(&mut disk, &a, b"1"), Ok(()));
        assert_eq!(rt; replace_small(&mut disk, &a, b"2"), Err(DiskErr::Failed));
        assert_eq!(rt; disk.value(&a), Some(b"1".as_slice()));
        assert_eq!(rt; replace_small(&mut disk, &a, b"3"), Ok(()));
        assert_eq!(rt; disk.faults(), 1);
    }
    Ok(())
}

#[test]
fn failing_reads(rt: HostRuntime) -> Result<(), Stop> {
    let alloc = rt.alloc();
    let a = name(alloc, "a")?;
    let b = name(alloc, "b")?;
    let mut disk = one_file(alloc, Vec::new(alloc), None)?;
    let mut reads = Vec::new(alloc);
    if reads.push((1, 1)).is_err() {
        return Err(Stop::Test);
    }
    disk.fail_parts(Vec::new(alloc), reads);
    let mut buf = [0u8; 2];
    for second in [Ok(1), Err(Failed), Ok(1)] {
        match disk.open_file(&b) {
            Ok(None) => {}
            Ok(Some(reader)) => {
                disk.end_reader(reader);
                return Err(Stop::Test);
            }
            Err(_) => return Err(Stop::Test),
        }
        let Ok(Some(mut reader)) = disk.open_file(&a) else {
            return Err(Stop::Test);
        };
        assert_eq!(rt; reader.read(&mut buf), Ok(2));
        assert_eq!(rt; reader.read(&mut buf), second);
        disk.end_reader(reader);
    }
    assert_eq!(rt; disk.faults(), 1);
    Ok(())
}

#[test]
fn reads(rt: HostRuntime) -> Result<(), Stop> {
    let alloc = rt.alloc();
    let a = name(alloc, "a")?;
    let long = Vec::from_elem(alloc, b'x', 65538).map_err(|_| Stop::Memory(NoMemory))?;
    for (len, read) in [(65536, 65536), (65537, 65537), (65538, 65537)] {
        let mut disk = one_file(alloc, Vec::new(alloc), None)?;
        assert_eq!(rt; replace_small(&mut disk, &a, &long[..len]), Ok(()));
        match disk.read_small(&a) {
            Ok(Some(prefix)) => assert_eq!(rt; prefix.len(), read),
            _ => return Err(Stop::Test),
        }
    }
    let mut disk = one_file(alloc, Vec::new(alloc), None)?;
    assert_eq!(rt; disk.read_small(&name(alloc, "b")?), Ok(None));
    let Ok(Some(mut reader)) = disk.open_file(&a) else {
        return Err(Stop::Test);
    };
    let mut buf = [0u8; 2];
    assert_eq!(rt; reader.len(), 3);
    assert_eq!(rt; reader.read(&mut buf), Ok(2));
    assert_eq!(rt; &buf, b"ol");
    assert_eq!(rt; reader.read(&mut buf), Ok(1));
    assert_eq!(rt; reader.read(&mut buf), Ok(0));
    disk.end_reader(reader);
    assert_eq!(rt; remove_settled(&mut disk, &a), Ok(true));
    assert_eq!(rt; remove_settled(&mut disk, &a), Ok(false));
    Ok(())
}

#[test]
fn lists(rt: HostRuntime) -> Result<(), Stop> {
    let alloc = rt.alloc();
    let mut disk = one_file(alloc, Vec::new(alloc), None)?;
    for text in ["b/c", "b/a", "b", "bc", "b-", "c"] {
        assert_eq!(rt; replace_small(&mut disk, &name(alloc, text)?, b"x"), Ok(()));
    }
    assert_eq!(rt; remove_settled(&mut disk, &name(alloc, "c")?), Ok(true));
    let Ok(names) = disk.list(&name(alloc, "b")?) else {
        return Err(Stop::Test);
    };
    let texts = ["b", "b/a", "b/c"];
    assert_eq!(rt; names.len(), texts.len());
    for (at, name) in names.iter().enumerate() {
        assert!(rt; at < 3 && name.as_str() == texts[at]);
    }
    for text in ["c", "b/c/d"] {
        match disk.list(&name(alloc, text)?) {
            Ok(none) => assert_eq!(rt; none.len(), 0),
            Err(_) => return Err(Stop::Test),
        }
    }
    Ok(())
}

#[test]
fn many_files_and_calls(rt: HostRuntime) -> Result<(), Stop> {
    let alloc = rt.alloc();
    let mut disk = one_file(alloc, Vec::new(alloc), None)?;
    let mut names = Vec::new(alloc);
    for number in 0..10_000u32 {
        let text = format!(in alloc; "f/{number}").map_err(|_| Stop::Memory(NoMemory))?;
        if names.push(name(alloc, &text)?).is_err() {
            return Err(Stop::Test);
        }
    }
    for _ in 0..3 {
        for file in &names {
            assert_eq!(rt; replace_small(&mut disk, file, b"x"), Ok(()));
        }
    }
    for file in &names {
        assert_eq!(rt; disk.value(file), Some(b"x".as_slice()));
        assert!(rt; disk.read_small(file).is_ok());
    }
    assert_eq!(rt; disk.clock(), 100_000);
    Ok(())
}

#[test]
fn a_disk_that_tells_nothing(rt: HostRuntime) -> Result<(), Stop> {
    let alloc = rt.alloc();
    let a = name(alloc, "a")?;
    let mut disk = SilentDisk {
        alloc,
        faults: 0,
        looked: None,
        shown: 0,
    };
    assert_eq!(rt; replace_small(&mut disk, &a, b"x"), Err(DiskErr::Failed));
    assert_eq!(rt; disk.faults, 1);
    assert_eq!(rt; replace_small(&mut disk, &a, b""), Err(DiskErr::Failed));
    assert_eq!(rt; remove_settled(&mut disk, &a), Err(DiskErr::Failed));
    assert_eq!(rt; disk.faults, 3);
    Ok(())
}

fn needs_send<T: Send>(value: T) -> T {
    value
}

#[test]
fn disks_may_go_to_other_threads(rt: HostRuntime) -> Result<(), Stop> {
    let alloc = rt.alloc();
    let a = name(alloc, "a")?;
    let mut disk = needs_send(one_file(alloc, Vec::new(alloc), None)?);
    let Ok(writer) = disk.temp() else {
        return Err(Stop::Test);
    };
    disk.give_up(needs_send(writer));
    let Ok(Some(reader)) = disk.open_file(&a) else {
        return Err(Stop::Test);
    };
    disk.end_reader(needs_send(reader));
    let Ok(sealed) = write_whole(&mut disk, b"x") else {
        return Err(Stop::Test);
    };
    disk.discard(needs_send(sealed));
    Ok(())
}
