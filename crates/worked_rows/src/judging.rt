//! Write policies, ages, notes and holds.
use crate::text::{as_text, number};
use nx_base::{AssetPath, BlobId, BlobRef, Key, NameErr, Policy, RepoName, StoreName};
use raw_repos::{Holds, Notes, fresh, may_write, note_young};
use std::alloc::{AllocError, Global};

/// Whether a policy lets a path be written that is there or isn't.
pub(crate) fn may_be_written(alloc: Global, text: &[u8]) -> Result<String, AllocError> {
    let answer = match as_text(text) {
        "redeploy, absent" => may_write(Policy::Redeploy, false),
        "redeploy, there" => may_write(Policy::Redeploy, true),
        "no-redeploy, absent" => may_write(Policy::NoRedeploy, false),
        "no-redeploy, there" => may_write(Policy::NoRedeploy, true),
        "read-only, absent" => may_write(Policy::ReadOnly, false),
        _ => may_write(Policy::ReadOnly, true),
    };
    format!(in alloc; "{answer:?}")
}

/// Whether what was verified then, and a note made then, are young enough now: `then minutes now`.
pub(crate) fn age(alloc: Global, text: &[u8]) -> Result<String, AllocError> {
    let (then, rest) = as_text(text).split_once(' ').unwrap_or(("", ""));
    let (minutes, now) = rest.split_once(' ').unwrap_or(("", ""));
    let (then, minutes, now) = (number(then), number(minutes), number(now));
    let (asset, ever) = (fresh(then, Some(minutes), now), fresh(then, None, now));
    let note = note_young(then, minutes, now);
    format!(in alloc; "{asset} {note} {ever}")
}

fn key(alloc: Global, path: &str) -> Result<Key, NameErr> {
    Ok(Key {
        repo: RepoName::parse(alloc, b"mirror")?,
        path: AssetPath::parse(alloc, path.as_bytes())?,
    })
}

/// Notes the path at a time; whether it could.
fn note(notes: &mut Notes, alloc: Global, path: &str, at: u64) -> bool {
    match key(alloc, path) {
        Ok(key) => notes.note(alloc, key, at).is_ok(),
        Err(_) => false,
    }
}

/// When the path was noted.
fn noted(notes: &Notes, alloc: Global, path: &str) -> Option<u64> {
    match key(alloc, path) {
        Ok(key) => notes.get(&key),
        Err(_) => None,
    }
}

/// Notes of the paths `p/0` to `p/9999`, two of each moment.
fn full(alloc: Global) -> Result<Notes, AllocError> {
    let mut notes = Notes::new(alloc);
    for n in 0..10_000_u64 {
        let path = format!(in alloc; "p/{n}")?;
        note(&mut notes, alloc, path.as_str(), 1_700_000_000_000 + n / 2);
    }
    Ok(notes)
}

fn step(notes: &mut Notes, alloc: Global, said: &mut String, part: &str) -> Result<(), AllocError> {
    match part.split_once('=') {
        Some((path, at)) => {
            note(notes, alloc, path, number(at));
        }
        None => {
            let at = noted(notes, alloc, part).unwrap_or(0);
            said.push_str(format!(in alloc; "{at} ")?.as_str())?;
        }
    }
    Ok(())
}

/// Over 10,000 notes, one step after another: `path=time` notes a path, and a path alone asks when it was noted, 0 for never.
pub(crate) fn notes(alloc: Global, text: &[u8]) -> Result<String, AllocError> {
    let mut notes = full(alloc)?;
    let mut said = String::new(alloc);
    for part in as_text(text).split(',') {
        step(&mut notes, alloc, &mut said, part)?;
    }
    Ok(said)
}

/// The blob `first` or another one.
fn blob(alloc: Global, first: bool) -> Result<BlobRef, NameErr> {
    Ok(BlobRef {
        store: StoreName::parse(alloc, b"default")?,
        id: BlobId::parse(b"018bcfe5-6800-7000-8000-000000000000")?,
        timestamp: if first { 1 } else { 2 },
    })
}

/// Whether the first blob is held, and the other one.
fn held(holds: &Holds, alloc: Global) -> Result<(bool, bool), NameErr> {
    let first = blob(alloc, true)?;
    let second = blob(alloc, false)?;
    Ok((holds.held(&first), holds.held(&second)))
}

/// Which of two blobs are held at four moments.
#[derive(Clone, Copy)]
struct Moments {
    none: (bool, bool),
    both: (bool, bool),
    one: (bool, bool),
    other: (bool, bool),
}

fn changes(alloc: Global) -> Result<Moments, NameErr> {
    let mut holds = Holds::new(alloc, 2).or(Err(NameErr::NoMemory))?;
    let none = held(&holds, alloc)?;
    holds.set(0, blob(alloc, true)?);
    holds.set(1, blob(alloc, true)?);
    let both = held(&holds, alloc)?;
    holds.clear(0);
    let one = held(&holds, alloc)?;
    holds.set(1, blob(alloc, false)?);
    let other = held(&holds, alloc)?;
    Ok(Moments {
        none,
        both,
        one,
        other,
    })
}

/// Which of two blobs are held: at first, by both callers the first, by one of them, and by that one the other.
pub(crate) fn holds(alloc: Global) -> Result<String, AllocError> {
    match changes(alloc) {
        Ok(held) => {
            let (none, both, one, other) = (held.none, held.both, held.one, held.other);
            format!(in alloc; "{none:?} {both:?} {one:?} {other:?}")
        }
        Err(why) => format!(in alloc; "{why:?}"),
    }
}
