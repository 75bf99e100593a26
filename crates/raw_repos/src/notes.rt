ghost use Rattle.std.specs.Prelude.{◌≡◌, ℕ, IfOk, OnOk, OnErr};
ghost use Rattle.std.specs.FinMap as map;
ghost use Rattle.repo_model.specs.Notes.{oldest_key, trimmed};

use nx_base::{Key, NoMemory};
use repo_model::plain::KeyMap;
use std::alloc::Global;
use std::marker::Model;

/// The greatest number of notes.
const NOTES_LIMIT: u64 = 10_000;

/// When the remote of a proxy last said that it has nothing of a key, in milliseconds since 1970: at
/// most 10,000 notes, seen as a finite map.
#[derive(Drop)]
pub struct Notes {
    notes: KeyMap<u64>,
}

impl Model for Notes {
    ghost use Rattle.std.specs.Prelude.{ℕ, ◌≤◌};
    ghost use Rattle.std.specs.FinMap as map;
    ghost use Rattle.nx_base.specs.Order.{key_cmp};
    ghost use Rattle.nx_base.specs.Codes.{coded_key};
    ghost use Rattle.std.specs.Coded.{coded_ℕ};
    ghost use Rattle.repo_model.specs.Notes.{notes_limit};

    ghost Value = { map.FinMap key_cmp ℕ };

    ghost coded = { map.code coded_key coded_ℕ };

    ghost view = { λ n. n.notes };

    ghost invariant = { λ n. map.len n.notes ≤ notes_limit };
}

/// The key of the oldest note: the one with the least moment, and of several the least.
fn oldest_note(alloc: Global, notes: &KeyMap<u64>) -> Result<Option<Key>, NoMemory>
    ensures { IfOk result (λ key. key ≡ oldest_key notes.now) }
{
    let mut best: Option<(&Key, u64)> = None;
    for (key, at) in notes.iter() {
        match best {
            Some((_, least)) if least <= *at => {}
            _ => best = Some((key, *at)),
        }
    }
    match best {
        Some((key, _)) => Ok(Some(key.try_clone(alloc)?)),
        None => Ok(None),
    }
}

impl Notes {
    /// No note. Takes no memory.
    pub fn new(alloc: Global) -> Notes
        ensures { result ≡ map.empty }
    {
        Notes {
            notes: KeyMap::new(alloc),
        }
    }

    /// When the note of the key was made. Takes no memory.
    pub fn get(&self, key: &Key) -> Option<u64>
        ensures { result ≡ map.get self.now key.now }
    {
        self.notes.get(key).copied()
    }

    /// Notes that the remote has nothing of the key. Where there would be more than 10,000 notes, the one with the least moment,
    /// and of several the one with the least key, goes. Where memory is refused, nothing changes.
    pub fn note(&mut self, alloc: Global, key: Key, at: u64) -> Result<(), NoMemory>
        ensures ok { OnOk result (self.new ≡ trimmed (map.insert self.old key at)) }
        ensures err { OnErr result (self.new ≡ self.old) }
    {
        if self.notes.len() < NOTES_LIMIT {
            self.notes.insert(key, at)?;
            return Ok(());
        }
        self.note_in_full(alloc, key, at)
    }

    /// The same where there are as many notes as there may be.
    fn note_in_full(&mut self, alloc: Global, key: Key, at: u64) -> Result<(), NoMemory>
        ensures ok { OnOk result (self.new ≡ trimmed (map.insert self.old key at)) }
        ensures err { OnErr result (self.new ≡ self.old) }
    {
        let again = key.try_clone(alloc)?;
        self.notes.insert(key, at)?;
        if self.notes.len() <= NOTES_LIMIT {
            return Ok(());
        }
        match oldest_note(alloc, &self.notes) {
            Ok(Some(oldest)) => {
                self.notes.remove(&oldest);
                Ok(())
            }
            Ok(None) => Ok(()),
            Err(NoMemory) => {
                self.notes.remove(&again);
                Err(NoMemory)
            }
        }
    }
}
