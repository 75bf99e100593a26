ghost use Rattle.std.specs.Prelude.{◌≡◌, true, false, ℕ, ◌<◌, ◌≤◌, List, [], ◌∷◌, ◌++◌, length, IfOk, slice_get};
ghost use Rattle.std.specs.Option.{option_copied};

use crate::entry::Entry;
use nx_base::NoMemory;
use std::alloc::Global;
use std::marker::Model;

/// The entries so far, and for how many there is room. All memory is taken when it is made.
#[derive(Drop)]
pub struct Journal {
    entries: Vec<Entry>,
    room: u64,
}

impl Model for Journal {
    ghost use Rattle.std.specs.Prelude.{ℕ, ◌≤◌, List, vec_capacity};
    ghost use Rattle.repo_model.specs.Journal.{JournalView};

    ghost Value = { JournalView };

    ghost view = { λ j. record { entries = j.entries.items; room = j.room } };

    ghost invariant = { λ j. j.room ≤ vec_capacity j.entries };
}

impl Journal {
    /// Empty, with room for n entries.
    pub fn new(alloc: Global, n: u64) -> Result<Journal, NoMemory>
        ensures { IfOk result (λ j. j ≡ record { entries = []; room = n }) }
    {
        match Vec::with_capacity(alloc, n as usize) {
            Ok(entries) => Ok(Journal { entries, room: n }),
            Err(_) => Err(NoMemory),
        }
    }

    /// Empty, without room. Takes no memory.
    pub fn none(alloc: Global) -> Journal
        ensures { result ≡ record { entries = []; room = 0 } }
    {
        Journal {
            entries: Vec::new(alloc),
            room: 0,
        }
    }

    pub fn is_full(&self) -> bool
        ensures full { result ≡ true → self.now.room ≤ length self.now.entries }
        ensures open { result ≡ false → length self.now.entries < self.now.room }
    {
        self.room <= self.len()
    }

    /// Appends an entry. Takes no memory.
    pub fn push(&mut self, entry: Entry)
        requires { length self.old.entries < self.old.room }
        ensures { self.new ≡ record { entries = self.old.entries ++ entry ∷ []; room = self.old.room } }
    {
        self.entries.push_reserved(entry);
    }

    pub fn len(&self) -> u64
        ensures { result ≡ length self.now.entries }
    {
        self.entries.len() as u64
    }

    /// The entry with that number, from 0.
    pub fn entry(&self, n: u64) -> Option<&Entry>
        ensures { option_copied result ≡ slice_get self.now.entries n }
    {
        self.entries.get(n as usize)
    }
}
