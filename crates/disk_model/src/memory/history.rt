ghost use Rattle.std.specs.Prelude.{◌≡◌, ◌++◌, ◌∷◌, [], ℕ, List, true, OnOk, OnErr, IfOk, map};
ghost use Rattle.disk_model.specs.Past.{same_value, now_of, lookup, tree_of, lists_of, value_of, run, first_of};
ghost use Rattle.disk_model.specs.Seen.{shown, seen};
ghost use Rattle.disk_model.specs.Disk.{IsListing};
ghost use Rattle.disk_model.specs.Picked.{AreNames};

use crate::memory::change::Change;
use crate::memory::shelf::Shelf;
use crate::memory::trail::Trail;
use nx_base::{Name, NoMemory};
use std::alloc::Global;

/// The first files of a disk in memory, and each change since. The present value of each name is kept beside them, so
/// that a look-up reads no log.
#[derive(Drop)]
pub struct History {
    alloc: Global,
    files: Vec<(Name, Vec<u8>)>,
    log: Vec<Change>,
    shelf: Shelf,
    ghost tied: { (n : List ℕ) → same_value (shown shelf n) (now_of n log.items (lookup n files.items)) ≡ true },
}

// The values of the files. Of several with one name the first counts.
fn shelved(alloc: Global, files: &[(Name, Vec<u8>)]) -> Result<Shelf, NoMemory>
    ensures { IfOk result (λ shelf. (n : List ℕ) → shown shelf n ≡ lookup n files.now) }
{
    let mut shelf = Shelf::new(alloc);
    let mut left = files.len();
    while left > 0 {
        left -= 1;
        let file = &files[left];
        let Ok(bytes) = Vec::from_slice(alloc, &file.1) else {
            return Err(NoMemory);
        };
        shelf.put(alloc, &file.0, bytes)?;
    }
    Ok(shelf)
}

// The bytes of the first file of that name.
fn first_file<'a>(files: &'a [(Name, Vec<u8>)], name: &Name) -> Option<&'a [u8]>
    ensures { seen result ≡ lookup name.now files.now }
{
    let mut rest = files;
    while let [file, after @ ..] = rest {
        if name.as_bytes() == file.0.as_bytes() {
            return Some(file.1.as_slice());
        }
        rest = after;
    }
    None
}

impl History {
    pub fn new(alloc: Global, files: Vec<(Name, Vec<u8>)>) -> Result<History, NoMemory>
        ensures files { IfOk result (λ history. history.files.items ≡ files.items) }
        ensures log { IfOk result (λ history. history.log.items ≡ []) }
    {
        let shelf = shelved(alloc, &files)?;
        Ok(History {
            alloc,
            files,
            log: Vec::new(alloc),
            shelf,
        })
    }

    /// The present value of the name.
    pub fn find(&self, name: &Name) -> Option<&[u8]>
        ensures { seen result ≡ tree_of self.now.files.items self.now.log.items name.now }
    {
        self.shelf.get(name)
    }

    /// The names at or below the prefix that have a value, in byte order.
    pub fn list(&self, prefix: &Name) -> Result<Vec<Name>, NoMemory>
        ensures { IfOk result (λ names. IsListing prefix.now (tree_of self.now.files.items self.now.log.items) names.items) }
    {
        self.shelf.list(self.alloc, prefix)
    }

    /// The values that a crash may leave of the name at a moment of the clock, in the order in which they joined.
    pub fn values_at(&self, moment: u64, name: &Name) -> Result<Vec<Option<Vec<u8>>>, NoMemory>
        ensures { IfOk result (λ v. map value_of v.items ≡ lists_of self.now.files.items self.now.log.items moment name.now) }
    {
        let first = first_file(&self.files, name);
        let mut trail = Trail::start(self.alloc, first)?;
        for change in &self.log {
            trail.consider(self.alloc, moment, name, change)?;
        }
        Ok(trail.into_values())
    }

    /// The names outside `tmp` that have a file or a change, in byte order.
    pub fn names(&self) -> Result<Vec<Name>, NoMemory>
        ensures { IfOk result (λ names. AreNames (λ n. (run n self.now.log.items (first_of n self.now.files.items)).1) names.items) }
    {
        let mut shelf = Shelf::new(self.alloc);
        for file in &self.files {
            shelf.put(self.alloc, &file.0, Vec::new(self.alloc))?;
        }
        for change in &self.log {
            shelf.put(self.alloc, &change.name, Vec::new(self.alloc))?;
        }
        shelf.names_beside(self.alloc, b"tmp")
    }

    /// One more change.
    pub fn add(&mut self, change: Change) -> Result<(), NoMemory>
        ensures files { self.new.files.items ≡ self.old.files.items }
        ensures added { OnOk result (self.new.log.items ≡ self.old.log.items ++ change ∷ []) }
        ensures refused { OnErr result (self.new.log.items ≡ self.old.log.items) }
    {
        if self.log.reserve(1).is_err() {
            return Err(NoMemory);
        }
        self.shelf.follow(self.alloc, &change)?;
        self.log.push_reserved(change);
        Ok(())
    }
}
