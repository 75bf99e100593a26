ghost use Rattle.std.specs.Prelude.{◌≡◌, ◌++◌, ◌∷◌, [], ℕ, List, not, Some, None, if◌then◌else◌, IfOk, OnOk, OnErr};
ghost use Rattle.std.specs.Str.{bytes_eq};
ghost use Rattle.disk_model.specs.Disk.{IsListing};
ghost use Rattle.disk_model.specs.Listed.{is_at_or_below, AreBeside};

use crate::memory::change::Change;
use nx_base::{Name, NoMemory};
use std::alloc::Global;
use std::collections::BTreeMap;

/// The present value of each name, in the order of the names.
#[derive(Drop)]
pub struct Shelf {
    values: BTreeMap<String, Vec<u8>>,
}

impl Shelf {
    ghost use Rattle.disk_model.specs.Seen.{seen, shown};
    ghost use Rattle.disk_model.specs.Past.{now_step};

    pub fn new(alloc: Global) -> Shelf
        ensures { (n : List ℕ) → shown result n ≡ None }
    {
        Shelf {
            values: BTreeMap::new(alloc),
        }
    }

    /// The value of the name.
    pub fn get(&self, name: &Name) -> Option<&[u8]>
        ensures { seen result ≡ shown self.now name.now }
    {
        match self.values.get(name.as_str()) {
            Some(bytes) => Some(bytes.as_slice()),
            None => None,
        }
    }

    /// Gives the name this value.
    pub fn put(&mut self, alloc: Global, name: &Name, bytes: Vec<u8>) -> Result<(), NoMemory>
        ensures put { OnOk result ((n : List ℕ) → shown self.new n ≡ (if bytes_eq n name.now then Some bytes.items else shown self.old n)) }
        ensures refused { OnErr result ((n : List ℕ) → shown self.new n ≡ shown self.old n) }
    {
        let Ok(key) = String::from_str(alloc, name.as_str()) else {
            return Err(NoMemory);
        };
        match self.values.insert(key, bytes) {
            Ok(_) => Ok(()),
            Err(_) => Err(NoMemory),
        }
    }

    /// Takes the name away.
    pub fn remove(&mut self, name: &Name)
        ensures { (n : List ℕ) → shown self.new n ≡ (if bytes_eq n name.now then None else shown self.old n) }
    {
        self.values.remove(name.as_str());
    }

    /// Does what the change does to the present values.
    pub fn follow(&mut self, alloc: Global, change: &Change) -> Result<(), NoMemory>
        ensures done { OnOk result ((n : List ℕ) → shown self.new n ≡ now_step n change.now (shown self.old n)) }
        ensures refused { OnErr result ((n : List ℕ) → shown self.new n ≡ shown self.old n) }
    {
        if change.settles || !change.done {
            return Ok(());
        }
        match &change.value {
            None => {
                self.remove(&change.name);
                Ok(())
            }
            Some(bytes) => match Vec::from_slice(alloc, bytes) {
                Ok(copy) => self.put(alloc, &change.name, copy),
                Err(_) => Err(NoMemory),
            },
        }
    }

    /// The names at or below the prefix, in byte order.
    pub fn list(&self, alloc: Global, prefix: &Name) -> Result<Vec<Name>, NoMemory>
        ensures { IfOk result (λ names. IsListing prefix.now (shown self.now) names.items) }
    {
        let mut names = Vec::new(alloc);
        for (key, _) in self.values.iter() {
            add_if_below(alloc, &mut names, prefix.as_bytes(), key.as_str())?;
        }
        Ok(names)
    }

    /// The names that are neither the prefix nor below it, in byte order.
    pub fn names_beside(&self, alloc: Global, prefix: &[u8]) -> Result<Vec<Name>, NoMemory>
        ensures { IfOk result (λ names. AreBeside prefix.now (shown self.now) names.items) }
    {
        let mut names = Vec::new(alloc);
        for (key, _) in self.values.iter() {
            add_if_beside(alloc, &mut names, prefix, key.as_str())?;
        }
        Ok(names)
    }
}

// Adds the key to the names, unless it is at or below the prefix.
fn add_if_beside(
    alloc: Global,
    names: &mut Vec<Name>,
    prefix: &[u8],
    key: &str,
) -> Result<(), NoMemory>
    ensures { OnOk result (names.new.items ≡ names.old.items ++ (if not (is_at_or_below prefix.now key.now) then key.now ∷ [] else [])) }
{
    if is_at_or_below(prefix, key.as_bytes()) {
        return Ok(());
    }
    let name = name_of(alloc, key)?;
    let Ok(()) = names.push(name) else {
        return Err(NoMemory);
    };
    Ok(())
}

// Adds the key to the names, if it is at or below the prefix.
fn add_if_below(
    alloc: Global,
    names: &mut Vec<Name>,
    prefix: &[u8],
    key: &str,
) -> Result<(), NoMemory>
    ensures { OnOk result (names.new.items ≡ names.old.items ++ (if is_at_or_below prefix.now key.now then key.now ∷ [] else [])) }
{
    if !is_at_or_below(prefix, key.as_bytes()) {
        return Ok(());
    }
    let name = name_of(alloc, key)?;
    let Ok(()) = names.push(name) else {
        return Err(NoMemory);
    };
    Ok(())
}

// The name that a key is the text of.
fn name_of(alloc: Global, key: &str) -> Result<Name, NoMemory>
    ensures { IfOk result (λ name. name ≡ key.now) }
{
    match Name::parse(alloc, key) {
        Ok(name) => Ok(name),
        Err(_) => Err(NoMemory),
    }
}

// Whether the name is the prefix itself, or below it.
fn is_at_or_below(prefix: &[u8], name: &[u8]) -> bool
    ensures { result ≡ is_at_or_below prefix.now name.now }
{
    match name.strip_prefix(prefix) {
        Some([]) => true,
        Some([next, ..]) => *next == b'/',
        None => false,
    }
}
