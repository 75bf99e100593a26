//! Lists of names: texts with commas between them.
ghost use Rattle.std.specs.Prelude.{◌≡◌, map, IfOk};
ghost use Rattle.std.specs.List.{list_all};
ghost use Rattle.repo_config.specs.Lists.{parts_of, may_name, is_list};

use crate::form::Subject;
use java_props::Pairs;
use nx_base::{NameErr, NoMemory, RepoName, StoreName};
use std::alloc::{AllocError, Global};
use std::collections::BTreeSet;

/// The most names of a list.
const MOST_NAMES: usize = 64;

/// The texts between the commas.
pub(crate) fn parts<'a>(alloc: Global, text: &'a str) -> Result<Vec<&'a str>, AllocError>
    ensures { IfOk result (λ parts. map (λ part. part.now) parts.items ≡ parts_of text.now) }
{
    text.split(',').collect(alloc)
}

/// Whether a store, or a repository, may be called so.
fn may_name(alloc: Global, subject: Subject, name: &str) -> Result<bool, NoMemory>
    ensures { IfOk result (λ good. good ≡ may_name subject name.now) }
{
    let bytes = name.as_bytes();
    let refusal = match subject {
        Subject::OfAll => return Ok(false),
        Subject::OfStore => StoreName::parse(alloc, bytes).err(),
        Subject::OfRepo => RepoName::parse(alloc, bytes).err(),
    };
    match refusal {
        None => Ok(true),
        Some(NameErr::NoMemory) => Err(NoMemory),
        Some(_) => Ok(false),
    }
}

/// Whether stores, or repositories, may be called so.
fn all_may_name(alloc: Global, subject: Subject, names: &[&str]) -> Result<bool, NoMemory>
    ensures { IfOk result (λ good. good ≡ list_all (may_name subject) (map (λ name. name.now) names.now)) }
{
    for name in names {
        if !may_name(alloc, subject, name)? {
            return Ok(false);
        }
    }
    Ok(true)
}

/// Whether the text is nothing, or at most 64 names.
pub(crate) fn is_list(alloc: Global, subject: Subject, text: &str) -> Result<bool, NoMemory>
    ensures { IfOk result (λ good. good ≡ is_list subject text.now) }
{
    if text.is_empty() {
        return Ok(true);
    }
    let Ok(parts) = parts(alloc, text) else {
        return Err(NoMemory);
    };
    if parts.len() > MOST_NAMES {
        return Ok(false);
    }
    all_may_name(alloc, subject, parts.as_slice())
}

/// The names that a list declares, to be looked up.
#[derive(Drop)]
pub(crate) struct Names {
    set: BTreeSet<String>,
    twice: bool,
}

impl Names {
    ghost use Rattle.std.specs.Prelude.{ℕ, List, OnOk};
    ghost use Rattle.repo_config.specs.Lists.{names_in, has_name, has_double};
    ghost use Rattle.repo_config.specs.Found.{HasNames, with_name};

    /// The texts between the commas that aren't empty, good names or not.
    pub(crate) fn read(alloc: Global, text: &str) -> Result<Names, AllocError>
        ensures { IfOk result (λ names. HasNames names (names_in text.now)) }
    {
        let parts = parts(alloc, text)?;
        let mut names = Names {
            set: BTreeSet::new(alloc),
            twice: false,
        };
        let mut left = parts.len();
        while left > 0 {
            left -= 1;
            names.add(alloc, parts[left])?;
        }
        Ok(names)
    }

    fn add(&mut self, alloc: Global, name: &str) -> Result<(), AllocError>
        ensures { OnOk result ((list : List (List ℕ)) → HasNames self.old list → HasNames self.new (with_name name.now list)) }
    {
        if name.is_empty() {
            return Ok(());
        }
        let is_new = self.set.insert(String::from_str(alloc, name)?)?;
        if !is_new {
            self.twice = true;
        }
        Ok(())
    }

    /// Whether the list has the name.
    pub(crate) fn has(&self, name: &str) -> bool
        ensures { (list : List (List ℕ)) → HasNames self.now list → result ≡ has_name list name.now }
    {
        self.set.contains(name)
    }

    /// Whether the list has a name twice.
    pub(crate) fn has_double(&self) -> bool
        ensures { (list : List (List ℕ)) → HasNames self.now list → result ≡ has_double list }
    {
        self.twice
    }
}

/// The names of stores and of repositories that pairs declare.
#[derive(Drop)]
pub(crate) struct Declared {
    stores: Names,
    repos: Names,
}

impl Declared {
    ghost use Rattle.repo_config.specs.declared.form.Subject.TheVariants.{OfStore};
    ghost use Rattle.java_props.specs.Kept.{Entries};
    ghost use Rattle.repo_config.specs.Lists.{has_name};
    ghost use Rattle.repo_config.specs.Settings.{declared, is_declared};
    ghost use Rattle.repo_config.specs.Found.{AreDeclared};

    pub(crate) fn read(alloc: Global, pairs: &Pairs) -> Result<Declared, AllocError>
        ensures { IfOk result (λ names. AreDeclared names pairs.now) }
    {
        let stores = Names::read(alloc, pairs.get("stores").unwrap_or(""))?;
        let repos = Names::read(alloc, pairs.get("repositories").unwrap_or(""))?;
        Ok(Declared { stores, repos })
    }

    /// Whether the name of a key is declared; a key of the whole has none.
    pub(crate) fn has(&self, subject: Subject, name: &str) -> bool
        ensures { (pairs : Entries) → AreDeclared self.now pairs → result ≡ is_declared subject pairs name.now }
    {
        match subject {
            Subject::OfAll => true,
            Subject::OfStore => self.stores.has(name),
            Subject::OfRepo => self.repos.has(name),
        }
    }

    pub(crate) fn has_store(&self, name: &str) -> bool
        ensures { (pairs : Entries) → AreDeclared self.now pairs → result ≡ has_name (declared OfStore pairs) name.now }
    {
        self.stores.has(name)
    }
}
