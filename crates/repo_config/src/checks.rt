//! The refusals, step by step.
ghost use Rattle.std.specs.Prelude.{◌≡◌, ◌≤◌, ℕ, [], map, fold, find, length, None, IfOk};
ghost use Rattle.java_props.specs.Kept.{put};
ghost use Rattle.repo_config.specs.declared.form.Subject.TheVariants.{OfRepo, OfStore};
ghost use Rattle.repo_config.specs.declared.form.Word.TheVariants as word;
ghost use Rattle.repo_config.specs.Keys.{key_text};
ghost use Rattle.repo_config.specs.Settings.{text_at, declared};
ghost use Rattle.repo_config.specs.Table.{rows};
ghost use Rattle.repo_config.specs.Refusals as step;
ghost use Rattle.repo_config.specs.Reading.{Answers};
ghost use Rattle.repo_config.specs.Found.{AreDeclared};

use crate::config_err::ConfigErr;
use crate::form::{Absent, Form, Rule, Subject, Word};
use crate::key::{key_text, middle, subject, tail};
use crate::names::Declared;
use crate::settings::{declared, has_row, text_at};
use crate::table::{is_good, repeats, row_with, rows};
use java_props::{Pairs, SetErr};
use nx_base::NoMemory;
use std::alloc::{AllocError, Global};

/// A key for which the table has that row.
fn test_row(
    alloc: Global,
    names: &Declared,
    pairs: &Pairs,
    subject: Subject,
    key: &str,
    value: &str,
    row: Form,
) -> Result<(), ConfigErr>
    requires { AreDeclared names.now pairs.now }
    ensures { Answers (step.row_refusal subject pairs.now key.now value.now row) result }
{
    let name = middle(key);
    if !names.has(subject, name) || !has_row(alloc, subject, pairs, name, row)? {
        return Err(ConfigErr::unknown_key(alloc, key));
    }
    if repeats(alloc, row.rule, value)? {
        return Err(ConfigErr::duplicate_name(alloc, key));
    }
    if !is_good(alloc, subject, row.rule, value)? {
        return Err(ConfigErr::bad_value(alloc, key));
    }
    Ok(())
}

/// A key and its value.
fn test_key(
    alloc: Global,
    names: &Declared,
    pairs: &Pairs,
    key: &str,
    value: &str,
) -> Result<(), ConfigErr>
    requires { AreDeclared names.now pairs.now }
    ensures { Answers (step.key_refusal pairs.now (key.now, value.now)) result }
{
    let Some(subject) = subject(key) else {
        return Err(ConfigErr::unknown_key(alloc, key));
    };
    match row_with(subject, tail(key)) {
        Some(row) => test_row(alloc, names, pairs, subject, key, value, row),
        None => Err(ConfigErr::unknown_key(alloc, key)),
    }
}

/// Each key, in byte order.
fn test_keys(alloc: Global, pairs: &Pairs) -> Result<(), ConfigErr>
    ensures { Answers (step.test_keys pairs.now) result }
{
    let names = Declared::read(alloc, pairs)?;
    for at in 0..pairs.len() {
        let Some((key, value)) = pairs.pair(at) else {
            unreachable!();
        };
        test_key(alloc, &names, pairs, key, value)?;
    }
    Ok(())
}

fn is_required(absent: Absent) -> bool
    ensures { result ≡ step.is_required absent }
{
    matches!(absent, Absent::Required)
}

fn names_store(rule: Rule) -> bool
    ensures { result ≡ step.names_store rule }
{
    matches!(rule, Rule::StoreOf)
}

/// Whether the key of the row is required, and isn't there. The store of a repository is asked for
/// later.
fn lacks(
    alloc: Global,
    subject: Subject,
    pairs: &Pairs,
    name: &str,
    row: Form,
) -> Result<bool, AllocError>
    ensures { IfOk result (λ lacking. lacking ≡ step.lacks subject pairs.now name.now row) }
{
    if !is_required(row.absent) || names_store(row.rule) {
        return Ok(false);
    }
    if !has_row(alloc, subject, pairs, name, row)? {
        return Ok(false);
    }
    let key = key_text(alloc, subject, name, row.word)?;
    Ok(pairs.get(key.as_str()).is_none())
}

/// The first row whose key is required, and isn't there.
fn missing_row(
    alloc: Global,
    subject: Subject,
    pairs: &Pairs,
    name: &str,
) -> Result<Option<Form>, AllocError>
    ensures { IfOk result (λ row. row ≡ find (step.lacks subject pairs.now name.now) (rows subject)) }
{
    for row in rows(subject) {
        if lacks(alloc, subject, pairs, name, *row)? {
            return Ok(Some(*row));
        }
    }
    Ok(None)
}

/// The required keys of one store or repository.
fn test_part(alloc: Global, subject: Subject, pairs: &Pairs, name: &str) -> Result<(), ConfigErr>
    ensures { Answers (step.missing_refusal subject pairs.now name.now) result }
{
    match missing_row(alloc, subject, pairs, name)? {
        None => Ok(()),
        Some(row) => {
            let key = key_text(alloc, subject, name, row.word)?;
            Err(ConfigErr::bad_value(alloc, key.as_str()))
        }
    }
}

/// The required keys of stores or repositories.
fn test_parts(
    alloc: Global,
    subject: Subject,
    pairs: &Pairs,
    names: &[&str],
) -> Result<(), ConfigErr>
    ensures { Answers (step.first_refusal (step.missing_refusal subject pairs.now) (map (λ name. name.now) names.now)) result }
{
    for name in names {
        test_part(alloc, subject, pairs, name)?;
    }
    Ok(())
}

/// The keys of the stores of repositories. One that isn't there counts as the empty text.
fn store_keys(alloc: Global, pairs: &Pairs, repos: &[&str]) -> Result<Pairs, NoMemory>
    requires { length repos.now ≤ 256 }
    ensures { IfOk result (λ keys. keys ≡ step.store_keys_of pairs.now (map (λ name. name.now) repos.now)) }
{
    let mut keys = Pairs::new(alloc);
    for name in repos {
        let Ok(key) = key_text(alloc, Subject::OfRepo, name, Word::Store) else {
            return Err(NoMemory);
        };
        let key = key.as_str();
        match keys.set(key, text_at(pairs, key)) {
            Ok(()) => {}
            Err(SetErr::NoMemory) => return Err(NoMemory),
            Err(SetErr::Full) => unreachable!(),
        }
    }
    Ok(keys)
}

/// The keys of the stores of repositories, in byte order.
fn test_store_keys(alloc: Global, pairs: &Pairs, keys: &Pairs) -> Result<(), ConfigErr>
    ensures { Answers (step.first_refusal (step.store_refusal pairs.now) keys.now) result }
{
    let names = Declared::read(alloc, pairs)?;
    for at in 0..keys.len() {
        let Some((key, store)) = keys.pair(at) else {
            unreachable!();
        };
        if !names.has_store(store) {
            return Err(ConfigErr::no_store(alloc, key));
        }
    }
    Ok(())
}

/// The stores of the repositories.
fn test_stores(alloc: Global, pairs: &Pairs, repos: &[&str]) -> Result<(), ConfigErr>
    requires few { length repos.now ≤ 256 }
    requires declared { map (λ name. name.now) repos.now ≡ declared OfRepo pairs.now }
    ensures { Answers (step.test_stores pairs.now) result }
{
    let keys = store_keys(alloc, pairs, repos)?;
    test_store_keys(alloc, pairs, &keys)
}

/// All steps.
pub(crate) fn test(alloc: Global, pairs: &Pairs) -> Result<(), ConfigErr>
    ensures refused { Answers (step.refusal pairs.now) result }
{
    test_keys(alloc, pairs)?;
    let stores = declared(alloc, Subject::OfStore, pairs)?;
    let repos = declared(alloc, Subject::OfRepo, pairs)?;
    test_parts(alloc, Subject::OfStore, pairs, stores.as_slice())?;
    test_parts(alloc, Subject::OfRepo, pairs, repos.as_slice())?;
    test_stores(alloc, pairs, repos.as_slice())
}
