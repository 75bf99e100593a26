//! What the pairs of a text set.
ghost use Rattle.std.specs.Prelude.{◌≡◌, map, IfOk};
ghost use Rattle.repo_config.specs.Lists.{names_in};
ghost use Rattle.repo_config.specs.Settings.{text_at, absent_kind, absent_number, number_by, declared, kind_of, same_kind, has_key, journal_of, layout_of, policy_of};
ghost use Rattle.repo_config.specs.Refusals.{has_row};

use crate::form::{Absent, Form, Kinds, PartKind, Rule, Subject, Word};
use crate::key::key_text;
use crate::names::parts;
use crate::table::{JOURNAL, kind_row};
use crate::values::{kind_said, layout_said, number_said, policy_said};
use java_props::Pairs;
use nx_base::{Layout, Policy};
use std::alloc::{AllocError, Global};

/// The text at a key, which is empty where the key isn't there.
pub(crate) fn text_at<'a>(pairs: &'a Pairs, key: &str) -> &'a str
    ensures { result.now ≡ text_at pairs.now key.now }
{
    match pairs.get(key) {
        Some(value) => value,
        None => "",
    }
}

/// The texts of a list that aren't empty.
pub(crate) fn names_in<'a>(alloc: Global, text: &'a str) -> Result<Vec<&'a str>, AllocError>
    ensures { IfOk result (λ names. map (λ name. name.now) names.items ≡ names_in text.now) }
{
    let parts = parts(alloc, text)?;
    let mut names = Vec::new(alloc);
    for part in &parts {
        if !part.is_empty() {
            names.push(*part)?;
        }
    }
    Ok(names)
}

/// The declared stores, or repositories.
pub(crate) fn declared<'a>(
    alloc: Global,
    subject: Subject,
    pairs: &'a Pairs,
) -> Result<Vec<&'a str>, AllocError>
    ensures { IfOk result (λ names. map (λ name. name.now) names.items ≡ declared subject pairs.now) }
{
    match subject {
        Subject::OfAll => Ok(Vec::new(alloc)),
        Subject::OfStore => names_in(alloc, text_at(pairs, "stores")),
        Subject::OfRepo => names_in(alloc, text_at(pairs, "repositories")),
    }
}

fn absent_kind(absent: Absent) -> PartKind
    ensures { result ≡ absent_kind absent }
{
    match absent {
        Absent::IsKind(kind) => kind,
        Absent::Empty
        | Absent::IsLayout(_)
        | Absent::IsPolicy(_)
        | Absent::IsNumber(_)
        | Absent::Required => PartKind::FileStore,
    }
}

fn absent_number(absent: Absent) -> u64
    ensures { result ≡ absent_number absent }
{
    match absent {
        Absent::IsNumber(n) => n,
        Absent::Empty
        | Absent::IsKind(_)
        | Absent::IsLayout(_)
        | Absent::IsPolicy(_)
        | Absent::Required => 0,
    }
}

fn number_by(rule: Rule, value: &str) -> Option<u64>
    ensures { result ≡ number_by rule value.now }
{
    match rule {
        Rule::Number { least, most } => number_said(least, most, value),
        Rule::Names(_) | Rule::KindName | Rule::LayoutName | Rule::StoreOf | Rule::PolicyWord =>
            None,
    }
}

/// The kind of a store or of a repository: that of its row where none is said, or no good one.
pub(crate) fn kind_of(
    alloc: Global,
    subject: Subject,
    pairs: &Pairs,
    name: &str,
) -> Result<PartKind, AllocError>
    ensures { IfOk result (λ kind. kind ≡ kind_of subject pairs.now name.now) }
{
    let key = key_text(alloc, subject, name, Word::Kind)?;
    let other = absent_kind(kind_row(subject).absent);
    match pairs.get(key.as_str()) {
        Some(value) => Ok(kind_said(subject, value).unwrap_or(other)),
        None => Ok(other),
    }
}

fn same_kind(a: PartKind, b: PartKind) -> bool
    ensures { result ≡ same_kind a b }
{
    match a {
        PartKind::FileStore => matches!(b, PartKind::FileStore),
        PartKind::HostedRepo => matches!(b, PartKind::HostedRepo),
    }
}

fn has_key(kinds: Kinds, kind: PartKind) -> bool
    ensures { result ≡ has_key kinds kind }
{
    match kinds {
        Kinds::Every => true,
        Kinds::Only(one) => same_kind(one, kind),
    }
}

/// Whether the store or the repository of that name has the key of the row.
pub(crate) fn has_row(
    alloc: Global,
    subject: Subject,
    pairs: &Pairs,
    name: &str,
    row: Form,
) -> Result<bool, AllocError>
    ensures { IfOk result (λ has. has ≡ has_row subject pairs.now name.now row) }
{
    let kind = kind_of(alloc, subject, pairs, name)?;
    Ok(has_key(row.kinds, kind))
}

/// How many entries the journal takes.
pub(crate) fn journal_of(pairs: &Pairs) -> u64
    ensures { result ≡ journal_of pairs.now }
{
    let other = absent_number(JOURNAL.absent);
    match pairs.get(Word::Journal.text()) {
        Some(value) => number_by(JOURNAL.rule, value).unwrap_or(other),
        None => other,
    }
}

pub(crate) fn layout_of(alloc: Global, pairs: &Pairs, name: &str) -> Result<Layout, AllocError>
    ensures { IfOk result (λ layout. layout ≡ layout_of pairs.now name.now) }
{
    let key = key_text(alloc, Subject::OfStore, name, Word::Layout)?;
    match pairs.get(key.as_str()) {
        Some(value) => Ok(layout_said(value).unwrap_or(Layout::Volume)),
        None => Ok(Layout::Volume),
    }
}

/// What the repository of that name lets be written.
pub(crate) fn policy_of(alloc: Global, pairs: &Pairs, name: &str) -> Result<Policy, AllocError>
    ensures { IfOk result (λ policy. policy ≡ policy_of pairs.now name.now) }
{
    let key = key_text(alloc, Subject::OfRepo, name, Word::Policy)?;
    match pairs.get(key.as_str()) {
        Some(value) => Ok(policy_said(value).unwrap_or(Policy::Redeploy)),
        None => Ok(Policy::Redeploy),
    }
}
