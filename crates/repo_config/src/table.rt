//! The table of keys: one row for each key form. A key that is read later is a row more here and in
//! `specs/Table.antt`.
ghost use Rattle.std.specs.Prelude.{◌≡◌, find, IfOk};
ghost use Rattle.repo_config.specs.Words.{text};
ghost use Rattle.repo_config.specs.Table.{rows, kind_row, is_good, repeats};
ghost use Rattle.repo_config.specs.Refusals.{row_with};

use crate::form::{Absent, Form, Kinds, PartKind, Rule, Subject, Word};
use crate::key::is_same;
use crate::names::{Names, is_list};
use crate::values::{kind_said, layout_said, number_said, policy_said};
use nx_base::{Layout, NoMemory, Policy};
use std::alloc::Global;

const STORES: Form = Form {
    word: Word::Stores,
    kinds: Kinds::Every,
    rule: Rule::Names(Subject::OfStore),
    absent: Absent::Empty,
};

const REPOSITORIES: Form = Form {
    word: Word::Repositories,
    kinds: Kinds::Every,
    rule: Rule::Names(Subject::OfRepo),
    absent: Absent::Empty,
};

pub(crate) const JOURNAL: Form = Form {
    word: Word::Journal,
    kinds: Kinds::Every,
    rule: Rule::Number {
        least: 1,
        most: 1_000_000,
    },
    absent: Absent::IsNumber(100_000),
};

const STORE_KIND: Form = Form {
    word: Word::Kind,
    kinds: Kinds::Every,
    rule: Rule::KindName,
    absent: Absent::IsKind(PartKind::FileStore),
};

const STORE_LAYOUT: Form = Form {
    word: Word::Layout,
    kinds: Kinds::Only(PartKind::FileStore),
    rule: Rule::LayoutName,
    absent: Absent::IsLayout(Layout::Volume),
};

const REPO_KIND: Form = Form {
    word: Word::Kind,
    kinds: Kinds::Every,
    rule: Rule::KindName,
    absent: Absent::IsKind(PartKind::HostedRepo),
};

const REPO_STORE: Form = Form {
    word: Word::Store,
    kinds: Kinds::Every,
    rule: Rule::StoreOf,
    absent: Absent::Required,
};

const REPO_POLICY: Form = Form {
    word: Word::Policy,
    kinds: Kinds::Only(PartKind::HostedRepo),
    rule: Rule::PolicyWord,
    absent: Absent::IsPolicy(Policy::Redeploy),
};

static ROWS_OF_ALL: [Form; 3] = [STORES, REPOSITORIES, JOURNAL];

static ROWS_OF_STORE: [Form; 2] = [STORE_KIND, STORE_LAYOUT];

static ROWS_OF_REPO: [Form; 3] = [REPO_KIND, REPO_STORE, REPO_POLICY];

pub(crate) fn rows(subject: Subject) -> &'static [Form]
    ensures { result.now ≡ rows subject }
{
    match subject {
        Subject::OfAll => &ROWS_OF_ALL,
        Subject::OfStore => &ROWS_OF_STORE,
        Subject::OfRepo => &ROWS_OF_REPO,
    }
}

/// The row of the kind. A key of the whole has none.
pub(crate) fn kind_row(subject: Subject) -> Form
    ensures { result ≡ kind_row subject }
{
    match subject {
        Subject::OfAll => STORE_KIND,
        Subject::OfStore => STORE_KIND,
        Subject::OfRepo => REPO_KIND,
    }
}

/// The row with that word.
pub(crate) fn row_with(subject: Subject, last: &str) -> Option<Form>
    ensures { result ≡ row_with subject last.now }
{
    rows(subject)
        .iter()
        .copied()
        .find(|row| is_same(last, row.word.text()))
}

/// Whether the rule takes the value. A store's name isn't asked for here.
pub(crate) fn is_good(
    alloc: Global,
    subject: Subject,
    rule: Rule,
    value: &str,
) -> Result<bool, NoMemory>
    ensures { IfOk result (λ good. good ≡ is_good subject rule value.now) }
{
    match rule {
        Rule::Names(of) => is_list(alloc, of, value),
        Rule::KindName => Ok(kind_said(subject, value).is_some()),
        Rule::LayoutName => Ok(layout_said(value).is_some()),
        Rule::StoreOf => Ok(true),
        Rule::PolicyWord => Ok(policy_said(value).is_some()),
        Rule::Number { least, most } => Ok(number_said(least, most, value).is_some()),
    }
}

/// Whether the value is a list in which a name stands twice.
pub(crate) fn repeats(alloc: Global, rule: Rule, value: &str) -> Result<bool, NoMemory>
    ensures { IfOk result (λ twice. twice ≡ repeats rule value.now) }
{
    match rule {
        Rule::Names(_) => match Names::read(alloc, value) {
            Ok(names) => Ok(names.has_double()),
            Err(_) => Err(NoMemory),
        },
        Rule::KindName
        | Rule::LayoutName
        | Rule::StoreOf
        | Rule::PolicyWord
        | Rule::Number { .. } => Ok(false),
    }
}
