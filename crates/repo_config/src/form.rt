//! The table of keys: one row for each key form. What is read later is a row more here and in
//! `specs/Table.antt`.
ghost use Rattle.std.specs.Prelude.{◌≡◌, codes};
ghost use Rattle.repo_config.specs.Words.{text};
ghost use Rattle.repo_config.specs.Table.{rows};

use nx_base::{Layout, Policy};

/// What a key is a key of.
#[derive(Clone, Copy)]
pub enum Subject {
    /// The whole: `<word>`.
    OfAll,
    /// A store: `store.<name>.<word>`.
    OfStore,
    /// A repository: `repo.<name>.<word>`.
    OfRepo,
}

/// The last part of a key.
#[derive(Clone, Copy)]
pub enum Word {
    Stores,
    Repositories,
    Journal,
    Kind,
    Layout,
    Store,
    Policy,
}

/// What a store or a repository is.
#[derive(Clone, Copy)]
pub enum PartKind {
    FileStore,
    HostedRepo,
}

/// Which kinds of a subject have a key.
#[derive(Clone, Copy)]
pub enum Kinds {
    Every,
    Only(PartKind),
}

/// The rule of a value.
#[derive(Clone, Copy)]
pub enum Rule {
    /// At most 64 distinct names with commas between them, or nothing.
    Names(Subject),
    /// The name of a kind of the subject.
    KindName,
    /// The name of a layout.
    LayoutName,
    /// A declared store.
    StoreOf,
    /// The word of a write policy.
    PolicyWord,
    /// A number in decimal digits, without leading zeros.
    Number { least: u64, most: u64 },
}

/// What counts where a key isn't there.
#[derive(Clone, Copy)]
pub enum Absent {
    Empty,
    IsKind(PartKind),
    IsLayout(Layout),
    IsPolicy(Policy),
    IsNumber(u64),
    /// It has to be there.
    Required,
}

/// A row of the table.
#[derive(Clone, Copy)]
pub struct Form {
    pub word: Word,
    pub kinds: Kinds,
    pub rule: Rule,
    pub absent: Absent,
}

impl Word {
    pub(crate) fn text(self) -> &'static str
        ensures { result.now ≡ text self }
    {
        match self {
            Word::Stores => "stores",
            Word::Repositories => "repositories",
            Word::Journal => "journal",
            Word::Kind => "kind",
            Word::Layout => "layout",
            Word::Store => "store",
            Word::Policy => "policy",
        }
    }
}
