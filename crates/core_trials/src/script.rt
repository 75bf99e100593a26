//! The script, and which contents and answers it has.

use crate::said::Said;
use nx_base::{AssetPath, Key, NoMemory, RepoName};
use std::alloc::Global;

/// The two paths that the script writes to.
#[derive(Clone, Copy, PartialEq, Eq)]
pub enum Path {
    Changed,
    Kept,
}

impl Path {
    /// Its text.
    pub fn text(self) -> &'static str {
        match self {
            Path::Changed => "a/b.txt",
            Path::Kept => "c.txt",
        }
    }

    /// The path with that text.
    pub fn of(text: &[u8]) -> Option<Path> {
        [Path::Changed, Path::Kept]
            .into_iter()
            .find(|path| path.text().as_bytes() == text)
    }
}

/// The three contents that the script stores.
#[derive(Clone, Copy, PartialEq, Eq)]
pub enum Text {
    Old,
    New,
    Other,
}

impl Text {
    /// Its bytes.
    pub fn bytes(self) -> &'static [u8] {
        match self {
            Text::Old => b"the first content",
            Text::New => b"what came in its place",
            Text::Other => b"another",
        }
    }

    /// The content with these bytes.
    pub fn of(bytes: &[u8]) -> Option<Text> {
        [Text::Old, Text::New, Text::Other]
            .into_iter()
            .find(|text| text.bytes() == bytes)
    }
}

/// What a request asks for.
#[derive(Clone, Copy, PartialEq, Eq)]
pub enum Ask {
    Put(Text),
    Get,
    Delete,
}

/// A request of the script.
#[derive(Clone, Copy)]
pub struct Step {
    pub path: Path,
    pub ask: Ask,
}

/// The six requests.
pub const SCRIPT: [Step; 6] = [
    Step {
        path: Path::Changed,
        ask: Ask::Put(Text::Old),
    },
    Step {
        path: Path::Changed,
        ask: Ask::Put(Text::New),
    },
    Step {
        path: Path::Kept,
        ask: Ask::Put(Text::Other),
    },
    Step {
        path: Path::Changed,
        ask: Ask::Get,
    },
    Step {
        path: Path::Changed,
        ask: Ask::Delete,
    },
    Step {
        path: Path::Changed,
        ask: Ask::Get,
    },
];

/// What a core that keeps a cause is asked behind the script: one request of each kind.
pub const BEHIND: [Step; 3] = [
    Step {
        path: Path::Kept,
        ask: Ask::Put(Text::New),
    },
    Step {
        path: Path::Kept,
        ask: Ask::Get,
    },
    Step {
        path: Path::Kept,
        ask: Ask::Delete,
    },
];

/// The content of each path.
#[derive(Clone, Copy, PartialEq, Eq)]
pub struct Contents {
    pub changed: Option<Text>,
    pub kept: Option<Text>,
}

impl Contents {
    /// Nothing is stored.
    pub const NONE: Contents = Contents {
        changed: None,
        kept: None,
    };

    /// The content of that path.
    pub fn at(self, path: Path) -> Option<Text> {
        match path {
            Path::Changed => self.changed,
            Path::Kept => self.kept,
        }
    }

    /// The same but for that path.
    pub fn with(self, path: Path, text: Option<Text>) -> Contents {
        match path {
            Path::Changed => Contents {
                changed: text,
                kept: self.kept,
            },
            Path::Kept => Contents {
                changed: self.changed,
                kept: text,
            },
        }
    }
}

impl Step {
    /// What a request is answered in a repository with these contents where nothing fails.
    pub fn usual(&self, contents: Contents) -> Said {
        match (self.ask, contents.at(self.path)) {
            (Ask::Put(text), _) => Said::Stored(text),
            (Ask::Get, Some(text)) => Said::Given(text),
            (Ask::Delete, Some(_)) => Said::Gone,
            (Ask::Get | Ask::Delete, None) => Said::NotFound,
        }
    }

    /// The contents behind it where it isn't refused.
    pub fn after(&self, contents: Contents) -> Contents {
        match self.ask {
            Ask::Put(text) => contents.with(self.path, Some(text)),
            Ask::Get => contents,
            Ask::Delete => contents.with(self.path, None),
        }
    }
}

/// The key of a path.
pub fn key_of(alloc: Global, path: Path) -> Result<Key, NoMemory> {
    let (Ok(repo), Ok(path)) = (
        RepoName::parse(alloc, b"files"),
        AssetPath::parse(alloc, path.text().as_bytes()),
    ) else {
        return Err(NoMemory);
    };
    Ok(Key { repo, path })
}
