ghost use Rattle.std.specs.Prelude.{◌≡◌, ◌+◌, ◌<◌, ◌≤◌, ◌^◌, length, Ok, IfOk};
ghost use Rattle.nx_base.specs.NameErr.{Gives, refusal_behind, SpeaksOf};
ghost use Rattle.nx_base.specs.Paths.{path_of, after_slash};

use crate::name_err::{NameErr, NoMemory};
use crate::path_rule::read_slashed;
use crate::text::owned;
use std::alloc::Global;
use std::marker::Model;

/// The most bytes of a path.
const PATH_LENGTH: usize = 512;

/// The path of an asset in its repository, without a leading slash.
#[derive(Debug, Drop)]
pub struct AssetPath {
    text: String,
}

impl Model for AssetPath {
    ghost use Rattle.std.specs.Prelude.{ℕ, List, IsTrue};
    ghost use Rattle.std.specs.String.{string_bytes};
    ghost use Rattle.nx_base.specs.Paths.{is_path};

    ghost Value = { List ℕ };

    ghost view = { λ p. string_bytes p.text };

    ghost invariant = { λ p. IsTrue (is_path (string_bytes p.text)) };
}

// The text without one leading slash.
fn after_slash(text: &[u8]) -> &[u8]
    ensures rest { result.now ≡ after_slash text.now }
    ensures within { length result.now ≤ length text.now }
{
    match text {
        [b'/', rest @ ..] => rest,
        _ => text,
    }
}

// The refusal of what stands behind `prefix` bytes of a text, with its place in the text.
fn behind(prefix: usize, length: usize, refusal: NameErr) -> NameErr
    requires within { SpeaksOf length refusal }
    requires fits { prefix + length < 2 ^ 64 }
    ensures { result ≡ refusal_behind prefix refusal }
{
    match refusal {
        NameErr::BadByte { at } => NameErr::BadByte { at: prefix + at },
        NameErr::BadSegment { at } => NameErr::BadSegment { at: prefix + at },
        NameErr::Empty => NameErr::Empty,
        NameErr::TooLong { length } => NameErr::TooLong { length },
        NameErr::NoMemory => NameErr::NoMemory,
    }
}

impl AssetPath {
    /// Reads a path. One leading slash is dropped.
    pub fn parse(alloc: Global, text: &[u8]) -> Result<AssetPath, NameErr>
        ensures { Gives (path_of text.now) result }
    {
        let path = after_slash(text);
        match read_slashed(path, PATH_LENGTH) {
            Ok(path) => match owned(alloc, path) {
                Ok(text) => Ok(AssetPath { text }),
                Err(NoMemory) => Err(NameErr::NoMemory),
            },
            Err(refusal) => Err(behind(text.len() - path.len(), path.len(), refusal)),
        }
    }

    pub fn as_bytes(&self) -> &[u8]
        ensures text { result.now ≡ self.now }
        ensures reads { path_of self.now ≡ Ok self.now }
    {
        self.text.as_bytes()
    }

    pub fn as_str(&self) -> &str
        ensures text { result.now ≡ self.now }
        ensures reads { path_of self.now ≡ Ok self.now }
    {
        self.text.as_str()
    }

    pub fn try_clone(&self, alloc: Global) -> Result<AssetPath, NoMemory>
        ensures { IfOk result (λ path. path ≡ self.now) }
    {
        let text = owned(alloc, self.text.as_str())?;
        Ok(AssetPath { text })
    }
}
