ghost use Rattle.std.specs.Prelude.{◌≡◌, Ok, IfOk};
ghost use Rattle.nx_base.specs.NameErr.{Gives};
ghost use Rattle.nx_base.specs.Names.{name_of};

use crate::name_err::{NameErr, NoMemory};
use crate::name_rule::read_name;
use crate::text::owned;
use std::alloc::Global;
use std::marker::Model;

/// The name of a repository: 1 to 64 letters, digits, `.`, `_` and `-` of ASCII.
#[derive(Debug, Drop)]
pub struct RepoName {
    text: String,
}

impl Model for RepoName {
    ghost use Rattle.std.specs.Prelude.{ℕ, List, IsTrue};
    ghost use Rattle.std.specs.String.{string_bytes};
    ghost use Rattle.nx_base.specs.Names.{is_name};

    ghost Value = { List ℕ };

    ghost view = { λ n. string_bytes n.text };

    ghost invariant = { λ n. IsTrue (is_name (string_bytes n.text)) };
}

impl RepoName {
    /// Reads a name.
    pub fn parse(alloc: Global, text: &[u8]) -> Result<RepoName, NameErr>
        ensures { Gives (name_of text.now) result }
    {
        let name = read_name(text)?;
        match owned(alloc, name) {
            Ok(text) => Ok(RepoName { text }),
            Err(NoMemory) => Err(NameErr::NoMemory),
        }
    }

    pub fn as_bytes(&self) -> &[u8]
        ensures text { result.now ≡ self.now }
        ensures reads { name_of self.now ≡ Ok self.now }
    {
        self.text.as_bytes()
    }

    pub fn as_str(&self) -> &str
        ensures text { result.now ≡ self.now }
        ensures reads { name_of self.now ≡ Ok self.now }
    {
        self.text.as_str()
    }

    pub fn try_clone(&self, alloc: Global) -> Result<RepoName, NoMemory>
        ensures { IfOk result (λ name. name ≡ self.now) }
    {
        let text = owned(alloc, self.text.as_str())?;
        Ok(RepoName { text })
    }
}
