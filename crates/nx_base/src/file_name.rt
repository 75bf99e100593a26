ghost use Rattle.std.specs.Prelude.{◌≡◌, Ok, IfOk};
ghost use Rattle.nx_base.specs.NameErr.{Gives};
ghost use Rattle.nx_base.specs.Paths.{file_name_of};

use crate::name_err::{NameErr, NoMemory};
use crate::path_rule::read_slashed;
use crate::text::owned;
use std::alloc::Global;
use std::marker::Model;

/// The most bytes of a file's name.
const FILE_NAME_LENGTH: usize = 1000;

/// The name of a file on a disk, below the folder of the repository: segments between slashes.
#[derive(Debug, Drop)]
pub struct Name {
    text: String,
}

impl Model for Name {
    ghost use Rattle.std.specs.Prelude.{ℕ, List, IsTrue};
    ghost use Rattle.std.specs.String.{string_bytes};
    ghost use Rattle.nx_base.specs.Paths.{is_file_name};

    ghost Value = { List ℕ };

    ghost view = { λ n. string_bytes n.text };

    ghost invariant = { λ n. IsTrue (is_file_name (string_bytes n.text)) };
}

impl Name {
    /// Reads a name. A leading slash isn't dropped, so it makes an empty segment at 0.
    pub fn parse(alloc: Global, text: &str) -> Result<Name, NameErr>
        ensures { Gives (file_name_of text.now) result }
    {
        match read_slashed(text.as_bytes(), FILE_NAME_LENGTH) {
            Ok(name) => match owned(alloc, name) {
                Ok(text) => Ok(Name { text }),
                Err(NoMemory) => Err(NameErr::NoMemory),
            },
            Err(refusal) => Err(refusal),
        }
    }

    pub fn as_bytes(&self) -> &[u8]
        ensures text { result.now ≡ self.now }
        ensures reads { file_name_of self.now ≡ Ok self.now }
    {
        self.text.as_bytes()
    }

    pub fn as_str(&self) -> &str
        ensures text { result.now ≡ self.now }
        ensures reads { file_name_of self.now ≡ Ok self.now }
    {
        self.text.as_str()
    }

    pub fn try_clone(&self, alloc: Global) -> Result<Name, NoMemory>
        ensures { IfOk result (λ name. name ≡ self.now) }
    {
        let text = owned(alloc, self.text.as_str())?;
        Ok(Name { text })
    }
}
