ghost use Rattle.std.specs.Prelude.{◌≡◌, Ok, IfOk};
ghost use Rattle.nx_base.specs.NameErr.{Gives};
ghost use Rattle.nx_base.specs.Names.{store_name_of, is_reserved};

use crate::name_err::{NameErr, NoMemory};
use crate::name_rule::read_name;
use crate::text::{owned, same_text};
use std::alloc::Global;
use std::marker::Model;

/// The name of a blob store or of a group of them: a name, and none of those that the folder of
/// the repository needs for itself.
#[derive(Debug, Drop)]
pub struct StoreName {
    text: String,
}

impl Model for StoreName {
    ghost use Rattle.std.specs.Prelude.{ℕ, List, IsTrue};
    ghost use Rattle.std.specs.String.{string_bytes};
    ghost use Rattle.nx_base.specs.Names.{is_store_name};

    ghost Value = { List ℕ };

    ghost view = { λ n. string_bytes n.text };

    ghost invariant = { λ n. IsTrue (is_store_name (string_bytes n.text)) };
}

// Whether no store may have the name, since it is `.`, `..` or that of a file or folder beside the
// stores.
fn is_reserved(text: &[u8]) -> bool
    ensures { result ≡ is_reserved text.now }
{
    same_text(text, b".")
        || same_text(text, b"..")
        || same_text(text, b"tmp")
        || same_text(text, b"state")
        || same_text(text, b"config.properties")
        || same_text(text, b"assets.db")
}

impl StoreName {
    /// Reads a name. A reserved one is `BadByte` at 0.
    pub fn parse(alloc: Global, text: &[u8]) -> Result<StoreName, NameErr>
        ensures { Gives (store_name_of text.now) result }
    {
        if is_reserved(text) {
            return Err(NameErr::BadByte { at: 0 });
        }
        let name = read_name(text)?;
        match owned(alloc, name) {
            Ok(text) => Ok(StoreName { text }),
            Err(NoMemory) => Err(NameErr::NoMemory),
        }
    }

    pub fn as_bytes(&self) -> &[u8]
        ensures text { result.now ≡ self.now }
        ensures reads { store_name_of self.now ≡ Ok self.now }
    {
        self.text.as_bytes()
    }

    pub fn as_str(&self) -> &str
        ensures text { result.now ≡ self.now }
        ensures reads { store_name_of self.now ≡ Ok self.now }
    {
        self.text.as_str()
    }

    pub fn try_clone(&self, alloc: Global) -> Result<StoreName, NoMemory>
        ensures { IfOk result (λ name. name ≡ self.now) }
    {
        let text = owned(alloc, self.text.as_str())?;
        Ok(StoreName { text })
    }
}
