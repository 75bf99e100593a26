ghost use Rattle.std.specs.Prelude.{◌≡◌, IfOk};

use std::alloc::{AllocError, Global};
use std::marker::Model;

/// A key of the configuration, as text.
#[derive(Debug, Drop)]
pub struct KeyText {
    text: String,
}

impl Model for KeyText {
    ghost use Rattle.std.specs.Prelude.{ℕ, List};
    ghost use Rattle.std.specs.String.{string_bytes};

    ghost Value = { List ℕ };

    ghost view = { λ k. string_bytes k.text };
}

impl KeyText {
    pub(crate) fn new(alloc: Global, text: &str) -> Result<KeyText, AllocError>
        ensures { IfOk result (λ key. key ≡ text.now) }
    {
        Ok(KeyText {
            text: String::from_str(alloc, text)?,
        })
    }

    /// It takes no memory.
    pub fn as_str(&self) -> &str
        ensures { result.now ≡ self.now }
    {
        self.text.as_str()
    }
}
