ghost use Rattle.std.specs.Prelude.{◌≡◌, IfOk};

use nx_base::NoMemory;
use std::alloc::Global;
use std::marker::Model;

/// Why a blob was deleted: any text.
#[derive(Debug, Drop)]
pub struct Reason {
    text: String,
}

impl Model for Reason {
    ghost use Rattle.std.specs.Prelude.{ℕ, List};
    ghost use Rattle.std.specs.String.{string_bytes};

    ghost Value = { List ℕ };

    ghost view = { λ r. string_bytes r.text };
}

impl Reason {
    pub fn new(alloc: Global, text: &str) -> Result<Reason, NoMemory>
        ensures { IfOk result (λ reason. reason ≡ text.now) }
    {
        match String::from_str(alloc, text) {
            Ok(text) => Ok(Reason { text }),
            Err(_) => Err(NoMemory),
        }
    }

    pub fn as_str(&self) -> &str
        ensures { result.now ≡ self.now }
    {
        self.text.as_str()
    }

    pub fn try_clone(&self, alloc: Global) -> Result<Reason, NoMemory>
        ensures { IfOk result (λ reason. reason ≡ self.now) }
    {
        Reason::new(alloc, self.text.as_str())
    }
}
