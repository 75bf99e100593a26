ghost use Rattle.std.specs.Prelude.{◌≡◌, ℕ, Bool, List, OnOk};
ghost use Rattle.std.specs.declared.option.Option.{Option};
ghost use Rattle.std.specs.Io.{ReadsAtMost};
ghost use Rattle.std.specs.Io.KnownBytes.{ReadConsumes};
ghost use Rattle.nx_io.specs.Causes.{HasCause};
ghost use Rattle.nx_io.specs.Reads.{TellsEnd};

use crate::failure::Failed;

/// Where bytes come from.
pub trait Source {
    /// The bytes that are left, where the source tells.
    ghost left: { Self → Option (List ℕ) };

    /// How often it failed.
    ghost faults: { Self → ℕ };

    /// Whether its last answer was the end. A source that doesn't tell its bytes says this nonetheless, so that nobody
    /// says that input ended where it didn't.
    ghost ended: { Self → Bool };

    /// What no read changes, as contracts see it: of a side of a connection, what the other side is read from; of the
    /// content of an answer, which answer that is.
    ghost Kept: { Type 0 };

    ghost kept: { Self → Kept };

    /// Writes the next bytes into the front of `buf` and returns how many. 0 for a buffer that isn't empty is the end.
    fn read(&mut self, buf: &mut [u8]) -> Result<usize, Failed>
        ensures bound { ReadsAtMost result buf.new }
        ensures bytes { ReadConsumes (left self.old) (left self.new) result buf.new }
        ensures end { TellsEnd (ended self.old) (ended self.new) result buf.new }
        ensures cause { HasCause (faults self.old) (faults self.new) result }
        // And no fault is passed over.
        ensures quiet { OnOk result (faults self.new ≡ faults self.old) }
        ensures kept { kept self.new ≡ kept self.old };
}
