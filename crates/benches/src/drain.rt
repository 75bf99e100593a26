use disk_model::{DiskErr, Writer};

/// A file that takes every part and keeps nothing, so that a large content needs no room.
pub struct Drain;

impl Drain {
    /// Lets it go.
    pub fn end(self) {
        let Drain = self;
    }
}

impl Writer for Drain {
    ghost use Rattle.std.specs.Prelude.{[], None};

    type Sealed = Drain;

    ghost told = { ⊥ };

    ghost written = { λ w. [] };

    ghost content = { λ w. [] };

    ghost faults = { λ w. 0 };

    ghost plan = { λ w. None };

    fn write(&mut self, _part: &[u8]) -> Result<(), DiskErr> {
        Ok(())
    }

    fn seal(&mut self) -> Result<Drain, DiskErr> {
        Ok(Drain)
    }

    fn abort(self) {
        self.end();
    }
}
