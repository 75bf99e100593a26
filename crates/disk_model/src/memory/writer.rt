ghost use Rattle.std.specs.Prelude.{◌≡◌, ◌≤◌, [], true, false};
ghost use Rattle.nx_io.specs.Causes.{MovesByOne};
ghost use Rattle.disk_model.specs.Plan.{one_more, is_listed};

use crate::disk_err::DiskErr;
use crate::memory::count::one_more;
use crate::writer::Writer;
use std::alloc::Global;

/// The bytes of a sealed file.
#[derive(Debug)]
pub struct MemSealed {
    pub(crate) bytes: Vec<u8>,
}

/// A file in memory that is being written.
pub struct MemWriter {
    alloc: Global,
    bytes: Vec<u8>,
    calls: u64,
    failing: Vec<u64>,
    faults: u64,
}

impl MemWriter {
    /// An empty file, of which the calls with these numbers fail.
    pub fn new(alloc: Global, failing: Vec<u64>) -> MemWriter
        ensures empty { result.bytes.items ≡ [] }
        ensures sound { result.faults ≡ 0 }
        ensures calls { result.calls ≡ 0 }
        ensures failing { result.failing.items ≡ failing.items }
    {
        MemWriter {
            alloc,
            bytes: Vec::new(alloc),
            calls: 0,
            failing,
            faults: 0,
        }
    }

    /// How many of its calls failed. It ends the writer.
    pub(crate) fn into_faults(self) -> u64
        ensures { result ≡ self.faults }
    {
        let MemWriter {
            alloc: _,
            bytes: _,
            calls: _,
            failing: _,
            faults,
        } = self;
        faults
    }

    // Whether this call fails. The count rises with it.
    fn fails(&mut self) -> bool
        ensures bytes { self.new.bytes.items ≡ self.old.bytes.items }
        ensures listed { result ≡ is_listed self.old.failing.items self.old.calls }
        ensures calls { self.new.calls ≡ one_more self.old.calls }
        ensures failing { self.new.failing.items ≡ self.old.failing.items }
        ensures moved { result ≡ true → MovesByOne self.old.faults self.new.faults }
        ensures later { self.old.faults ≤ self.new.faults }
        ensures quiet { result ≡ false → self.new.faults ≡ self.old.faults }
    {
        let fails = self.failing.contains(&self.calls);
        self.calls = one_more(self.calls);
        if fails {
            self.faults = one_more(self.faults);
        }
        fails
    }
}

impl Writer for MemWriter {
    ghost use Rattle.std.specs.Prelude.{Some};

    type Sealed = MemSealed;

    ghost told = { Unit {0} };

    ghost written = { λ w. w.bytes.items };

    ghost content = { λ s. s.bytes.items };

    ghost faults = { λ w. w.faults };

    ghost plan = { λ w. Some (record { failing = w.failing.items; calls = w.calls }) };

    fn write(&mut self, part: &[u8]) -> Result<(), DiskErr> {
        if self.fails() {
            return Err(DiskErr::Failed);
        }
        if self.bytes.extend_from_slice(part).is_err() {
            return Err(DiskErr::NoMemory);
        }
        Ok(())
    }

    fn seal(&mut self) -> Result<MemSealed, DiskErr> {
        if self.fails() {
            return Err(DiskErr::Failed);
        }
        match Vec::from_slice(self.alloc, &self.bytes) {
            Ok(bytes) => Ok(MemSealed { bytes }),
            Err(_) => Err(DiskErr::NoMemory),
        }
    }

    fn abort(self) {
        let _faults = self.into_faults();
    }
}
