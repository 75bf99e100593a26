ghost use Rattle.std.specs.Prelude.{◌≡◌, ◌≤◌, length, false, IfOk};

use crate::memory::count::one_more;
use crate::reader::Reader;
use nx_base::NoMemory;
use nx_io::Failed;
use std::alloc::Global;

/// A file in memory that is being read.
pub struct MemReader {
    bytes: Vec<u8>,
    at: usize,
    calls: u64,
    failing: Vec<u64>,
    faults: u64,
    ended: bool,
    ghost within: { at ≤ length bytes.items },
}

impl MemReader {
    /// A reader of these bytes, of which the calls with these numbers fail.
    pub fn new(alloc: Global, bytes: &[u8], failing: Vec<u64>) -> Result<MemReader, NoMemory>
        ensures bytes { IfOk result (λ r. r.bytes.items ≡ bytes.now) }
        ensures at { IfOk result (λ r. r.at ≡ 0) }
        ensures sound { IfOk result (λ r. r.faults ≡ 0) }
        ensures ended { IfOk result (λ r. r.ended ≡ false) }
        ensures calls { IfOk result (λ r. r.calls ≡ 0) }
        ensures failing { IfOk result (λ r. r.failing.items ≡ failing.items) }
    {
        match Vec::from_slice(alloc, bytes) {
            Ok(bytes) => Ok(MemReader {
                bytes,
                at: 0,
                calls: 0,
                failing,
                faults: 0,
                ended: false,
            }),
            Err(_) => Err(NoMemory),
        }
    }

    /// How many of its calls failed. It ends the reader.
    pub(crate) fn into_faults(self) -> u64
        ensures { result ≡ self.faults }
    {
        let MemReader {
            bytes: _,
            at: _,
            calls: _,
            failing: _,
            faults,
            ended: _,
        } = self;
        faults
    }
}

impl Reader for MemReader {
    ghost use Rattle.std.specs.Prelude.{length, drop, Some};

    ghost told = { Unit {0} };

    ghost left = { λ r. drop r.at r.bytes.items };

    ghost size = { λ r. length r.bytes.items };

    ghost ended = { λ r. r.ended };

    ghost faults = { λ r. r.faults };

    ghost plan = { λ r. Some (record { failing = r.failing.items; calls = r.calls }) };

    fn read(&mut self, buf: &mut [u8]) -> Result<usize, Failed> {
        let fails = self.failing.contains(&self.calls);
        self.calls = one_more(self.calls);
        if fails {
            self.faults = one_more(self.faults);
            return Err(Failed);
        }
        let n = buf.len().min(self.bytes.len() - self.at);
        buf[..n].copy_from_slice(&self.bytes[self.at..self.at + n]);
        self.at += n;
        if !buf.is_empty() {
            self.ended = n == 0;
        }
        Ok(n)
    }

    fn len(&self) -> u64 {
        self.bytes.len() as u64
    }
}
