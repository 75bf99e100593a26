ghost use Rattle.std.specs.Prelude.{◌≡◌, ℕ, false};
ghost use Rattle.std.specs.Io.{ReadsAtMost, WritesAtMost};
ghost use Rattle.std.specs.Io.KnownBytes.{ReadConsumes, WriteAppends};
ghost use Rattle.nx_io.specs.Causes.{HasCause, Counts};
ghost use Rattle.nx_io.specs.Reads.{TellsEnd};
ghost use Rattle.nx_io.specs.Writes.{TakesSome};
ghost use Rattle.nx_io.specs.Real.{Reading, Writing};

use crate::failure::Failed;
use crate::sink::Sink;
use crate::source::Source;
use std::io::{Read, Write};
use std::marker::Model;

/// A source round a reader of std. Each error of the reader is a fault.
#[derive(Drop)]
pub struct RealSource<R> {
    reader: R,
    faults: u64,
    ended: bool,
}

impl<R> Model for RealSource<R> {
    ghost Value = { Reading R };

    ghost view = { λ s. record { reader = s.reader; faults = s.faults; ended = s.ended } };
}

impl<R: Read> RealSource<R> {
    pub fn new(reader: R) -> Self
        ensures { result ≡ record { reader = reader; faults = 0; ended = false } }
    {
        RealSource {
            reader,
            faults: 0,
            ended: false,
        }
    }
}

impl<R: Read> Source for RealSource<R> {
    ghost left = { λ s. R.remaining s.reader };

    ghost faults = { λ s. s.faults };

    ghost ended = { λ s. s.ended };

    // Nothing is known of what a reader keeps.
    ghost Kept = { Unit {0} };

    ghost kept = { λ _. tt };

    fn read(&mut self, buf: &mut [u8]) -> Result<usize, Failed>
        ensures bound { ReadsAtMost result buf.new }
        ensures bytes { ReadConsumes (R.remaining self.old.reader) (R.remaining self.new.reader) result buf.new }
        ensures end { TellsEnd self.old.ended self.new.ended result buf.new }
        ensures cause { HasCause self.old.faults self.new.faults result }
        ensures counts { Counts self.old.faults self.new.faults result }
    {
        match self.reader.read(buf) {
            Ok(count) => {
                if !buf.is_empty() {
                    self.ended = count == 0;
                }
                Ok(count)
            }
            Err(_) => {
                self.faults = self.faults.saturating_add(1);
                Err(Failed)
            }
        }
    }
}

/// A sink round a writer of std. It hands each call's bytes to the writer and keeps none, so give it a writer without a
/// buffer of its own. Each error of the writer is a fault, and so is a writer that takes none of the bytes.
#[derive(Drop)]
pub struct RealSink<W> {
    writer: W,
    faults: u64,
}

impl<W> Model for RealSink<W> {
    ghost Value = { Writing W };

    ghost view = { λ s. record { writer = s.writer; faults = s.faults } };
}

impl<W: Write> RealSink<W> {
    pub fn new(writer: W) -> Self
        ensures { result ≡ record { writer = writer; faults = 0 } }
    {
        RealSink { writer, faults: 0 }
    }
}

impl<W: Write> Sink for RealSink<W> {
    ghost taken = { λ s. W.contents s.writer };

    ghost faults = { λ s. s.faults };

    // Nothing is known of what a writer keeps.
    ghost Kept = { Unit {0} };

    ghost kept = { λ _. tt };

    fn write(&mut self, bytes: &[u8]) -> Result<usize, Failed>
        ensures bound { WritesAtMost result bytes.now }
        ensures some { TakesSome result bytes.now }
        ensures bytes { WriteAppends (W.contents self.old.writer) (W.contents self.new.writer) result bytes.now }
        ensures cause { HasCause self.old.faults self.new.faults result }
        ensures counts { Counts self.old.faults self.new.faults result }
    {
        match self.writer.write(bytes) {
            Ok(count) if count > 0 || bytes.is_empty() => Ok(count),
            _ => {
                self.faults = self.faults.saturating_add(1);
                Err(Failed)
            }
        }
    }
}
