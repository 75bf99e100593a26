//! Bytes that a session reads from a source.
ghost use Rattle.std.specs.Prelude.{◌≡◌, ◌≤◌, ◌<◌, ◌+◌, ◌^◌, ◌↔◌, IsTrue, true};
ghost use Rattle.nx_io.specs.Causes.{HasCause};
ghost use Rattle.http_session.specs.Views.{waiting};
ghost use Rattle.http_session.specs.Fills.{KeepsBehind, Fills};

use crate::filled::Filled;
use crate::session::{INPUT_LIMIT, Session};
use nx_io::{Failed, Source};

/// The most bytes of a read.
const READ_LIMIT: u64 = 32_768;

impl Session {
    /// Whether there is room for more bytes. There is where [`Session::next`] has said that more are needed.
    pub fn has_room(&self) -> bool
        ensures { IsTrue result ↔ (waiting self.now < 32768) }
    {
        self.buffer.held().len() < 32_768
    }

    /// Reads the next bytes of a source, as many as it gives and fit, in the place of [`Session::feed`] and [`Session::end_of_input`].
    /// Where 2^40 bytes were fed one more is read, and not kept, to see whether the input is longer.
    pub fn feed_from<S: Source>(&mut self, input: &mut S) -> Result<Filled, Failed>
        requires { waiting self.old < 32768 }
        ensures fills { Fills (S.left input.old) (S.left input.new) (S.ended input.new) self.old self.new result }
        ensures cause { HasCause (S.faults input.old) (S.faults input.new) result }
    {
        let room = INPUT_LIMIT - self.total;
        if room == 0 {
            return self.look_behind(input);
        }
        let most = room.min(READ_LIMIT) as usize;
        let Ok(count) = self.read_behind(input, most) else {
            return Err(Failed);
        };
        if count == 0 {
            self.end_of_input();
            return Ok(Filled::Ended);
        }
        Ok(Filled::Bytes)
    }

    /// Reads the next bytes of a source, so many at most, behind those that wait.
    fn read_behind<S: Source>(&mut self, input: &mut S, most: usize) -> Result<usize, Failed>
        requires room { waiting self.old < 32768 }
        requires some { 0 < most }
        requires within { self.old.total + most ≤ 2 ^ 40 }
        ensures reads { KeepsBehind (S.left input.old) (S.left input.new) (S.ended input.new) most self.old self.new result }
        ensures cause { HasCause (S.faults input.old) (S.faults input.new) result }
    {
        let Ok(count) = self.buffer.read_from(input, most) else {
            return Err(Failed);
        };
        self.total += count as u64;
        Ok(count)
    }

    /// Sees whether the source has a byte more, where no more are taken.
    fn look_behind<S: Source>(&mut self, input: &mut S) -> Result<Filled, Failed>
        requires { self.old.total ≡ 2 ^ 40 }
        ensures fills { Fills (S.left input.old) (S.left input.new) (S.ended input.new) self.old self.new result }
        ensures cause { HasCause (S.faults input.old) (S.faults input.new) result }
    {
        let mut piece = [0u8; 1];
        let Ok(count) = input.read(&mut piece) else {
            return Err(Failed);
        };
        if count == 0 {
            self.end_of_input();
            return Ok(Filled::Ended);
        }
        self.note_longer();
        Ok(Filled::Longer)
    }

    /// Notes that the input is longer than a session reads.
    fn note_longer(&mut self)
        ensures { self.new ≡ record self.old { longer = true } }
    {
        self.longer = true;
    }
}
