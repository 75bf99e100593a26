ghost use Rattle.std.specs.Prelude.{◌≡◌, ℕ, ◌+◌, ◌-◌, ◌^◌, ◌<◌, ◌≤◌, ◌↔◌, min, List, length, take, drop, Some, IsErr, IfOk, Contains};
ghost use Rattle.std.specs.Io.{ReadsAtMost};
ghost use Rattle.std.specs.Io.KnownBytes.{ReadConsumes};
ghost use Rattle.nx_io.specs.Causes.{HasCause, Counts};
ghost use Rattle.nx_io.specs.Reads.{TellsEnd};
ghost use Rattle.nx_io.specs.Feed.{Feed, feed, FeedPlan, plan_of};

use crate::failure::Failed;
use crate::source::Source;
use std::marker::Model;

/// A source in memory. It gives at most so many bytes a call, and fails the calls whose numbers are listed, from 0 on.
#[derive(Drop)]
pub struct MemSource {
    bytes: Vec<u8>,
    at: usize,
    piece: usize,
    failing: Vec<u64>,
    calls: u64,
    faults: u64,
    ended: bool,
}

impl Model for MemSource {
    ghost Value = { Feed };

    ghost view = { λ s. record { rest = drop s.at s.bytes.items; piece = s.piece; failing = s.failing.items; calls = s.calls; faults = s.faults; ended = s.ended } };

    ghost invariant = { λ s. (0 < s.piece) × (s.at ≤ length s.bytes.items) };
}

impl MemSource {
    /// A source of `bytes`, at most `piece` of them a call, that fails the calls that `failing` lists.
    pub fn new(bytes: Vec<u8>, piece: usize, failing: Vec<u64>) -> MemSource
        requires { 0 < piece }
        ensures { result ≡ feed bytes.items piece failing.items }
    {
        MemSource {
            bytes,
            at: 0,
            piece,
            failing,
            calls: 0,
            faults: 0,
            ended: false,
        }
    }
}

impl Source for MemSource {
    ghost left = { λ s. Some s.rest };

    ghost faults = { λ s. s.faults };

    ghost ended = { λ s. s.ended };

    ghost Kept = { FeedPlan };

    ghost kept = { plan_of };

    fn read(&mut self, buf: &mut [u8]) -> Result<usize, Failed>
        ensures bound { ReadsAtMost result buf.new }
        ensures bytes { ReadConsumes (Some self.old.rest) (Some self.new.rest) result buf.new }
        ensures end { TellsEnd self.old.ended self.new.ended result buf.new }
        ensures cause { HasCause self.old.faults self.new.faults result }
        ensures kept { plan_of self.new ≡ plan_of self.old }
        ensures counts { Counts self.old.faults self.new.faults result }

        // Exactly the listed calls fail.
        ensures listed { IsErr result ↔ Contains self.old.failing self.old.calls }
        ensures size { IfOk result (λ n. n ≡ min (min self.old.piece (length buf.old)) (length self.old.rest)) }
        ensures calls { self.new.calls ≡ min (self.old.calls + 1) (2 ^ 64 - 1) }
    {
        let call = self.calls;
        self.calls = self.calls.saturating_add(1);
        if self.failing.contains(&call) {
            self.faults = self.faults.saturating_add(1);
            return Err(Failed);
        }
        let count = copy_prefix(&self.bytes[self.at..], self.piece, buf);
        self.at += count;
        if !buf.is_empty() {
            self.ended = count == 0;
        }
        Ok(count)
    }
}

/// Copies the first bytes of `from`, at most `most` and as many as fit, to the front of `to`.
fn copy_prefix(from: &[u8], most: usize, to: &mut [u8]) -> usize
    ensures count { result ≡ min (min most (length to.old)) (length from.now) }
    ensures prefix { take result to.new ≡ take result from.now }
{
    let count = most.min(to.len()).min(from.len());
    to[..count].copy_from_slice(&from[..count]);
    count
}
