ghost use Rattle.std.specs.Prelude.{◌≡◌, ◌+◌, ◌-◌, ◌<◌, min, length, Some, slice_get, IfOk};

use nx_base::{Moment, NoMemory};
use std::alloc::Global;

/// The moments of a run. They are drawn one after another, and the last one repeats.
#[derive(Drop)]
pub struct Draws {
    pub moments: Vec<Moment>,
    pub next: usize,
    ghost within: { next < length moments.items },
}

impl Draws {
    pub fn new(alloc: Global, moments: &[Moment]) -> Result<Draws, NoMemory>
        requires { 0 < length moments.now }
        ensures { IfOk result (λ draws. (draws.moments.items ≡ moments.now) × (draws.next ≡ 0)) }
    {
        match Vec::from_slice(alloc, moments) {
            Ok(moments) => Ok(Draws { moments, next: 0 }),
            Err(_) => Err(NoMemory),
        }
    }

    /// The next moment. It stays the next one.
    pub fn peek(&self) -> Moment
        ensures { slice_get self.now.moments.items self.now.next ≡ Some result }
    {
        self.moments[self.next]
    }

    /// The next moment.
    pub fn draw(&mut self) -> Moment
        ensures value { slice_get self.old.moments.items self.old.next ≡ Some result }
        ensures moments { self.new.moments.items ≡ self.old.moments.items }
        ensures next { self.new.next ≡ min (self.old.next + 1) (length self.old.moments.items - 1) }
    {
        let moment = self.moments[self.next];
        if self.next + 1 < self.moments.len() {
            self.next += 1;
        }
        moment
    }
}
