ghost use Rattle.std.specs.Prelude.{ℕ, Bool, List};
ghost use Rattle.std.specs.declared.option.Option.{Option};
ghost use Rattle.nx_io.specs.Causes.{HasCause};
ghost use Rattle.http_session.specs.Views.{NeedsBytes};
ghost use Rattle.http_session.specs.Fills.{Fills};

use crate::filled::Filled;
use crate::session::Session;
use nx_io::{Failed, Source};

/// The input of a session, as its driver sees it. It gives its bytes to the session, and only where that waits for bytes: so it is never
/// read while an answer is due or something is left to say, nor behind the last answer. Each source is one.
pub trait Input {
    /// The bytes that are left, where the source tells.
    ghost left: { Self → Option (List ℕ) };

    /// How often it failed.
    ghost faults: { Self → ℕ };

    /// Whether its last answer was the end.
    ghost ended: { Self → Bool };

    /// Reads the next bytes into a session, as many as are given and fit.
    fn fill(&mut self, session: &mut Session) -> Result<Filled, Failed>
        requires { NeedsBytes session.old }
        ensures fills { Fills (left self.old) (left self.new) (ended self.new) session.old session.new result }
        ensures cause { HasCause (faults self.old) (faults self.new) result };
}

impl<S: Source> Input for S {
    ghost left = { λ s. S.left s };

    ghost faults = { λ s. S.faults s };

    ghost ended = { λ s. S.ended s };

    fn fill(&mut self, session: &mut Session) -> Result<Filled, Failed> {
        session.feed_from(self)
    }
}
