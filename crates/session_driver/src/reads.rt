//! The input of a session.
ghost use Rattle.std.specs.Prelude.{◌≡◌, ◌<◌, ℕ, Bool, false, List};
ghost use Rattle.std.specs.declared.option.Option.{Option};
ghost use Rattle.http_session.specs.Views.{NeedsBytes};
ghost use Rattle.http_session.specs.Taken.{Past};
ghost use Rattle.http_session.specs.Steps.{IsStill};
ghost use Rattle.session_driver.specs.Standing.{HasFed, IsUnderWay, StandsBy};
ghost use Rattle.session_driver.specs.Going.{Goes, EndsSo, HasReadCause, distance};

use crate::ends::cut_short;
use crate::repository::Repository;
use http_front::End;
use http_session::{Filled, Input, Session};

/// Reads more of the input. Where that fails, or where the input is longer than a session reads, the session ends.
pub(crate) fn read_more<R: Repository, I: Input>(
    session: &mut Session,
    repository: &mut R,
    input: &mut I,
) -> Option<End>
    requires { NeedsBytes session.old }
    ensures goes { (x : R) (left : Option (List ℕ)) (taken taken' : Option (List ℕ)) (fed : List ℕ) (past : Past)
        → HasFed session.old left (I.left input.old) (I.ended input.old) fed → session.old.ended ≡ false → IsStill fed past session.old → StandsBy R.Answers R.Uploads x repository.old session.old fed past taken taken'
        → Goes (λ fed. IsUnderWay R.Answers R.Uploads x repository.new session.new taken taken' fed × (distance session.new < distance session.old)) (EndsSo R.Answers R.Fails x repository.new left (I.left input.new) (I.ended input.new) taken taken') session.new left (I.left input.new) (I.ended input.new) result }
    ensures cause { HasReadCause (I.faults input.old) (I.faults input.new) result }
{
    match input.fill(session) {
        Ok(Filled::Bytes) => None,
        Ok(Filled::Ended) => None,
        Ok(Filled::Longer) => {
            cut_short(session, repository);
            Some(End::InputTooLong)
        }
        Err(_) => {
            cut_short(session, repository);
            Some(End::ReadFault)
        }
    }
}
