//! Requests that send no content.
ghost use Rattle.std.specs.Prelude.{◌≡◌, ℕ, Bool, List};
ghost use Rattle.std.specs.declared.option.Option.{Option};
ghost use Rattle.http_heads.specs.declared.head.Head.{Head};
ghost use Rattle.session_history.specs.declared.ask.Ask.TheVariants as asks;
ghost use Rattle.session_history.specs.Asking.{ask_of};
ghost use Rattle.session_driver.specs.Standing.{HasFed, IsAtHead, StandsBetween};
ghost use Rattle.session_driver.specs.Going.{Goes, EndsSo, HasWriteCause, KeepsTotals};

use crate::ends::{end_if_over, end_of};
use crate::repository::Repository;
use crate::say::say_and_go_on;
use http_front::End;
use http_session::Session;
use nx_base::Key;
use nx_io::Sink;
use repo_model::Look;

/// Looks at the content of a key, says what the session answers, and gives the content out behind that.
pub(crate) fn answer_look<R: Repository, K: Sink>(
    session: &mut Session,
    repository: &mut R,
    key: Key,
    look: Look,
    output: &mut K,
) -> Option<End>
    ensures goes { (x : R) (left left' : Option (List ℕ)) (ended : Bool) (taken : Option (List ℕ)) (fed : List ℕ) (head : Head)
        → IsAtHead R.Answers x repository.old session.old fed head taken (K.taken output.old) → HasFed session.old left left' ended fed → ask_of head head.method ≡ asks.Look key look
        → Goes (StandsBetween R.Answers x repository.new session.new taken (K.taken output.new)) (EndsSo R.Answers R.Fails x repository.new left left' ended taken (K.taken output.new)) session.new left left' ended result }
    ensures cause { HasWriteCause (K.faults output.old) (K.faults output.new) result }
    ensures keeps { KeepsTotals session.old session.new }
{
    let reply = repository.look(key, look);
    session.answer(&reply);
    match repository.send(session.out(), output) {
        Ok(()) => {
            session.said();
            end_if_over(session)
        }
        Err(unsaid) => Some(end_of(unsaid)),
    }
}

/// Deletes the content of a key, and says what the session answers.
pub(crate) fn answer_delete<R: Repository, K: Sink>(
    session: &mut Session,
    repository: &mut R,
    key: Key,
    output: &mut K,
) -> Option<End>
    ensures goes { (x : R) (left left' : Option (List ℕ)) (ended : Bool) (taken : Option (List ℕ)) (fed : List ℕ) (head : Head)
        → IsAtHead R.Answers x repository.old session.old fed head taken (K.taken output.old) → HasFed session.old left left' ended fed → ask_of head head.method ≡ asks.Delete key
        → Goes (StandsBetween R.Answers x repository.new session.new taken (K.taken output.new)) (EndsSo R.Answers R.Fails x repository.new left left' ended taken (K.taken output.new)) session.new left left' ended result }
    ensures cause { HasWriteCause (K.faults output.old) (K.faults output.new) result }
    ensures keeps { KeepsTotals session.old session.new }
{
    let reply = repository.delete(key);
    session.answer(&reply);
    say_and_go_on(session, output)
}
