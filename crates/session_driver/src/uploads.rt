//! Uploads, from their heads to the ends of their contents.
ghost use Rattle.std.specs.Prelude.{◌≡◌, ℕ, Bool, true, false, List, [], None};
ghost use Rattle.std.specs.declared.option.Option.{Option};
ghost use Rattle.http_heads.specs.declared.head.Head.{Head};
ghost use Rattle.session_history.specs.declared.ask.Ask.TheVariants as asks;
ghost use Rattle.session_history.specs.Asking.{ask_of};
ghost use Rattle.session_driver.specs.Standing.{HasFed, IsAtHead, IsReplied, IsContentWhole, IsSpoiled, IsUnderWay, StandsBetween, StandsInside};
ghost use Rattle.session_driver.specs.Going.{Goes, EndsSo, HasWriteCause, HasLastCause, KeepsTotals};

use crate::ends::give_up;
use crate::repository::Repository;
use crate::say::{say_and_go_on, say_last};
use http_front::End;
use http_session::Session;
use nx_io::Sink;
use repo_model::Begin;

/// Says the reply to the beginning of an upload. Where it can't be said, the upload that was begun ends.
fn answer_begun<R: Repository, K: Sink>(
    session: &mut Session,
    repository: &mut R,
    output: &mut K,
) -> Option<End>
    ensures goes { (x : R) (left left' : Option (List ℕ)) (ended : Bool) (taken : Option (List ℕ)) (fed : List ℕ)
        → IsReplied R.Answers R.Uploads x repository.old session.old fed taken (K.taken output.old) → HasFed session.old left left' ended fed
        → Goes (IsUnderWay R.Answers R.Uploads x repository.new session.new taken (K.taken output.new)) (EndsSo R.Answers R.Fails x repository.new left left' ended taken (K.taken output.new)) session.new left left' ended result }
    ensures cause { HasWriteCause (K.faults output.old) (K.faults output.new) result }
    ensures keeps { KeepsTotals session.old session.new }
{
    match say_and_go_on(session, output) {
        None => None,
        Some(end) => {
            give_up(session, repository);
            Some(end)
        }
    }
}

/// Begins an upload, and tells it to go on where it waits for that; or says why it isn't begun.
pub(crate) fn begin_upload<R: Repository, K: Sink>(
    session: &mut Session,
    repository: &mut R,
    begin: Begin,
    output: &mut K,
) -> Option<End>
    ensures goes { (x : R) (left left' : Option (List ℕ)) (ended : Bool) (taken : Option (List ℕ)) (fed : List ℕ) (head : Head)
        → IsAtHead R.Answers x repository.old session.old fed head taken (K.taken output.old) → HasFed session.old left left' ended fed → ask_of head head.method ≡ asks.Begin begin
        → Goes (IsUnderWay R.Answers R.Uploads x repository.new session.new taken (K.taken output.new)) (EndsSo R.Answers R.Fails x repository.new left left' ended taken (K.taken output.new)) session.new left left' ended result }
    ensures cause { HasWriteCause (K.faults output.old) (K.faults output.new) result }
    ensures keeps { KeepsTotals session.old session.new }
{
    match repository.begin(begin) {
        Ok(reply) => {
            session.answer(&reply);
            answer_begun(session, repository, output)
        }
        Err(why) => {
            session.local(why);
            Some(say_last(session, output))
        }
    }
}

/// Takes the content that is borrowed.
pub(crate) fn take_part<R: Repository, K: Sink>(
    session: &mut Session,
    repository: &mut R,
    output: &mut K,
) -> Option<End>
    ensures goes { (x : R) (left left' : Option (List ℕ)) (ended : Bool) (taken : Option (List ℕ)) (fed : List ℕ)
        → StandsInside R.Answers R.Uploads x repository.old session.old taken (K.taken output.old) fed → HasFed session.old left left' ended fed
        → Goes (StandsInside R.Answers R.Uploads x repository.new session.new taken (K.taken output.new)) (EndsSo R.Answers R.Fails x repository.new left left' ended taken (K.taken output.new)) session.new left left' ended result }
    ensures cause { HasWriteCause (K.faults output.old) (K.faults output.new) result }
    ensures taken { result ≡ None → session.new ≡ record session.old { borrowed = [] } }
{
    match repository.take(session.body()) {
        Ok(()) => {
            session.body_taken();
            None
        }
        Err(why) => {
            session.local(why);
            Some(say_last(session, output))
        }
    }
}

/// Puts the upload, and says what the session answers.
pub(crate) fn commit<R: Repository, K: Sink>(
    session: &mut Session,
    repository: &mut R,
    output: &mut K,
) -> Option<End>
    ensures goes { (x : R) (left left' : Option (List ℕ)) (ended : Bool) (taken : Option (List ℕ)) (fed : List ℕ)
        → IsContentWhole R.Answers R.Uploads x repository.old session.old fed taken (K.taken output.old) → HasFed session.old left left' ended fed
        → Goes (StandsBetween R.Answers x repository.new session.new taken (K.taken output.new)) (EndsSo R.Answers R.Fails x repository.new left left' ended taken (K.taken output.new)) session.new left left' ended result }
    ensures cause { HasWriteCause (K.faults output.old) (K.faults output.new) result }
    ensures keeps { KeepsTotals session.old session.new }
{
    match repository.commit() {
        Ok(reply) => {
            session.answer(&reply);
            say_and_go_on(session, output)
        }
        Err(why) => {
            session.local(why);
            Some(say_last(session, output))
        }
    }
}

/// Ends the upload whose content is refused, and says so.
pub(crate) fn abort<R: Repository, K: Sink>(
    session: &mut Session,
    repository: &mut R,
    output: &mut K,
) -> End
    ensures ends { (x : R) (left left' : Option (List ℕ)) (ended : Bool) (taken : Option (List ℕ)) (fed : List ℕ)
        → IsSpoiled R.Answers R.Uploads x repository.old session.old fed taken (K.taken output.old) → HasFed session.old left left' ended fed
        → EndsSo R.Answers R.Fails x repository.new left left' ended taken (K.taken output.new) result }
    ensures cause { HasLastCause (K.faults output.old) (K.faults output.new) result }
{
    repository.abort();
    say_last(session, output)
}
