//! How a session ends.
ghost use Rattle.std.specs.Prelude.{◌≡◌, ℕ, Bool, List, [], true, false};
ghost use Rattle.std.specs.declared.option.Option.{Option};
ghost use Rattle.http_heads.specs.declared.head.Head.{Head};
ghost use Rattle.http_heads.specs.Head.{is_put};
ghost use Rattle.http_requests.specs.Requests as requests;
ghost use Rattle.http_front.specs.Answers.{Answer, silence};
ghost use Rattle.http_front.specs.Replying.{unread};
ghost use Rattle.http_front.specs.Sessions.{unsaid_end};
ghost use Rattle.session_history.specs.Phases.{inside};
ghost use Rattle.http_session.specs.Taken.{Past, Took, phase_of};
ghost use Rattle.http_session.specs.Views.{is_over_at, is_reading_at};
ghost use Rattle.session_driver.specs.Ending.{over_end};
ghost use Rattle.session_driver.specs.Replying.{told};
ghost use Rattle.session_driver.specs.Standing.{HasFed, IsHeadRefused};
ghost use Rattle.session_driver.specs.Going.{EndsSo, HasLastCause};

use crate::repository::Repository;
use crate::say::say_last;
use http_front::{End, Unsaid};
use http_session::Session;
use nx_io::Sink;

/// Where an answer was written in part.
pub(crate) fn end_of(unsaid: Unsaid) -> End
    ensures { result ≡ unsaid_end unsaid }
{
    match unsaid {
        Unsaid::WriteFault => End::WriteFault,
        Unsaid::DownloadFault => End::DownloadFault,
    }
}

/// Behind an answer that was written.
pub(crate) fn end_if_over(session: &Session) -> Option<End>
    ensures { result ≡ over_end (is_over_at session.now.place) }
{
    if session.is_over() {
        Some(End::Closed)
    } else {
        None
    }
}

/// Says that a head is refused.
pub(crate) fn refuse_head<R: Repository, K: Sink>(
    session: &mut Session,
    repository: &mut R,
    output: &mut K,
) -> End
    ensures ends { (x : R) (left left' : Option (List ℕ)) (ended : Bool) (taken : Option (List ℕ)) (fed : List ℕ)
        → IsHeadRefused R.Answers x repository.old session.old fed taken (K.taken output.old) → HasFed session.old left left' ended fed
        → EndsSo R.Answers R.Fails x repository.new left left' ended taken (K.taken output.new) result }
    ensures cause { HasLastCause (K.faults output.old) (K.faults output.new) result }
{
    repository.refused();
    say_last(session, output)
}

/// Ends the upload of a session that can't go on behind its head: one without content is put, another one is cut.
pub(crate) fn give_up<R: Repository>(session: &Session, repository: &mut R)
    ensures elsewhere { is_reading_at session.now.place ≡ false → repository.new ≡ repository.old }
    ensures inside { (fed : List ℕ) (past : Past) (head : Head) (start : R) → Took session.now fed past → phase_of past ≡ inside head → past.came ≡ [] → session.now.borrowed ≡ []
        → is_put head.method ≡ true → R.Uploads start repository.old head [] → (answer : Answer) × R.Answers start repository.new (unread head) (told head answer) }
{
    if !session.is_inside() {
        return;
    }
    if session.expects_content() {
        repository.cut();
    } else {
        let _put = repository.commit();
    }
}

/// Ends the upload in whose content a session stops, where it is in one.
pub(crate) fn cut_short<R: Repository>(session: &Session, repository: &mut R)
    ensures elsewhere { is_reading_at session.now.place ≡ false → repository.new ≡ repository.old }
    ensures inside { is_reading_at session.now.place ≡ true → (start : R) (head : Head) (content : List ℕ) → is_put head.method ≡ true → R.Uploads start repository.old head content
        → R.Answers start repository.new (requests.cut head content) (told head silence) }
{
    if session.is_inside() {
        repository.cut();
    }
}
