//! A session, step by step.
ghost use Rattle.std.specs.Prelude.{◌≡◌, ◌<◌, ℕ, Bool, false, List, None};
ghost use Rattle.std.specs.declared.option.Option.{Option};
ghost use Rattle.http_front.specs.Sessions.{HasEndCause};
ghost use Rattle.http_session.specs.Views.{awaits_at};
ghost use Rattle.session_driver.specs.Standing.{HasFed, HasPast, Asked, Leads, IsUnderWay};
ghost use Rattle.session_driver.specs.Going.{Goes, EndsSo, HasStepCause, HasWriteCause, KeepsTotals, distance};

use crate::ends::{cut_short, refuse_head};
use crate::looks::{answer_delete, answer_look};
use crate::reads::read_more;
use crate::repository::Repository;
use crate::uploads::{abort, begin_upload, commit, take_part};
use http_front::End;
use http_session::{Input, Session, Step};
use nx_io::Sink;
use session_history::Ask;
use std::alloc::Global;

/// Makes a call that the session asks for, and writes what it then says.
fn make_call<R: Repository, K: Sink>(
    session: &mut Session,
    repository: &mut R,
    ask: Ask,
    output: &mut K,
) -> Option<End>
    ensures goes { (x : R) (left left' : Option (List ℕ)) (ended : Bool) (taken : Option (List ℕ)) (fed : List ℕ)
        → Asked R.Answers R.Uploads x repository.old session.old fed taken (K.taken output.old) ask → HasFed session.old left left' ended fed
        → Goes (Leads R.Answers R.Uploads x repository.new session.new taken (K.taken output.new) ask) (EndsSo R.Answers R.Fails x repository.new left left' ended taken (K.taken output.new)) session.new left left' ended result }
    ensures cause { HasWriteCause (K.faults output.old) (K.faults output.new) result }
    ensures keeps { result ≡ None → KeepsTotals session.old session.new }
{
    match ask {
        Ask::Begin(begin) => begin_upload(session, repository, begin, output),
        Ask::Commit => commit(session, repository, output),
        Ask::Abort => Some(abort(session, repository, output)),
        Ask::Look { key, look } => answer_look(session, repository, key, look, output),
        Ask::Delete { key } => answer_delete(session, repository, key, output),
    }
}

/// Does what the session says next. Nothing, where it goes on.
fn take_step<R: Repository, I: Input, K: Sink>(
    session: &mut Session,
    repository: &mut R,
    input: &mut I,
    output: &mut K,
) -> Option<End>
    requires due { awaits_at session.old.place ≡ false }
    requires past { HasPast session.old }
    ensures goes { (x : R) (left : Option (List ℕ)) (taken : Option (List ℕ)) (fed : List ℕ)
        → HasFed session.old left (I.left input.old) (I.ended input.old) fed → IsUnderWay R.Answers R.Uploads x repository.old session.old taken (K.taken output.old) fed
        → Goes (λ fed. IsUnderWay R.Answers R.Uploads x repository.new session.new taken (K.taken output.new) fed × (distance session.new < distance session.old)) (EndsSo R.Answers R.Fails x repository.new left (I.left input.new) (I.ended input.new) taken (K.taken output.new)) session.new left (I.left input.new) (I.ended input.new) result }
    ensures cause { HasStepCause (I.faults input.old) (I.faults input.new) (K.faults output.old) (K.faults output.new) result }
{
    match session.next() {
        Step::Need => read_more(session, repository, input),
        Step::Ask(ask) => make_call(session, repository, ask, output),
        Step::Body { length: _ } => take_part(session, repository, output),
        Step::Say => Some(refuse_head(session, repository, output)),
        Step::Done(end) => {
            cut_short(session, repository);
            Some(end)
        }
    }
}

/// Answers the requests of the input, up to the first that ends the session.
pub fn run_session<R: Repository, I: Input, K: Sink>(
    alloc: Global,
    repository: &mut R,
    input: &mut I,
    output: &mut K,
) -> End
    ensures said { EndsSo R.Answers R.Fails repository.old repository.new (I.left input.old) (I.left input.new) (I.ended input.new) (K.taken output.old) (K.taken output.new) result }
    ensures cause { HasEndCause result (I.faults input.old) (I.faults input.new) (K.faults output.old) (K.faults output.new) }
{
    let Ok(session) = Session::new(alloc) else {
        return End::NoMemory;
    };
    let mut session = session;
    'steps: loop {
        if let Some(end) = take_step(&mut session, repository, input, output) {
            return end;
        }
    }
}
