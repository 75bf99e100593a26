ghost use Rattle.std.specs.Prelude.{◌≡◌};
ghost use Rattle.repo_core.specs.Answers.{answer_of, cause_of};

use crate::denial::{refusal_for, refusal_of_fault};
use crate::stop::Stop;
use repo_model::{Cause, Refusal};

/// What the work of a call answers.
pub(crate) fn answer_of<A>(done: Result<A, Stop>) -> Result<A, Refusal>
    ensures { result ≡ answer_of done }
{
    match done {
        Ok(value) => Ok(value),
        Err(Stop::Denied(why)) => Err(refusal_for(why)),
        Err(Stop::Broke(fault)) => Err(refusal_of_fault(fault)),
    }
}

/// What the repository is broken by after it, as the entry of that number.
pub(crate) fn cause_of<A>(number: u64, done: &Result<A, Stop>) -> Option<Cause>
    ensures { result ≡ cause_of number done.now }
{
    match done {
        Err(Stop::Broke(fault)) => Some(Cause {
            fault: *fault,
            entry: number,
        }),
        Ok(_) | Err(Stop::Denied(_)) => None,
    }
}
