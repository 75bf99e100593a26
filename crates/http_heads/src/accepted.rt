ghost use Rattle.std.specs.Prelude.{◌≡◌, Result, IfOk, OnErr, IsOk};
ghost use Rattle.std.specs.Result.{result_ok};
ghost use Rattle.nx_base.specs.NameErr.{Gives};
ghost use Rattle.nx_base.specs.declared.name_err.NameErr.{NameErr};

use nx_base::{NameErr, NoMemory};

/// A name that was read, or nothing where the text is none.
pub(crate) fn accepted<T: Drop>(read: Result<T, NameErr>) -> Result<Option<T>, NoMemory>
    ensures ok { (wanted : Result T NameErr) → Gives wanted read → IfOk result (λ name. name ≡ result_ok wanted) }
    ensures err { (wanted : Result T NameErr) → Gives wanted read → OnErr result (IsOk wanted) }
{
    match read {
        Ok(name) => Ok(Some(name)),
        Err(refusal) => match refusal {
            NameErr::NoMemory => Err(NoMemory),
            _ => Ok(None),
        },
    }
}
