ghost use Rattle.std.specs.Prelude.{◌≡◌, ℕ, Some, IfOk};
ghost use Rattle.repo_model.specs.State.{row_of};
ghost use Rattle.repo_model.specs.Serving.{served};
ghost use Rattle.repo_model.specs.Plain.{state_of, outcome_of};

use crate::call::Look;
use crate::plain::state::PlainState;
use crate::plain::writing::time;
use crate::reply::Reply;
use nx_base::{Asset, Key, NoMemory};
use std::alloc::Global;

/// A copy of the key's asset.
pub(crate) fn asset_of(
    alloc: Global,
    state: &PlainState,
    key: &Key,
) -> Result<Option<Asset>, NoMemory>
    ensures { IfOk result (λ r. r ≡ row_of (state_of state.now) key.now) }
{
    match state.rows.get(key) {
        Some(asset) => Ok(Some(asset.try_clone(alloc)?)),
        None => Ok(None),
    }
}

/// Gives the asset out.
pub(crate) fn serve(
    alloc: Global,
    state: &mut PlainState,
    key: &Key,
    look: Look,
    now: u64,
    asset: Asset,
) -> Result<Reply, NoMemory>
    ensures { IfOk result (λ r. served (state_of state.old) key.now look now asset ≡ outcome_of (Some r) state.new) }
{
    match look {
        Look::Head => Ok(Reply::Found { asset }),
        Look::Get => {
            let at = asset.downloaded.unwrap_or(0).max(time(now));
            let mut seen = asset;
            seen.downloaded = Some(at);
            state
                .rows
                .insert(key.try_clone(alloc)?, seen.try_clone(alloc)?)?;
            Ok(Reply::Found { asset: seen })
        }
    }
}
