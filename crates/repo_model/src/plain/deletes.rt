ghost use Rattle.std.specs.Prelude.{◌≡◌, ℕ, Some, IfOk};
ghost use Rattle.repo_model.specs.Deleting.{gone};
ghost use Rattle.repo_model.specs.Step.{on_delete};
ghost use Rattle.repo_model.specs.Plain.{config_of, state_of, outcome_of};

use crate::deletion::Deletion;
use crate::plain::config::{PlainConfig, find_repo};
use crate::plain::serves::asset_of;
use crate::plain::state::PlainState;
use crate::plain::writing::{is_delete_barred, time};
use crate::reply::{Refusal, Reply};
use nx_base::{Asset, Key, NoMemory, Policy};
use std::alloc::Global;

/// Gives up the row of the key: its blob is deleted.
pub(crate) fn give_up(
    alloc: Global,
    state: &mut PlainState,
    key: &Key,
    now: u64,
    asset: Asset,
) -> Result<Reply, NoMemory>
    ensures { IfOk result (λ r. gone (state_of state.old) key.now now asset ≡ outcome_of (Some r) state.new) }
{
    let deletion = Deletion {
        at: time(now),
        key: key.try_clone(alloc)?,
    };
    state.trash.insert(asset.blob, deletion)?;
    state.rows.remove(key);
    Ok(Reply::Gone)
}

/// Deletes the key's content.
pub(crate) fn delete(
    alloc: Global,
    config: &PlainConfig,
    state: &mut PlainState,
    key: &Key,
    now: u64,
) -> Result<Reply, NoMemory>
    ensures { IfOk result (λ r. on_delete (config_of config.now) (state_of state.old) key.now now ≡ outcome_of (Some r) state.new) }
{
    let Some(repo) = find_repo(&config.repos, &key.repo) else {
        return Ok(Reply::Refused(Refusal::UnknownRepo));
    };
    if is_delete_barred(repo) {
        return Ok(Reply::Refused(Refusal::WriteDenied {
            policy: Policy::ReadOnly,
        }));
    }
    match asset_of(alloc, state, key)? {
        None => Ok(Reply::Refused(Refusal::NotFound)),
        Some(asset) => give_up(alloc, state, key, now, asset),
    }
}
