ghost use Rattle.std.specs.Prelude.{◌≡◌, ℕ, IfOk};
ghost use Rattle.repo_model.specs.Removal.{is_named, may_go};
ghost use Rattle.repo_model.specs.Step.{on_remove};
ghost use Rattle.repo_model.specs.Plain.{config_of, state_of, outcome_of};

use crate::deletion::Deletion;
use crate::plain::config::PlainConfig;
use crate::plain::state::PlainState;
use crate::plain::writing::time;
use crate::reply::Reply;
use crate::spot::Spot;
use nx_base::{BlobRef, Key, NoMemory};
use std::alloc::Global;

/// Whether the row of the key names the blob.
fn is_named_by(state: &PlainState, key: &Key, blob: &BlobRef) -> bool
    ensures { result ≡ is_named (state_of state.now) key.now blob.now }
{
    match state.rows.get(key) {
        Some(asset) => asset.blob == *blob,
        None => false,
    }
}

/// Whether the deleted blob may be removed at that time.
fn is_removable(
    config: &PlainConfig,
    state: &PlainState,
    blob: &BlobRef,
    deletion: &Deletion,
    now: u64,
) -> bool
    ensures { result ≡ may_go (config_of config.now) (state_of state.now) blob.now deletion.now now }
{
    !is_named_by(state, &deletion.key, blob)
        && config.compact_age <= now.saturating_sub(deletion.at)
}

/// Removes a deleted blob for good, if it may be removed.
pub(crate) fn remove(
    alloc: Global,
    config: &PlainConfig,
    state: &mut PlainState,
    blob: &BlobRef,
    now: u64,
) -> Result<Option<Reply>, NoMemory>
    ensures { IfOk result (λ r. on_remove (config_of config.now) (state_of state.old) blob.now now ≡ outcome_of r state.new) }
{
    match state.trash.get(blob) {
        Some(deletion) if is_removable(config, state, blob, deletion, time(now)) => {}
        _ => return Ok(None),
    }
    let spot = Spot {
        store: blob.store.try_clone(alloc)?,
        id: blob.id,
    };
    state.trash.remove(blob);
    state.taken.remove(&spot);
    Ok(Some(Reply::Removed))
}
