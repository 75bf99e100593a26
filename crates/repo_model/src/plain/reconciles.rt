ghost use Rattle.std.specs.Prelude.{◌≡◌, ℕ, fold, Some, IfOk, OnOk};
ghost use Rattle.repo_model.specs.Reconciling.{is_superseded, superseded, with_superseded, without_superseded};
ghost use Rattle.repo_model.specs.Step.{on_reconcile};
ghost use Rattle.repo_model.specs.Plain.{state_of, outcome_of};

use crate::deletion::Deletion;
use crate::plain::blob_map::BlobMap;
use crate::plain::state::PlainState;
use crate::reply::Reply;
use nx_base::{BlobRef, Key, NoMemory};
use std::alloc::Global;

/// Whether the key has an asset that is newer than that blob of it.
fn has_newer(state: &PlainState, blob: &BlobRef, key: &Key) -> bool
    ensures { result ≡ is_superseded (state_of state.now) (blob.now, key.now) }
{
    match state.rows.get(key) {
        Some(asset) => *blob < asset.blob,
        None => false,
    }
}

/// The blobs that no row names and that are older than what their keys have, with their keys.
fn superseded_blobs(alloc: Global, state: &PlainState) -> Result<Vec<(BlobRef, Key)>, NoMemory>
    ensures { IfOk result (λ list. list.items ≡ superseded (state_of state.now)) }
{
    let mut list = Vec::new(alloc);
    for (blob, key) in state.loose.iter() {
        if has_newer(state, blob, key) {
            let entry = (blob.try_clone(alloc)?, key.try_clone(alloc)?);
            if list.push(entry).is_err() {
                return Err(NoMemory);
            }
        }
    }
    Ok(list)
}

/// Moves the blobs into the trash, each deleted at its own timestamp.
fn discard_all(
    trash: &mut BlobMap<Deletion>,
    loose: &mut BlobMap<Key>,
    list: Vec<(BlobRef, Key)>,
) -> Result<(), NoMemory>
    ensures trash { OnOk result (trash.new ≡ fold with_superseded trash.old list.items) }
    ensures loose { OnOk result (loose.new ≡ fold without_superseded loose.old list.items) }
{
    for (blob, key) in list {
        loose.remove(&blob);
        let at = blob.timestamp;
        trash.insert(blob, Deletion { at, key })?;
    }
    Ok(())
}

/// Deletes the blobs that are superseded.
pub(crate) fn reconcile(alloc: Global, state: &mut PlainState) -> Result<Reply, NoMemory>
    ensures { IfOk result (λ r. on_reconcile (state_of state.old) ≡ outcome_of (Some r) state.new) }
{
    let list = superseded_blobs(alloc, state)?;
    discard_all(&mut state.trash, &mut state.loose, list)?;
    Ok(Reply::Reconciled {
        kept: state.rows.len(),
    })
}
