ghost use Rattle.std.specs.Prelude.{◌≡◌, ℕ, ◌<◌, ◌^◌, ◌+◌, max, List, IfOk, OnOk, OnErr, if◌then◌else◌};
ghost use Rattle.nx_base.specs.Given.{given};
ghost use Rattle.repo_model.specs.State.{row_of};
ghost use Rattle.repo_model.specs.Timestamps.{greatest_time, time_of, next_timestamp};
ghost use Rattle.repo_model.specs.Deleting.{discarded};
ghost use Rattle.repo_model.specs.Storing.{with_asset, stored, stored_as};
ghost use Rattle.repo_model.specs.Step.{on_put};
ghost use Rattle.repo_model.specs.Plain.{config_of, state_of, outcome_of, stored_of};

use crate::deletion::Deletion;
use crate::plain::config::{PlainConfig, find_repo};
use crate::plain::state::PlainState;
use crate::plain::stores::may_take;
use crate::plain::writing::{GREATEST_TIME, is_kept, time};
use crate::reply::{Refusal, Reply};
use crate::spot::Spot;
use crate::upload::Upload;
use nx_base::{Asset, BlobId, BlobRef, Key, Moment, NoMemory, Policy, StoreName};
use std::alloc::Global;

/// Deletes the blob of the key's old asset, if it has one.
fn discard_old(alloc: Global, state: &mut PlainState, key: &Key, now: u64) -> Result<(), NoMemory>
    ensures { OnOk result (state_of state.new ≡ record (state_of state.old) { trash = given (row_of (state_of state.old) key.now) state.old.trash (λ old. discarded state.old.trash key.now old now) }) }
{
    let blob = match state.rows.get(key) {
        None => return Ok(()),
        Some(old) => old.blob.try_clone(alloc)?,
    };
    let deletion = Deletion {
        at: now,
        key: key.try_clone(alloc)?,
    };
    state.trash.insert(blob, deletion)
}

/// Gives the key the asset, whose blob is new.
fn set_asset(
    alloc: Global,
    state: &mut PlainState,
    key: &Key,
    asset: &Asset,
    now: u64,
) -> Result<(), NoMemory>
    ensures { OnOk result (state_of state.new ≡ with_asset (state_of state.old) key.now asset.now now) }
{
    discard_old(alloc, state, key, now)?;
    let spot = Spot {
        store: asset.blob.store.try_clone(alloc)?,
        id: asset.blob.id,
    };
    state.taken.insert(spot)?;
    state.last = asset.blob.timestamp;
    state
        .rows
        .insert(key.try_clone(alloc)?, asset.try_clone(alloc)?)?;
    Ok(())
}

/// The timestamp of the next blob.
fn timestamp_after(last: u64, now: u64) -> u64
    requires { last < greatest_time }
    ensures timestamp { result ≡ next_timestamp last now }
    ensures bound { result < 2 ^ 48 }
{
    time(now).max(last + 1)
}

/// What a remote has is verified now, and what was put, at its timestamp.
fn verified_at(is_fetched: bool, now: u64, timestamp: u64) -> u64
    ensures { result ≡ (if is_fetched then time_of now else timestamp) }
{
    if is_fetched { time(now) } else { timestamp }
}

/// Stores a content as that blob, unless its name is taken.
fn store_as(
    alloc: Global,
    state: &mut PlainState,
    upload: &Upload,
    now: u64,
    blob: BlobRef,
    verified: u64,
) -> Result<Result<Asset, Refusal>, NoMemory>
    ensures stored { IfOk result (λ r. stored_as (state_of state.old) upload.now now blob verified ≡ stored_of r state.new) }
    ensures refused { IfOk result (λ r. OnErr r (state_of state.new ≡ state_of state.old)) }
{
    let spot = Spot {
        store: blob.store.try_clone(alloc)?,
        id: blob.id,
    };
    if state.taken.has(&spot) {
        return Ok(Err(Refusal::IdTaken { id: blob.id }));
    }
    let asset = Asset {
        blob,
        size: upload.size,
        sha1: upload.sha1,
        content_type: upload.content_type.try_clone(alloc)?,
        verified,
        downloaded: None,
    };
    set_asset(alloc, state, &upload.key, &asset, time(now))?;
    Ok(Ok(asset))
}

/// Stores a content as a new blob in that store.
pub(crate) fn store_new(
    alloc: Global,
    state: &mut PlainState,
    store: &StoreName,
    upload: &Upload,
    moment: &Moment,
    is_fetched: bool,
) -> Result<Result<Asset, Refusal>, NoMemory>
    ensures stored { IfOk result (λ r. stored (state_of state.old) store.now upload.now moment.entry.now is_fetched ≡ stored_of r state.new) }
    ensures refused { IfOk result (λ r. OnErr r (state_of state.new ≡ state_of state.old)) }
{
    if state.last >= GREATEST_TIME {
        return Ok(Err(Refusal::StampsUsed));
    }
    let timestamp = timestamp_after(state.last, moment.now);
    let blob = BlobRef {
        store: store.try_clone(alloc)?,
        id: BlobId::made(timestamp, &moment.random),
        timestamp,
    };
    let verified = verified_at(is_fetched, moment.now, timestamp);
    store_as(alloc, state, upload, moment.now, blob, verified)
}

/// Stores an upload that went into that store.
pub(crate) fn put(
    alloc: Global,
    config: &PlainConfig,
    state: &mut PlainState,
    store: &StoreName,
    upload: &Upload,
    moment: &Moment,
) -> Result<Option<Reply>, NoMemory>
    ensures { IfOk result (λ r. on_put (config_of config.now) (state_of state.old) store.now upload.now moment.entry.now ≡ outcome_of r state.new) }
{
    let Some(repo) = find_repo(&config.repos, &upload.key.repo) else {
        return Ok(None);
    };
    if !may_take(config, repo, store) {
        return Ok(None);
    }
    if is_kept(repo, state, &upload.key) {
        return Ok(Some(Reply::Refused(Refusal::WriteDenied {
            policy: Policy::NoRedeploy,
        })));
    }
    match store_new(alloc, state, store, upload, moment, false)? {
        Ok(asset) => Ok(Some(Reply::Stored { asset })),
        Err(why) => Ok(Some(Reply::Refused(why))),
    }
}
