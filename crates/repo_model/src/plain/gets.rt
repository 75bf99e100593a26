ghost use Rattle.std.specs.Prelude.{◌≡◌, ℕ, List, [], IfOk};
ghost use Rattle.repo_model.specs.Step.{unasked, on_get};
ghost use Rattle.repo_model.specs.Plain.{config_of, state_of, outcome_of};

use crate::call::{Look, RemoteSaid};
use crate::plain::config::{PlainConfig, PlainRepo, find_repo};
use crate::plain::freshness::{is_fresh, is_settled_at};
use crate::plain::notes::note;
use crate::plain::puts::store_new;
use crate::plain::serves::{asset_of, serve};
use crate::plain::state::PlainState;
use crate::plain::stores::may_take;
use crate::plain::writing::time;
use crate::reply::{Refusal, Reply};
use crate::upload::Upload;
use nx_base::{Key, Moment, NoMemory, StoreName};
use std::alloc::Global;

fn look_unasked(
    alloc: Global,
    repo: &PlainRepo,
    state: &mut PlainState,
    key: &Key,
    look: Look,
    now: u64,
) -> Result<Option<Reply>, NoMemory>
    ensures { IfOk result (λ r. unasked repo.now (state_of state.old) key.now look now ≡ outcome_of r state.new) }
{
    let settled = is_settled_at(repo, state, key, time(now));
    match asset_of(alloc, state, key)? {
        None if settled => Ok(Some(Reply::Refused(Refusal::NotFound))),
        None => Ok(None),
        Some(asset) => {
            if settled || is_fresh(asset.verified, repo.max_age, time(now)) {
                Ok(Some(serve(alloc, state, key, look, now, asset)?))
            } else {
                Ok(None)
            }
        }
    }
}

/// A look without the remote.
fn look_alone(
    alloc: Global,
    config: &PlainConfig,
    state: &mut PlainState,
    key: &Key,
    look: Look,
    moment: &Moment,
) -> Result<Option<Reply>, NoMemory>
    ensures { IfOk result (λ r. on_get (config_of config.now) (state_of state.old) [] key.now look moment.entry.now RemoteSaid.NotAsked ≡ outcome_of r state.new) }
{
    match find_repo(&config.repos, &key.repo) {
        None => Ok(Some(Reply::Refused(Refusal::UnknownRepo))),
        Some(repo) => look_unasked(alloc, repo, state, key, look, moment.now),
    }
}

/// A look for which the remote's content went into that store.
fn look_found(
    alloc: Global,
    config: &PlainConfig,
    state: &mut PlainState,
    store: &StoreName,
    upload: &Upload,
    look: Look,
    moment: &Moment,
) -> Result<Option<Reply>, NoMemory>
    ensures { IfOk result (λ r. on_get (config_of config.now) (state_of state.old) store.now upload.now.key look moment.entry.now (RemoteSaid.Found upload.now.content_type upload.now.size upload.now.sha1) ≡ outcome_of r state.new) }
{
    let Some(repo) = find_repo(&config.repos, &upload.key.repo) else {
        return Ok(None);
    };
    if !may_take(config, repo, store) {
        return Ok(None);
    }
    match store_new(alloc, state, store, upload, moment, true)? {
        Ok(asset) => Ok(Some(serve(alloc, state, &upload.key, look, moment.now, asset)?)),
        Err(why) => Ok(Some(Reply::Refused(why))),
    }
}

/// A look where the remote has nothing of the key.
fn look_missing(
    alloc: Global,
    config: &PlainConfig,
    state: &mut PlainState,
    key: &Key,
    look: Look,
    moment: &Moment,
) -> Result<Option<Reply>, NoMemory>
    ensures { IfOk result (λ r. on_get (config_of config.now) (state_of state.old) [] key.now look moment.entry.now RemoteSaid.Missing ≡ outcome_of r state.new) }
{
    if find_repo(&config.repos, &key.repo).is_none() {
        return Ok(Some(Reply::Refused(Refusal::UnknownRepo)));
    }
    match asset_of(alloc, state, key)? {
        None => {
            note(alloc, state, key, time(moment.now))?;
            Ok(Some(Reply::Refused(Refusal::NotFound)))
        }
        Some(asset) => Ok(Some(serve(alloc, state, key, look, moment.now, asset)?)),
    }
}

/// A look where the remote failed.
fn look_failed(
    alloc: Global,
    config: &PlainConfig,
    state: &mut PlainState,
    key: &Key,
    look: Look,
    moment: &Moment,
) -> Result<Option<Reply>, NoMemory>
    ensures { IfOk result (λ r. on_get (config_of config.now) (state_of state.old) [] key.now look moment.entry.now RemoteSaid.Failed ≡ outcome_of r state.new) }
{
    if find_repo(&config.repos, &key.repo).is_none() {
        return Ok(Some(Reply::Refused(Refusal::UnknownRepo)));
    }
    match asset_of(alloc, state, key)? {
        None => Ok(Some(Reply::Refused(Refusal::RemoteFault))),
        Some(asset) => Ok(Some(serve(alloc, state, key, look, moment.now, asset)?)),
    }
}

/// A look at a key, by what the remote said. Where the remote's content was fetched it went into
/// that store.
pub(crate) fn get(
    alloc: Global,
    config: &PlainConfig,
    state: &mut PlainState,
    store: &StoreName,
    key: Key,
    look: Look,
    moment: Moment,
    remote: RemoteSaid,
) -> Result<Option<Reply>, NoMemory>
    ensures { IfOk result (λ r. on_get (config_of config.now) (state_of state.old) store.now key look moment remote ≡ outcome_of r state.new) }
{
    match remote {
        RemoteSaid::NotAsked => look_alone(alloc, config, state, &key, look, &moment),
        RemoteSaid::Found {
            content_type,
            size,
            sha1,
        } => {
            let upload = Upload {
                key,
                content_type,
                size,
                sha1,
            };
            look_found(alloc, config, state, store, &upload, look, &moment)
        }
        RemoteSaid::Missing => look_missing(alloc, config, state, &key, look, &moment),
        RemoteSaid::Failed => look_failed(alloc, config, state, &key, look, &moment),
    }
}
