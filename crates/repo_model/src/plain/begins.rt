ghost use Rattle.std.specs.Prelude.{◌≡◌, ℕ, List, Some, IfOk};
ghost use Rattle.repo_model.specs.Step.{on_begin, begun};
ghost use Rattle.repo_model.specs.Plain.{config_of, state_of, outcome_of};

use crate::call::{Begin, Kind};
use crate::plain::config::{PlainConfig, PlainRepo, find_repo};
use crate::plain::state::PlainState;
use crate::plain::stores::choose;
use crate::plain::writing::{count_upload, is_barred, is_kept};
use crate::reply::{Refusal, Reply};
use nx_base::{NoMemory, Policy, StoreName};
use std::alloc::Global;

/// Begins an upload into that store.
fn begin_in(
    alloc: Global,
    repo: &PlainRepo,
    state: &mut PlainState,
    begin: &Begin,
    store: &StoreName,
) -> Result<Reply, NoMemory>
    ensures { IfOk result (λ r. begun repo.now (state_of state.old) begin.now store.now ≡ outcome_of (Some r) state.new) }
{
    if matches!(begin.kind, Kind::Put) && is_kept(repo, state, &begin.key) {
        return Ok(Reply::Refused(Refusal::WriteDenied {
            policy: Policy::NoRedeploy,
        }));
    }
    let store = store.try_clone(alloc)?;
    count_upload(alloc, state, &repo.store)?;
    Ok(Reply::Begun { store })
}

/// Begins an upload, or says why not.
pub(crate) fn begin(
    alloc: Global,
    config: &PlainConfig,
    state: &mut PlainState,
    begin: &Begin,
) -> Result<Reply, NoMemory>
    ensures { IfOk result (λ r. on_begin (config_of config.now) (state_of state.old) begin.now ≡ outcome_of (Some r) state.new) }
{
    let Some(repo) = find_repo(&config.repos, &begin.key.repo) else {
        return Ok(Reply::Refused(Refusal::UnknownRepo));
    };
    if matches!(begin.kind, Kind::Put) && is_barred(repo) {
        return Ok(Reply::Refused(Refusal::WriteDenied {
            policy: Policy::ReadOnly,
        }));
    }
    let count = state.counts.get(&repo.store).unwrap_or(0);
    match choose(config, repo, count) {
        Some(store) => begin_in(alloc, repo, state, begin, store),
        None => Ok(Reply::Refused(Refusal::NoWritable)),
    }
}
