ghost use Rattle.std.specs.Prelude.{◌≡◌, ℕ, List, IfOk};
ghost use Rattle.repo_model.specs.Step.{sound_outcome, outcome};
ghost use Rattle.repo_model.specs.Plain.{config_of, with_policies, state_of, outcome_of};

use crate::call::Call;
use crate::plain::begins::begin;
use crate::plain::cleans::clean;
use crate::plain::config::PlainConfig;
use crate::plain::deletes::delete;
use crate::plain::gets::get;
use crate::plain::policies::{NoPattern, PathPattern, PlainPolicy};
use crate::plain::puts::put;
use crate::plain::reconciles::reconcile;
use crate::plain::removes::remove;
use crate::plain::state::PlainState;
use crate::reply::{Refusal, Reply};
use crate::upload::Upload;
use nx_base::{NoMemory, PolicyName, StoreName};
use std::alloc::Global;

/// What the repository answers, or `None` where the call has no outcome in the state. `store` is
/// that of the upload which a Put or a fetched Get ends; other calls don't look at it. There
/// are no cleanup policies. Where memory is refused nothing is said of the state: give it up.
pub fn step(
    alloc: Global,
    config: &PlainConfig,
    state: &mut PlainState,
    store: &StoreName,
    call: Call,
) -> Result<Option<Reply>, NoMemory>
    ensures { IfOk result (λ r. outcome (config_of config.now) (state_of state.old) store.now call ≡ outcome_of r state.new) }
{
    let policies: [(PolicyName, PlainPolicy<NoPattern>); 0] = [];
    step_with(alloc, config, &policies, state, store, call)
}

/// As [`step`], with cleanup policies.
#[tactic(auto, unfolding(crate::specs::Step::outcome))]
pub fn step_with<M: PathPattern + Drop>(
    alloc: Global,
    config: &PlainConfig,
    policies: &[(PolicyName, PlainPolicy<M>)],
    state: &mut PlainState,
    store: &StoreName,
    call: Call,
) -> Result<Option<Reply>, NoMemory>
    ensures { IfOk result (λ r. outcome (with_policies M.text policies.now (config_of config.now)) (state_of state.old) store.now call ≡ outcome_of r state.new) }
{
    if let Some(cause) = state.broken {
        return Ok(Some(Reply::Refused(Refusal::Broken { cause })));
    }
    sound_step(alloc, config, policies, state, store, call)
}

fn sound_step<M: PathPattern + Drop>(
    alloc: Global,
    config: &PlainConfig,
    policies: &[(PolicyName, PlainPolicy<M>)],
    state: &mut PlainState,
    store: &StoreName,
    call: Call,
) -> Result<Option<Reply>, NoMemory>
    ensures { IfOk result (λ r. sound_outcome (with_policies M.text policies.now (config_of config.now)) (state_of state.old) store.now call ≡ outcome_of r state.new) }
{
    match call {
        Call::Begin(call) => Ok(Some(begin(alloc, config, state, &call)?)),
        Call::Put {
            key,
            content_type,
            size,
            sha1,
            moment,
        } => {
            let upload = Upload {
                key,
                content_type,
                size,
                sha1,
            };
            put(alloc, config, state, store, &upload, &moment)
        }
        Call::Get {
            key,
            look,
            moment,
            remote,
        } => get(alloc, config, state, store, key, look, moment, remote),
        Call::Delete { key, now } => Ok(Some(delete(alloc, config, state, &key, now)?)),
        Call::Clean { key, policy, now } => clean(
            alloc, config, policies, state, &key, &policy, now,
        ),
        Call::Remove { blob, now } => remove(alloc, config, state, &blob, now),
        Call::Reconcile => Ok(Some(reconcile(alloc, state)?)),
    }
}
