ghost use Rattle.std.specs.Prelude.{◌≡◌, ℕ, Bool, true, List, find, IfOk};
ghost use Rattle.std.specs.Option.{option_copied, option_map};
ghost use Rattle.std.specs.FinMap as map;
ghost use Rattle.nx_base.specs.Order.{name_cmp};
ghost use Rattle.nx_base.specs.Given.{given};
ghost use Rattle.nx_base.specs.Cleanup.{has_passed, last_used, matches};
ghost use Rattle.repo_model.specs.Cleaning.{takes_row_by, first_match};
ghost use Rattle.repo_model.specs.Step.{on_clean};
ghost use Rattle.repo_model.specs.Plain.{config_of, criteria_in, policies_in, with_policies, state_of, outcome_of};

use crate::plain::config::{PlainConfig, find_repo};
use crate::plain::deletes::give_up;
use crate::plain::policies::{PathPattern, PlainPolicy};
use crate::plain::serves::asset_of;
use crate::plain::state::PlainState;
use crate::plain::writing::time;
use crate::reply::Reply;
use nx_base::{Asset, Key, NoMemory, PolicyName};
use std::alloc::Global;

/// A day in milliseconds.
const DAY: u128 = 86_400_000;

/// Whether that many days have gone by, if a number of them is set.
fn is_past(days: Option<u64>, since: u64, now: u64) -> bool
    ensures { result ≡ given days true (λ days. has_passed days since now) }
{
    match days {
        None => true,
        Some(days) => u128::from(days) * DAY <= u128::from(now.saturating_sub(since)),
    }
}

/// Whether the row meets each criterion of the policy.
fn meets<M: PathPattern + Drop>(
    alloc: Global,
    policy: &PlainPolicy<M>,
    key: &Key,
    asset: &Asset,
    now: u64,
) -> Result<bool, NoMemory>
    ensures { IfOk result (λ met. met ≡ matches (criteria_in M.text policy.now) key.now asset.now now) }
{
    let used = asset.downloaded.unwrap_or(asset.blob.timestamp);
    if !is_past(policy.age, asset.blob.timestamp, now) || !is_past(policy.usage, used, now) {
        return Ok(false);
    }
    match &policy.path {
        None => Ok(true),
        Some(pattern) => pattern.is_hit(alloc, &key.path),
    }
}

/// The first policy of that name.
fn find_policy<'a, M: PathPattern + Drop>(
    policies: &'a [(PolicyName, PlainPolicy<M>)],
    name: &PolicyName,
) -> Option<&'a PlainPolicy<M>>
    ensures { option_map (criteria_in M.text) (option_copied result) ≡ map.find name_cmp name.now (policies_in M.text policies.now) }
{
    for (at, policy) in policies {
        if name == at {
            return Some(policy);
        }
    }
    None
}

/// Whether the policy of that name takes the row. One that isn't declared takes none.
fn may_clean<M: PathPattern + Drop>(
    alloc: Global,
    policies: &[(PolicyName, PlainPolicy<M>)],
    key: &Key,
    asset: &Asset,
    now: u64,
    name: &PolicyName,
) -> Result<bool, NoMemory>
    ensures { IfOk result (λ taken. taken ≡ takes_row_by (policies_in M.text policies.now) key.now asset.now now name.now) }
{
    match find_policy(policies, name) {
        None => Ok(false),
        Some(policy) => meets(alloc, policy, key, asset, now),
    }
}

/// The first of the policies that takes the row.
fn first_of<'a, M: PathPattern + Drop>(
    alloc: Global,
    policies: &[(PolicyName, PlainPolicy<M>)],
    names: &'a [PolicyName],
    key: &Key,
    asset: &Asset,
    now: u64,
) -> Result<Option<&'a PolicyName>, NoMemory>
    ensures { IfOk result (λ first. option_copied first ≡ find (takes_row_by (policies_in M.text policies.now) key.now asset.now now) names.now) }
{
    for name in names {
        if may_clean(alloc, policies, key, asset, now, name)? {
            return Ok(Some(name));
        }
    }
    Ok(None)
}

/// The first policy of the key's repository that takes the row.
fn first_policy<'a, M: PathPattern + Drop>(
    alloc: Global,
    config: &'a PlainConfig,
    policies: &[(PolicyName, PlainPolicy<M>)],
    key: &Key,
    asset: &Asset,
    now: u64,
) -> Result<Option<&'a PolicyName>, NoMemory>
    ensures { IfOk result (λ first. option_copied first ≡ first_match (with_policies M.text policies.now (config_of config.now)) key.now asset.now now) }
{
    match find_repo(&config.repos, &key.repo) {
        None => Ok(None),
        Some(repo) => first_of(alloc, policies, &repo.cleanup, key, asset, now),
    }
}

/// Gives up the key's row where that policy is the first to take it.
pub(crate) fn clean<M: PathPattern + Drop>(
    alloc: Global,
    config: &PlainConfig,
    policies: &[(PolicyName, PlainPolicy<M>)],
    state: &mut PlainState,
    key: &Key,
    policy: &PolicyName,
    now: u64,
) -> Result<Option<Reply>, NoMemory>
    ensures { IfOk result (λ r. on_clean (with_policies M.text policies.now (config_of config.now)) (state_of state.old) key.now policy.now now ≡ outcome_of r state.new) }
{
    let Some(asset) = asset_of(alloc, state, key)? else {
        return Ok(None);
    };
    match first_policy(alloc, config, policies, key, &asset, time(now))? {
        Some(first) if first == policy => Ok(Some(give_up(alloc, state, key, now, asset)?)),
        _ => Ok(None),
    }
}
