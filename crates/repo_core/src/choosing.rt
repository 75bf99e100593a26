ghost use Rattle.std.specs.Prelude.{◌≡◌, ◌⊎◌, Bool, IfOk, OnOk, IfErr, IsSome, unwrap_or, Some, None, true, false};
ghost use Rattle.nx_io.specs.Causes.{HasCauseWhere};
ghost use Rattle.nx_base.specs.declared.policy.Policy.TheVariants as policies;
ghost use Rattle.asset_keeper.specs.Told.{Tells, Lasts};
ghost use Rattle.repo_model.specs.State.{State};
ghost use Rattle.repo_model.specs.Plain.{config_of};
ghost use Rattle.repo_model.specs.declared.call.Kind.TheVariants as kinds;
ghost use Rattle.repo_core.specs.declared.denial.Denial.TheVariants as denial;
ghost use Rattle.repo_core.specs.Rows.{rows_in};
ghost use Rattle.asset_keeper.specs.declared.keep_err.KeepErr.{KeepErr};
ghost use Rattle.std.specs.FinMap as map;
ghost use Rattle.repo_model.specs.Config.{Repo, repo_of, write_store, is_no_redeploy};
ghost use Rattle.repo_core.specs.Faults.{IsDisk, IsKeeper, DeniedBy, of_keeper, refusal_for};
ghost use Rattle.repo_core.specs.Why.{WhyNotBegun, may_put, keeps_rows, store_of};
ghost use Rattle.repo_core.specs.Begun.{MayChoose, MayReplace};
ghost use Rattle.repo_core.specs.Puts.{MayGo};

use crate::denial::{Denial, keeper_fault};
use crate::own::Own;
use crate::rules::is_no_redeploy;
use asset_keeper::Keeper;
use nx_base::{Key, NoMemory, Policy, StoreName};
use repo_model::plain::{PlainConfig, PlainRepo, choose, find_repo, is_barred};
use repo_model::{Begin, Fault};
use std::alloc::Global;

/// The store for a new upload with a copy of its name, the store or group in which it counts, how many uploads were begun there,
/// and the repository's policy.
#[derive(Drop)]
pub(crate) struct Chosen {
    pub(crate) store: StoreName,
    pub(crate) copy: StoreName,
    pub(crate) group: StoreName,
    pub(crate) count: u64,
    pub(crate) policy: Policy,
}

/// That store, of that repository.
fn chosen_of(
    alloc: Global,
    repo: &PlainRepo,
    store: &StoreName,
    count: u64,
) -> Result<Chosen, NoMemory>
    ensures { IfOk result (λ c. c ≡ record { store = store.now; copy = store.now; group = repo.now.store; count = count; policy = repo.now.policy }) }
{
    let copy = store.try_clone(alloc)?;
    let store = store.try_clone(alloc)?;
    let group = repo.store.try_clone(alloc)?;
    Ok(Chosen {
        store,
        copy,
        group,
        count,
        policy: repo.policy,
    })
}

/// Chooses the store for an upload that a client sends.
pub(crate) fn choose_store(
    alloc: Global,
    config: &PlainConfig,
    own: &Own,
    begin: &Begin,
) -> Result<Chosen, Denial>
    requires { begin.now.kind ≡ kinds.Put }
    ensures row { (s : State) → s.broken ≡ None → own.now.counts ≡ s.counts → MayChoose (config_of config.now) s begin.now result }
    ensures may_go { IfOk result (λ c. MayGo (config_of config.now) begin.now.key c.store) }
    ensures copy { IfOk result (λ c. c.copy ≡ c.store) }
    ensures nobody { IfErr result (λ why. ¬ DeniedBy IsDisk why × ¬ DeniedBy IsKeeper why) }
    ensures why { (found : Bool) → IfErr result (λ why. WhyNotBegun (config_of config.now) own.now.counts begin.now.key found (refusal_for why)) }
    ensures group { IfOk result (λ c. (repo : Repo) × (repo_of (config_of config.now) begin.now.key.repo ≡ Some repo) × (c.group ≡ write_store repo) × (c.count ≡ unwrap_or (map.get own.now.counts (write_store repo)) 0)) }
    ensures opens { IfOk result (λ c. (may_put (config_of config.now) begin.now.key ≡ true) × IsSome (store_of (config_of config.now) own.now.counts begin.now.key) × (keeps_rows (config_of config.now) begin.now.key ≡ is_no_redeploy c.policy)) }
{
    let Some(repo) = find_repo(&config.repos, &begin.key.repo) else {
        return Err(Denial::UnknownRepo);
    };
    if is_barred(repo) {
        return Err(Denial::WriteDenied {
            policy: Policy::ReadOnly,
        });
    }
    let count = own.counts.get(&repo.store).unwrap_or(0);
    let Some(store) = choose(config, repo, count) else {
        return Err(Denial::NoWritable);
    };
    match chosen_of(alloc, repo, store, count) {
        Ok(chosen) => Ok(chosen),
        Err(_) => Err(Denial::Failed(Fault::Memory)),
    }
}

/// Whether the key may get a new content. The keeper is asked only where the policy keeps what is there.
pub(crate) fn may_replace<T: Keeper>(table: &mut T, policy: Policy, key: &Key) -> Result<(), Denial>
    ensures same { Tells (T.table table.old) (T.table table.new) (λ s t. t ≡ s) }
    ensures changes { T.changes table.new ≡ T.changes table.old }
    ensures lasting { Lasts T.lasts (T.table table.old) (T.table table.new) }
    ensures cause { HasCauseWhere (DeniedBy IsKeeper) (T.faults table.old) (T.faults table.new) result }
    ensures keeper_alone { IfErr result (λ why. ¬ DeniedBy IsDisk why) }
    ensures denied { IfErr result (λ why. (is_no_redeploy policy ≡ true) × (((why ≡ denial.WriteDenied policies.NoRedeploy) × (T.found table.new ≡ true)) ⊎ ((refusal : KeepErr) × (why ≡ denial.Failed (of_keeper refusal))))) }
    ensures free { OnOk result (is_no_redeploy policy ≡ true → T.found table.new ≡ false) }
    ensures row { IsSome (T.table table.new) → (s : State) → rows_in (T.table table.old) ≡ s.rows → MayReplace s policy key.now result }
{
    if !is_no_redeploy(policy) {
        return Ok(());
    }
    match table.get(key) {
        Ok(None) => Ok(()),
        Ok(Some(_)) => Err(Denial::WriteDenied {
            policy: Policy::NoRedeploy,
        }),
        Err(refusal) => Err(Denial::Failed(keeper_fault(refusal))),
    }
}
