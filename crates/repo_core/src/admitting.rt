//! Whether a content may be put, and as which blob.
ghost use Rattle.std.specs.Prelude.{◌≡◌, ◌⊎◌, ◌&&◌, ℕ, Option, IfErr, OnOk, IsSome, Some, false};
ghost use Rattle.nx_io.specs.Causes.{HasCauseWhere};
ghost use Rattle.nx_base.specs.declared.policy.Policy.TheVariants.{NoRedeploy};
ghost use Rattle.asset_keeper.specs.Told.{Tells, Lasts};
ghost use Rattle.asset_keeper.specs.declared.keep_err.KeepErr.{KeepErr};
ghost use Rattle.repo_model.specs.Config.{Repo, repo_of, is_no_redeploy};
ghost use Rattle.repo_model.specs.State.{State};
ghost use Rattle.repo_model.specs.Plain.{config_of};
ghost use Rattle.repo_core.specs.declared.denial.Denial.TheVariants as denial;
ghost use Rattle.nx_base.specs.declared.moment.Moment.{Moment};
ghost use Rattle.repo_core.specs.Faults.{IsKeeper, DeniedBy, of_keeper, refusal_for};
ghost use Rattle.repo_core.specs.Rows.{rows_in};
ghost use Rattle.repo_core.specs.Puts.{MayReplace, IsNext};
ghost use Rattle.repo_core.specs.Why.{WhyNotPut, keeps_rows};

use crate::denial::{Denial, keeper_fault};
use crate::rules::is_no_redeploy;
use asset_keeper::Keeper;
use nx_base::{Asset, BlobId, BlobRef, Key, Moment, Policy, StoreName};
use repo_model::Fault;
use repo_model::plain::{PlainConfig, find_repo, time};
use std::alloc::Global;

/// The greatest timestamp, in milliseconds since 1970.
const GREATEST_STAMP: u64 = 0xffff_ffff_ffff;

/// Whether what a key has may not be replaced.
fn keeps_rows(config: &PlainConfig, key: &Key) -> bool
    ensures policy { (repo : Repo) → repo_of (config_of config.now) key.now.repo ≡ Some repo → result ≡ is_no_redeploy repo.policy }
    ensures keeps { result ≡ keeps_rows (config_of config.now) key.now }
{
    match find_repo(&config.repos, &key.repo) {
        Some(repo) => is_no_redeploy(repo.policy),
        None => false,
    }
}

/// The row that a content replaces, if there is one and it may be replaced.
pub(crate) fn row_to_replace<T: Keeper>(
    table: &mut T,
    config: &PlainConfig,
    key: &Key,
) -> Result<Option<Asset>, Denial>
    ensures same { Tells (T.table table.old) (T.table table.new) (λ s t. t ≡ s) }
    ensures changes { T.changes table.new ≡ T.changes table.old }
    ensures lasting { Lasts T.lasts (T.table table.old) (T.table table.new) }
    ensures cause { HasCauseWhere (DeniedBy IsKeeper) (T.faults table.old) (T.faults table.new) result }
    ensures denied { IfErr result (λ why. (why ≡ denial.WriteDenied NoRedeploy) ⊎ ((refusal : KeepErr) × (why ≡ denial.Failed (of_keeper refusal)))) }
    ensures why { (last : ℕ) (moment : Moment) (looked : Option ℕ) → IfErr result (λ why. WhyNotPut (config_of config.now) last key.now moment (T.found table.new) looked (refusal_for why)) }
    ensures free { OnOk result ((keeps_rows (config_of config.now) key.now && T.found table.new) ≡ false) }
    ensures row { IsSome (T.table table.new) → (s : State) → rows_in (T.table table.old) ≡ s.rows
        → (repo : Repo) → repo_of (config_of config.now) key.now.repo ≡ Some repo → MayReplace repo s key.now result }
{
    let keeps = keeps_rows(config, key);
    match table.get(key) {
        Ok(None) => Ok(None),
        Ok(Some(asset)) => {
            if keeps {
                return Err(Denial::WriteDenied {
                    policy: Policy::NoRedeploy,
                });
            }
            Ok(Some(asset))
        }
        Err(refusal) => Err(Denial::Failed(keeper_fault(refusal))),
    }
}

/// The blob of an upload into a store: the next one after the last timestamp.
pub(crate) fn next_blob(
    alloc: Global,
    store: &StoreName,
    last: u64,
    moment: &Moment,
) -> Result<BlobRef, Denial>
    ensures { IsNext store.now last moment.entry.now result }
{
    if last >= GREATEST_STAMP {
        return Err(Denial::StampsUsed);
    }
    let timestamp = time(moment.now).max(last + 1);
    match store.try_clone(alloc) {
        Ok(store) => Ok(BlobRef {
            store,
            id: BlobId::made(timestamp, &moment.random),
            timestamp,
        }),
        Err(_) => Err(Denial::Failed(Fault::Memory)),
    }
}
