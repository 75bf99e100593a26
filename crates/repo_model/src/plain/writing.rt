ghost use Rattle.std.specs.Prelude.{◌≡◌, ℕ, OnOk};
ghost use Rattle.repo_model.specs.Timestamps.{time_of};
ghost use Rattle.repo_model.specs.Writing.{bars_put, bars_delete, keeps_row, counted};
ghost use Rattle.repo_model.specs.Plain.{state_of};

use crate::plain::config::PlainRepo;
use crate::plain::state::PlainState;
use nx_base::{Key, NoMemory, Policy, RepoKind, StoreName};
use std::alloc::Global;

/// The greatest time and the greatest timestamp, in milliseconds since 1970.
pub(crate) const GREATEST_TIME: u64 = 0xffff_ffff_ffff;

/// A moment as the repository takes it.
pub fn time(now: u64) -> u64
    ensures { result ≡ time_of now }
{
    now.min(GREATEST_TIME)
}

/// Whether clients may put nothing into the repository.
pub fn is_barred(repo: &PlainRepo) -> bool
    ensures { result ≡ bars_put repo.now }
{
    match repo.kind {
        RepoKind::Proxy => true,
        RepoKind::Hosted => match repo.policy {
            Policy::ReadOnly => true,
            Policy::Redeploy | Policy::NoRedeploy => false,
        },
    }
}

/// Whether clients may delete nothing of the repository.
pub(crate) fn is_delete_barred(repo: &PlainRepo) -> bool
    ensures { result ≡ bars_delete repo.now }
{
    match repo.kind {
        RepoKind::Proxy => false,
        RepoKind::Hosted => match repo.policy {
            Policy::ReadOnly => true,
            Policy::Redeploy | Policy::NoRedeploy => false,
        },
    }
}

/// Whether what the key has may not be replaced.
pub(crate) fn is_kept(repo: &PlainRepo, state: &PlainState, key: &Key) -> bool
    ensures { result ≡ keeps_row repo.now (state_of state.now) key.now }
{
    match repo.policy {
        Policy::NoRedeploy => state.rows.get(key).is_some(),
        Policy::Redeploy | Policy::ReadOnly => false,
    }
}

/// Counts an upload into the store or group.
pub(crate) fn count_upload(
    alloc: Global,
    state: &mut PlainState,
    store: &StoreName,
) -> Result<(), NoMemory>
    ensures { OnOk result (state_of state.new ≡ counted (state_of state.old) store.now) }
{
    let count = state.counts.get(store).unwrap_or(0);
    state
        .counts
        .insert(store.try_clone(alloc)?, count.wrapping_add(1))?;
    Ok(())
}
