ghost use Rattle.std.specs.Prelude.{◌≡◌, ℕ};
ghost use Rattle.repo_model.specs.Freshness.{fresh, note_young, is_settled};
ghost use Rattle.repo_model.specs.Plain.{state_of};

use crate::plain::config::PlainRepo;
use crate::plain::state::PlainState;
use nx_base::{Key, RepoKind};

/// Whether an asset that was verified then needs no question to the remote. Times are in
/// milliseconds, ages in minutes.
pub(crate) fn is_fresh(verified: u64, max_age: Option<u64>, now: u64) -> bool
    ensures { result ≡ fresh verified max_age now }
{
    match max_age {
        None => true,
        Some(minutes) => u128::from(now.saturating_sub(verified)) < u128::from(minutes) * 60000,
    }
}

fn is_young(at: u64, minutes: u64, now: u64) -> bool
    ensures { result ≡ note_young at minutes now }
{
    u128::from(now.saturating_sub(at)) < u128::from(minutes) * 60000
}

/// Whether the remote needn't be asked about the key, whatever is stored.
pub(crate) fn is_settled_at(repo: &PlainRepo, state: &PlainState, key: &Key, now: u64) -> bool
    ensures { result ≡ is_settled repo.now (state_of state.now) key.now now }
{
    match repo.kind {
        RepoKind::Hosted => true,
        RepoKind::Proxy => match state.notes.get(key) {
            Some(at) => is_young(*at, repo.not_found, now),
            None => false,
        },
    }
}
