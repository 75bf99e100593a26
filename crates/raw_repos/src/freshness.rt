ghost use Rattle.std.specs.Prelude.{◌≡◌};
ghost use Rattle.repo_model.specs.Freshness as freshness;

/// A minute in milliseconds.
const MINUTE: u128 = 60_000;

/// Whether so many minutes haven't passed since then.
fn is_within(since: u64, minutes: u64, now: u64) -> bool
    ensures { result ≡ freshness.note_young since minutes now }
{
    u128::from(now.saturating_sub(since)) < u128::from(minutes) * MINUTE
}

/// Whether an asset that was verified then, in milliseconds, needs no question to the remote: it is
/// younger than the greatest age in minutes, or there is none.
pub fn fresh(verified: u64, max_age: Option<u64>, now: u64) -> bool
    ensures { result ≡ freshness.fresh verified max_age now }
{
    match max_age {
        None => true,
        Some(minutes) => is_within(verified, minutes, now),
    }
}

/// Whether a note that was made then, in milliseconds, still counts: it is younger than so many
/// minutes.
pub fn note_young(at: u64, minutes: u64, now: u64) -> bool
    ensures { result ≡ freshness.note_young at minutes now }
{
    is_within(at, minutes, now)
}
