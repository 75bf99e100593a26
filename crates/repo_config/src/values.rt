//! What single values say.
ghost use Rattle.std.specs.Prelude.{◌≡◌, ◌≢◌, ◌<◌, ◌^◌, ℕ, MatchOption, IfSome, SomeIff, decimal};
ghost use Rattle.std.specs.Str.Parse.{IsNumeral, digits_value};
ghost use Rattle.repo_config.specs.Values.{kind_said, layout_said, policy_said, is_between, number_said};

use crate::form::{PartKind, Subject};
use crate::key::is_same;
use nx_base::{Layout, Policy};

/// The kind of a store or of a repository.
pub(crate) fn kind_said(subject: Subject, value: &str) -> Option<PartKind>
    ensures { result ≡ kind_said subject value.now }
{
    match subject {
        Subject::OfStore if is_same(value, "file") => Some(PartKind::FileStore),
        Subject::OfRepo if is_same(value, "hosted") => Some(PartKind::HostedRepo),
        _ => None,
    }
}

pub(crate) fn layout_said(value: &str) -> Option<Layout>
    ensures { result ≡ layout_said value.now }
{
    if is_same(value, "volume") {
        Some(Layout::Volume)
    } else {
        None
    }
}

/// What a hosted repository lets be written.
pub(crate) fn policy_said(value: &str) -> Option<Policy>
    ensures { result ≡ policy_said value.now }
{
    if is_same(value, "redeploy") {
        Some(Policy::Redeploy)
    } else if is_same(value, "no-redeploy") {
        Some(Policy::NoRedeploy)
    } else if is_same(value, "read-only") {
        Some(Policy::ReadOnly)
    } else {
        None
    }
}

/// The number that digits alone write.
fn parse_digits(text: &str) -> Option<u64>
    ensures { SomeIff result (IsNumeral 10 text.now × (digits_value 10 text.now < 2 ^ 64)) (digits_value 10 text.now) }
{
    let bytes = text.as_bytes();
    if bytes.len() > 0 && bytes[0] == b'+' {
        return None;
    }
    match text.parse::<u64>() {
        Ok(n) => Some(n),
        Err(_) => None,
    }
}

/// The number whose decimal text this is: without a sign, and without a zero before other digits.
fn read_number(text: &str) -> Option<u64>
    ensures reads { MatchOption result ((n : ℕ) → n < 2 ^ 64 → decimal n ≢ text.now) (λ n. decimal n ≡ text.now) }
    ensures small { IfSome result (λ n. n < 2 ^ 64) }
{
    let bytes = text.as_bytes();
    if bytes.len() > 1 && bytes[0] == b'0' {
        return None;
    }
    parse_digits(text)
}

fn is_between(least: u64, most: u64, n: u64) -> bool
    ensures { result ≡ is_between least most n }
{
    least <= n && n <= most
}

/// A number between the two, both included.
pub(crate) fn number_said(least: u64, most: u64, value: &str) -> Option<u64>
    ensures { result ≡ number_said least most value.now }
{
    match read_number(value) {
        Some(n) => {
            if is_between(least, most, n) {
                Some(n)
            } else {
                None
            }
        }
        None => None,
    }
}
