ghost use Rattle.std.specs.Prelude.{◌≡◌, IsTrue, ◌≤◌, length, List};
ghost use Rattle.std.specs.Option.{option_copied};
ghost use Rattle.asset_keeper.specs.Ranges.{is_time, in_range, rows_in_range};
ghost use Rattle.asset_keeper.specs.Pages.{IsAfter, RiseAfter, MayGive};

use nx_base::{Asset, Key, Row};

/// Whether a table may hold that time, or that number of a generation.
pub(crate) fn may_be_time(n: u64) -> bool
    ensures { result ≡ is_time n }
{
    n < 0x1_0000_0000_0000
}

/// Whether a table may hold the asset.
pub(crate) fn is_in_range(asset: &Asset) -> bool
    ensures { result ≡ in_range asset.now }
{
    may_be_time(asset.blob.timestamp)
        && asset.size < 0x8000_0000_0000_0000
        && may_be_time(asset.verified)
        && asset.downloaded.is_none_or(may_be_time)
}

/// Whether each asset is one that a table may hold.
pub(crate) fn are_in_range(rows: &[Row]) -> bool
    ensures { result ≡ rows_in_range rows.now }
{
    rows.iter().all(|row| is_in_range(&row.asset))
}

/// Whether the key comes after the other, if there is one.
fn is_after(other: Option<&Key>, key: &Key) -> bool
    ensures yes { IsTrue result → IsAfter (option_copied other.entry) key.now }
    ensures no { IsAfter (option_copied other.entry) key.now → IsTrue result }
{
    match other {
        None => true,
        Some(other) => other.cmp(key).is_lt(),
    }
}

/// Whether the keys strictly rise, the first from the key before it.
fn do_rise(after: Option<&Key>, rows: &[Row]) -> bool
    ensures yes { IsTrue result → RiseAfter (option_copied after.entry) rows.now }
    ensures no { RiseAfter (option_copied after.entry) rows.now → IsTrue result }
{
    let mut last = after;
    for row in rows {
        if !is_after(last, &row.key) {
            return false;
        }
        last = Some(&row.key);
    }
    true
}

/// Whether a table may give those rows as the next n after the key.
pub(crate) fn is_page(after: Option<&Key>, n: usize, rows: &[Row]) -> bool
    ensures yes { IsTrue result → MayGive (option_copied after.entry) n rows.now }
    ensures no { MayGive (option_copied after.entry) n rows.now → IsTrue result }
{
    rows.len() <= n && are_in_range(rows) && do_rise(after, rows)
}
