ghost use Rattle.std.specs.Prelude.{◌≡◌, map as map_list, take, IsTrue, IfOk};
ghost use Rattle.std.specs.FinMap as map;
ghost use Rattle.std.specs.Option.{option_copied};
ghost use Rattle.nx_base.specs.Order.{key_cmp};
ghost use Rattle.asset_keeper.specs.Table.{row_of, entries_after};
ghost use Rattle.asset_keeper.specs.Ranges.{entries_in_range, rows_in_range};
ghost use Rattle.asset_keeper.specs.Pages.{IsPageAfter};

use nx_base::{Asset, Key, NoMemory, Row};
use std::alloc::Global;
use std::collections::BTreeMap;
use std::collections::btree_map::Range;
use std::ops::Bound;

/// Copies of the first rows of a part of the tree.
fn copy_rows(alloc: Global, mut rest: Range<'_, Key, Asset>, n: usize) -> Result<Vec<Row>, NoMemory>
    ensures { IfOk result (λ out. out.items ≡ map_list row_of (take n rest.entry)) }
{
    let mut out = Vec::new(alloc);
    while out.len() < n {
        let Some((key, asset)) = rest.next() else {
            return Ok(out);
        };
        let row = Row {
            key: key.try_clone(alloc)?,
            asset: asset.try_clone(alloc)?,
        };
        if out.push(row).is_err() {
            return Err(NoMemory);
        }
    }
    Ok(out)
}

/// The next n rows after the key, or the first ones.
pub(crate) fn page_in(
    alloc: Global,
    rows: &BTreeMap<Key, Asset>,
    after: Option<&Key>,
    n: usize,
) -> Result<Vec<Row>, NoMemory>
    requires { IsTrue (entries_in_range rows.now.entries) }
    ensures value { IfOk result (λ out. out.items ≡ map_list row_of (take n (entries_after (option_copied after.entry) (map.entries (map.from_entries {R = key_cmp} rows.now.entries))))) }
    ensures shape { IfOk result (λ out. IsPageAfter (option_copied after.entry) n out.items) }
    ensures range { IfOk result (λ out. IsTrue (rows_in_range out.items)) }
{
    match after {
        Some(key) => {
            let from: Bound<Key> = Bound::Excluded(key.try_clone(alloc)?);
            let end: Bound<Key> = Bound::Unbounded;
            copy_rows(alloc, rows.range((from, end)), n)
        }
        None => {
            let from: Bound<Key> = Bound::Unbounded;
            let end: Bound<Key> = Bound::Unbounded;
            copy_rows(alloc, rows.range((from, end)), n)
        }
    }
}
