ghost use Rattle.std.specs.Prelude.{◌≡◌, List, fold, IsTrue, IfOk, OnOk, OnErr};
ghost use Rattle.std.specs.FinMap as map;
ghost use Rattle.nx_base.specs.Order.{key_cmp};
ghost use Rattle.asset_keeper.specs.Ranges.{in_range, found_in_range, rows_in_range, entries_in_range};
ghost use Rattle.asset_keeper.specs.Table.{with_row};

use nx_base::{Asset, Key, NoMemory, Row};
use std::alloc::Global;
use std::collections::BTreeMap;

/// A copy of the asset of the key, if it has one.
pub(crate) fn asset_at(
    alloc: Global,
    rows: &BTreeMap<Key, Asset>,
    key: &Key,
) -> Result<Option<Asset>, NoMemory>
    requires { IsTrue (entries_in_range rows.now.entries) }
    ensures value { IfOk result (λ asset. asset ≡ map.get (map.from_entries {R = key_cmp} rows.now.entries) key.now) }
    ensures range { IfOk result (λ asset. IsTrue (found_in_range asset)) }
{
    match rows.get(key) {
        Some(asset) => Ok(Some(asset.try_clone(alloc)?)),
        None => Ok(None),
    }
}

/// Gives the key of the row its asset. Where memory is refused, nothing changes.
fn put_row(rows: &mut BTreeMap<Key, Asset>, row: Row) -> Result<(), NoMemory>
    requires whole { IsTrue (entries_in_range rows.old.entries) }
    requires row { IsTrue (in_range row.asset) }
    ensures ok { OnOk result (map.from_entries {R = key_cmp} rows.new.entries ≡ with_row (map.from_entries rows.old.entries) row) }
    ensures err { OnErr result (rows.new.entries ≡ rows.old.entries) }
    ensures range { IsTrue (entries_in_range rows.new.entries) }
{
    match rows.insert(row.key, row.asset) {
        Ok(_) => Ok(()),
        Err(_) => Err(NoMemory),
    }
}

/// The same with a copy of the row.
pub(crate) fn set_row(
    alloc: Global,
    rows: &mut BTreeMap<Key, Asset>,
    row: &Row,
) -> Result<(), NoMemory>
    requires whole { IsTrue (entries_in_range rows.old.entries) }
    requires row { IsTrue (in_range row.now.asset) }
    ensures ok { OnOk result (map.from_entries {R = key_cmp} rows.new.entries ≡ map.insert (map.from_entries rows.old.entries) row.now.key row.now.asset) }
    ensures err { OnErr result (rows.new.entries ≡ rows.old.entries) }
    ensures range { IsTrue (entries_in_range rows.new.entries) }
{
    let row = row.try_clone(alloc)?;
    put_row(rows, row)
}

/// Takes the row of the key away, if it has one.
pub(crate) fn remove_row(rows: &mut BTreeMap<Key, Asset>, key: &Key)
    requires { IsTrue (entries_in_range rows.old.entries) }
    ensures value { map.from_entries {R = key_cmp} rows.new.entries ≡ map.remove (map.from_entries rows.old.entries) key.now }
    ensures range { IsTrue (entries_in_range rows.new.entries) }
{
    let _old = rows.remove(key);
}

/// A tree of the rows. Of several with one key the last counts.
pub(crate) fn tree_of(alloc: Global, rows: Vec<Row>) -> Result<BTreeMap<Key, Asset>, NoMemory>
    requires { IsTrue (rows_in_range rows.items) }
    ensures value { IfOk result (λ tree. map.from_entries {R = key_cmp} tree.entries ≡ fold with_row map.empty rows.items) }
    ensures range { IfOk result (λ tree. IsTrue (entries_in_range tree.entries)) }
{
    let mut tree = BTreeMap::new(alloc);
    for row in rows {
        put_row(&mut tree, row)?;
    }
    Ok(tree)
}
