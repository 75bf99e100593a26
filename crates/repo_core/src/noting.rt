ghost use Rattle.std.specs.Prelude.{◌≡◌, ◌⊎◌, ◌<◌, ◌^◌, Some, IsTrue, IfOk, IfErr, IfSome, OnOk, OnErr};
ghost use Rattle.nx_io.specs.Causes.{Rose, HasCauseWhere};
ghost use Rattle.nx_base.specs.Given.{given};
ghost use Rattle.asset_keeper.specs.Table.{changed};
ghost use Rattle.asset_keeper.specs.Told.{Tells, Lasts};
ghost use Rattle.asset_keeper.specs.Ranges.{in_range, change_in_range};
ghost use Rattle.asset_keeper.specs.declared.change.Change.TheVariants as change;
ghost use Rattle.repo_model.specs.Serving.{downloaded};
ghost use Rattle.repo_core.specs.Faults.{IsDisk, IsKeeper};
ghost use Rattle.repo_core.specs.Looking.{IsNoteOf};

use crate::denial::keeper_fault;
use asset_keeper::{Change, Keeper};
use nx_base::{Asset, BlobRef, Key, NoMemory, Row};
use repo_model::Fault;
use std::alloc::Global;

/// A download that is about to be noted: the row's new asset with a copy, a copy of its blob, and the change that notes it, unless
/// the row stays as it is.
#[derive(Drop)]
pub(crate) struct Note {
    pub(crate) asset: Asset,
    pub(crate) copy: Asset,
    pub(crate) blob: BlobRef,
    pub(crate) change: Option<Change>,
}

/// The change by which the key gets that asset.
fn change_to(alloc: Global, key: &Key, asset: &Asset) -> Result<Change, NoMemory>
    ensures { IfOk result (λ made. made ≡ change.Set (record { key = key.now; asset = asset.now })) }
{
    let key = key.try_clone(alloc)?;
    let asset = asset.try_clone(alloc)?;
    Ok(Change::Set(Row { key, asset }))
}

/// Makes ready what notes a download at that time.
pub(crate) fn note_download(
    alloc: Global,
    key: &Key,
    asset: Asset,
    at: u64,
) -> Result<Note, NoMemory>
    ensures { IfOk result (IsNoteOf key.now asset at) }
{
    let last = asset.downloaded.unwrap_or(0).max(at);
    let is_noted = match asset.downloaded {
        Some(before) => before == last,
        None => false,
    };
    let mut seen = asset;
    seen.downloaded = Some(last);
    let copy = seen.try_clone(alloc)?;
    let blob = seen.blob.try_clone(alloc)?;
    let change = if is_noted {
        None
    } else {
        Some(change_to(alloc, key, &seen)?)
    };
    Ok(Note {
        asset: seen,
        copy,
        blob,
        change,
    })
}

/// Makes the change, if there is one.
pub(crate) fn save<T: Keeper>(table: &mut T, change: &Option<Change>) -> Result<(), Fault>
    requires { IfSome change.now (λ c. IsTrue (change_in_range c)) }
    ensures rows { Tells (T.table table.old) (T.table table.new) (λ s t. OnOk result (t ≡ given change.now s (changed s))) }
    ensures table { Tells (T.table table.old) (T.table table.new) (λ s t. (t ≡ s) ⊎ (t ≡ given change.now s (changed s))) }
    ensures found { T.found table.new ≡ T.found table.old }
    ensures changed { OnErr result (Rose (T.changes table.old) (T.changes table.new)) }
    ensures lasting { Lasts T.lasts (T.table table.old) (T.table table.new) }
    ensures cause { HasCauseWhere IsKeeper (T.faults table.old) (T.faults table.new) result }
    ensures keeper_alone { IfErr result (λ why. ¬ IsDisk why) }
{
    let Some(change) = change else {
        return Ok(());
    };
    match table.apply(change) {
        Ok(()) => Ok(()),
        Err(refusal) => Err(keeper_fault(refusal)),
    }
}
