ghost use Rattle.std.specs.Prelude.{◌≡◌, ◌⊎◌, ◌<◌, ◌^◌, ◌∷◌, [], true, false, codes, IfOk, IfErr, OnOk, OnErr, IsErrOf, IsSome, IsTrue, Some, ℕ, Option, None};
ghost use Rattle.nx_io.specs.Causes.{Rose, HasCauseWhere};
ghost use Rattle.disk_model.specs.Disk.{Same, Rest};
ghost use Rattle.disk_model.specs.Moments.{During, MayPut, EachImage};
ghost use Rattle.asset_keeper.specs.Table.{changed};
ghost use Rattle.asset_keeper.specs.Ranges.{change_in_range};
ghost use Rattle.asset_keeper.specs.declared.change.Change.TheVariants as change;
ghost use Rattle.tree_content.specs.Blobs.{props_at};
ghost use Rattle.repo_model.specs.Deleting.{discarded};
ghost use Rattle.repo_core.specs.Marks.{IsMarkOf, HasMark, NotStaged};
ghost use Rattle.asset_keeper.specs.Told.{Tells, Lasts};
ghost use Rattle.nx_base.specs.declared.asset.Asset.{Asset};
ghost use Rattle.nx_base.specs.declared.moment.Moment.{Moment};
ghost use Rattle.repo_model.specs.State.{State, row_of};
ghost use Rattle.repo_model.specs.Timestamps.{time_of};
ghost use Rattle.repo_model.specs.Plain.{config_of};
ghost use Rattle.repo_model.specs.declared.call.Call.TheVariants as call;
ghost use Rattle.repo_model.specs.declared.reply.Reply.TheVariants as reply;
ghost use Rattle.repo_core.specs.declared.denial.Denial.TheVariants as denial;
ghost use Rattle.repo_core.specs.declared.stop.Stop.TheVariants as stop;
ghost use Rattle.repo_core.specs.Rows.{rows_in};
ghost use Rattle.repo_core.specs.Agree.{Agrees};
ghost use Rattle.repo_core.specs.Faults.{IsDisk, IsKeeper, DeniedBy, StoppedBy, refusal_for, refusal_of_stop};
ghost use Rattle.repo_core.specs.Answers.{is_denied, is_broke};
ghost use Rattle.repo_core.specs.Standing.{IsDurable, ImageBeforeOrAfter, IsHalfway};
ghost use Rattle.repo_core.specs.Ends.{MayDelete, Ends};
ghost use Rattle.repo_core.specs.Stays.{BytesStay};
ghost use Rattle.repo_core.specs.Asks.{Discards, TouchesRow, RemovesRow};
ghost use Rattle.repo_core.specs.Devices.{devices};
ghost use Rattle.repo_core.specs.Parts.{KeepsRest};
ghost use Rattle.repo_core.specs.Why.{WhyNotDeleted, may_delete};

use crate::denial::{Denial, disk_fault, keeper_fault};
use crate::marking::{Mark, stage_mark};
use crate::own::Own;
use crate::rules::bars_delete;
use crate::stop::Stop;
use asset_keeper::{Change, Keeper};
use disk_model::Disk;
use nx_base::{Asset, Key, Policy};
use repo_model::Fault;
use repo_model::plain::{PlainConfig, find_repo, time};
use soft_delete::place;
use std::alloc::Global;

/// The reason of a deletion that a client asked for, as Sonatype Nexus writes it.
const REASON: &str = "Deleted by request";

/// The row that a deletion takes.
fn row_to_delete<T: Keeper>(
    table: &mut T,
    config: &PlainConfig,
    key: &Key,
    now: u64,
) -> Result<Asset, Denial>
    ensures same { Tells (T.table table.old) (T.table table.new) (λ s t. t ≡ s) }
    ensures changes { T.changes table.new ≡ T.changes table.old }
    ensures lasting { Lasts T.lasts (T.table table.old) (T.table table.new) }
    ensures cause { HasCauseWhere (DeniedBy IsKeeper) (T.faults table.old) (T.faults table.new) result }
    ensures keeper_alone { IfErr result (λ why. ¬ DeniedBy IsDisk why) }
    ensures why { IfErr result (λ why. WhyNotDeleted (config_of config.now) key.now (T.found table.new) (refusal_for why)) }
    ensures opens { OnOk result ((may_delete (config_of config.now) key.now ≡ true) × (T.found table.new ≡ true)) }
    ensures undamaged { (size : ℕ) (found : Option ℕ) → IsErrOf result (denial.Damaged size found) → ⊥ }
    ensures row { IsSome (T.table table.new) → (s : State) → s.broken ≡ None → rows_in (T.table table.old) ≡ s.rows → MayDelete (config_of config.now) s key.now now result }
{
    let Some(repo) = find_repo(&config.repos, &key.repo) else {
        return Err(Denial::UnknownRepo);
    };
    if bars_delete(repo) {
        return Err(Denial::WriteDenied {
            policy: Policy::ReadOnly,
        });
    }
    match table.get(key) {
        Ok(Some(asset)) => Ok(asset),
        Ok(None) => Err(Denial::NotFound),
        Err(refusal) => Err(Denial::Failed(keeper_fault(refusal))),
    }
}

/// A deletion that stands ready: the mark of the blob, and the change that takes the row away.
struct Staged<S> {
    mark: Mark<S>,
    change: Change,
}

/// Makes everything ready by which the row of a key goes, and puts its blob into the trash. Nothing that can be seen is changed.
fn stage<D: Disk>(
    alloc: Global,
    disk: &mut D,
    own: &mut Own,
    key: &Key,
    asset: &Asset,
    at: u64,
) -> Result<Staged<D::Sealed>, Denial>
    requires time { at < 2 ^ 48 }
    ensures mark { D.told → IfOk result (λ staged. IsMarkOf D.Writer.content (D.tree disk.old) asset.now.blob (codes "Deleted by request") at staged.mark) }
    ensures change { IfOk result (λ staged. staged.change ≡ change.Remove key.now) }
    ensures trash { OnOk result (own.new ≡ record own.old { trash = discarded own.old.trash key.now asset.now at }) }
    ensures tree { D.told → Same (D.tree disk.old) (D.tree disk.new) }
    ensures any_moment { D.told → During D.clock D.lists disk.old disk.new (Same (D.lists disk.old (D.clock disk.old))) }
    ensures shown { D.shown disk.new ≡ D.shown disk.old }
    ensures denied { IfErr result (NotStaged D.told (D.tree disk.old) asset.now) }
    ensures clean { OnErr result (own.new ≡ own.old) }
    ensures cause { HasCauseWhere (DeniedBy IsDisk) (D.faults disk.old) (D.faults disk.new) result }
{
    let Ok(of_key) = key.try_clone(alloc) else {
        return Err(Denial::Failed(Fault::Memory));
    };
    let mark = match stage_mark(alloc, disk, &asset.blob, REASON, at) {
        Ok(Some(mark)) => mark,
        Ok(None) => {
            return Err(Denial::Damaged {
                size: asset.size,
                found: None,
            });
        }
        Err(refusal) => return Err(Denial::Failed(disk_fault(refusal))),
    };
    if own.discard(alloc, &asset.blob, key, at).is_err() {
        let Mark { file, files: _ } = mark;
        disk.discard(file);
        return Err(Denial::Failed(Fault::Memory));
    }
    Ok(Staged {
        mark,
        change: Change::Remove(of_key),
    })
}

/// Shows the mark, and then takes the row away.
fn show<D: Disk, T: Keeper>(
    disk: &mut D,
    table: &mut T,
    mark: Mark<D::Sealed>,
    change: &Change,
) -> Result<(), Fault>
    requires { IsTrue (change_in_range change.now) }
    ensures named { D.told → OnOk result (D.tree disk.new (props_at mark.files.place) ≡ Some (D.Writer.content mark.file)) }
    ensures refused { D.told → OnErr result ((D.tree disk.new (props_at mark.files.place) ≡ D.tree disk.old (props_at mark.files.place)) ⊎ (D.tree disk.new (props_at mark.files.place) ≡ Some (D.Writer.content mark.file))) }
    ensures rest { D.told → Rest (props_at mark.files.place) (D.tree disk.old) (D.tree disk.new) }
    ensures settled { D.told → OnOk result (D.lists disk.new (D.clock disk.new) (props_at mark.files.place) ≡ Some (D.Writer.content mark.file) ∷ []) }
    ensures any_moment { D.told → During D.clock D.lists disk.old disk.new (MayPut (props_at mark.files.place) (Some (D.Writer.content mark.file)) (D.lists disk.old (D.clock disk.old))) }
    ensures rows { Tells (T.table table.old) (T.table table.new) (λ s t. OnOk result (t ≡ changed s change.now)) }
    ensures table { Tells (T.table table.old) (T.table table.new) (λ s t. (t ≡ s) ⊎ (t ≡ changed s change.now)) }
    ensures found { T.found table.new ≡ T.found table.old }
    ensures shown { Rose (D.shown disk.old) (D.shown disk.new) }
    ensures lasting { Lasts T.lasts (T.table table.old) (T.table table.new) }
    ensures disk_cause { HasCauseWhere IsDisk (D.faults disk.old) (D.faults disk.new) result }
    ensures keeper_cause { HasCauseWhere IsKeeper (T.faults table.old) (T.faults table.new) result }
{
    let Mark { file, files } = mark;
    if let Err(refusal) = place(disk, file, &files) {
        return Err(disk_fault(refusal));
    }
    match table.apply(change) {
        Ok(()) => Ok(()),
        Err(refusal) => Err(keeper_fault(refusal)),
    }
}

/// The row of a key goes, and its blob is marked.
pub(crate) fn give_up_row<D: Disk, T: Keeper>(
    alloc: Global,
    disk: &mut D,
    table: &mut T,
    config: &PlainConfig,
    own: &mut Own,
    key: &Key,
    now: u64,
) -> Result<(), Stop>
    // What it comes to is what the step says.
    ensures ends { D.told → IsSome (T.table table.new) → (s : State) → Agrees (config_of config.now) (D.tree disk.old) (rows_in (T.table table.old)) own.old s
        → Ends (config_of config.now) s (call.Delete key.now now) (λ _. reply.Gone) (Agrees (config_of config.now) (D.tree disk.new) (rows_in (T.table table.new)) own.new) result }
    // At every moment each image has the contents before or after.
    ensures crash { D.told → IsSome (T.table table.new) → (s : State) → Agrees (config_of config.now) (D.tree disk.old) (rows_in (T.table table.old)) own.old s
        → IsDurable D.tree D.clock D.lists disk.old
        → During D.clock D.lists disk.old disk.new (EachImage (ImageBeforeOrAfter (config_of config.now) s [] (call.Delete key.now now))) }
    // Stopped halfway, it leaves the tree and the rows as before or after.
    ensures halfway { D.told → IsSome (T.table table.new) → (s : State) → Agrees (config_of config.now) (D.tree disk.old) (rows_in (T.table table.old)) own.old s
        → is_broke result ≡ true → IsHalfway (config_of config.now) s [] (call.Delete key.now now) (D.tree disk.new) (rows_in (T.table table.new)) }
    ensures durable { D.told → is_broke result ≡ false → IsDurable D.tree D.clock D.lists disk.old → IsDurable D.tree D.clock D.lists disk.new }
    // The blob's properties say when and why it was deleted, and else what they said.
    ensures marked { D.told → IsSome (T.table table.new) → (s : State) (asset : Asset) → Agrees (config_of config.now) (D.tree disk.old) (rows_in (T.table table.old)) own.old s → row_of s key.now ≡ Some asset
        → OnOk result (HasMark (D.tree disk.old) (D.tree disk.new) asset.blob (codes "Deleted by request") (time_of now)) }
    // Other names keep their files, and the table changes by the key's row alone.
    ensures rest { D.told → IsSome (T.table table.new) → (s : State) → Agrees (config_of config.now) (D.tree disk.old) (rows_in (T.table table.old)) own.old s
        → KeepsRest (devices D.Disk T.Keeper) (TouchesRow key.now s) disk.old disk.new }
    ensures table { Tells (T.table table.old) (T.table table.new) (λ s t. (t ≡ s) ⊎ RemovesRow key.now s t) }
    // No blob loses its content.
    ensures stays { D.told → BytesStay (D.tree disk.old) (D.tree disk.new) }
    // A denial leaves the files, the rows and what the core keeps.
    ensures clean_files { D.told → is_denied result ≡ true → Same (D.tree disk.old) (D.tree disk.new) }
    ensures clean_moments { D.told → is_denied result ≡ true → During D.clock D.lists disk.old disk.new (Same (D.lists disk.old (D.clock disk.old))) }
    ensures clean_own { is_denied result ≡ true → own.new ≡ own.old }
    ensures keeps { (moment : Moment) → moment.now ≡ now → is_denied result ≡ false → Discards key.now moment own.old own.new }
    ensures clean_rows { Tells (T.table table.old) (T.table table.new) (λ s t. is_denied result ≡ true → t ≡ s) }
    // It is stopped halfway only behind the first visible step, or by it, and denied only before.
    ensures shown { is_broke result ≡ true → Rose (D.shown disk.old) (D.shown disk.new) }
    ensures unshown { is_denied result ≡ true → (D.shown disk.new ≡ D.shown disk.old) × (T.changes table.new ≡ T.changes table.old) }
    ensures lasting { Lasts T.lasts (T.table table.old) (T.table table.new) }
    ensures why { IfErr result (λ e. WhyNotDeleted (config_of config.now) key.now (T.found table.new) (refusal_of_stop e)) }
    // Damage is never told of files that agree.
    ensures whole { D.told → IsSome (T.table table.new) → (s : State) → Agrees (config_of config.now) (D.tree disk.old) (rows_in (T.table table.old)) own.old s
        → (size : ℕ) (found : Option ℕ) → IsErrOf result (stop.Denied (denial.Damaged size found)) → ⊥ }
    ensures disk_cause { HasCauseWhere (StoppedBy IsDisk) (D.faults disk.old) (D.faults disk.new) result }
    ensures keeper_cause { HasCauseWhere (StoppedBy IsKeeper) (T.faults table.old) (T.faults table.new) result }
{
    let asset = match row_to_delete(table, config, key, now) {
        Ok(asset) => asset,
        Err(why) => return Err(Stop::Denied(why)),
    };
    let Staged { mark, change } = match stage(alloc, disk, own, key, &asset, time(now)) {
        Ok(staged) => staged,
        Err(why) => return Err(Stop::Denied(why)),
    };
    match show(disk, table, mark, &change) {
        Ok(()) => Ok(()),
        Err(fault) => Err(Stop::Broke(fault)),
    }
}
