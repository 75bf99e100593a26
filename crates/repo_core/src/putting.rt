//! The work of putting a content.
ghost use Rattle.std.specs.Prelude.{◌≡◌, ◌⊎◌, ◌<◌, ◌^◌, ◌∷◌, [], ◌&&◌, codes, true, false, IsTrue, IsSome, IfOk, IfErr, OnOk, OnErr, Some, None};
ghost use Rattle.nx_io.specs.Causes.{Rose, HasCauseWhere};
ghost use Rattle.nx_base.specs.declared.asset.Asset.{Asset};
ghost use Rattle.repo_model.specs.State.{State, row_of};
ghost use Rattle.repo_model.specs.Plain.{config_of};
ghost use Rattle.disk_model.specs.Disk.{Same};
ghost use Rattle.disk_model.specs.Moments.{During, EachImage};
ghost use Rattle.repo_core.specs.Rows.{rows_in};
ghost use Rattle.repo_core.specs.Agree.{Agrees};
ghost use Rattle.repo_core.specs.Puts.{MayGo, AreBytes, IsPlaced, Prepares, put_for, props_of};
ghost use Rattle.repo_core.specs.Stays.{BytesStay};
ghost use Rattle.repo_core.specs.Asks.{Discards, Timestamps, TouchesNew, Sets, SetsRow};
ghost use Rattle.repo_core.specs.Devices.{devices};
ghost use Rattle.repo_core.specs.Parts.{KeepsRest};
ghost use Rattle.asset_keeper.specs.Table.{changed};
ghost use Rattle.asset_keeper.specs.Told.{Tells, Lasts};
ghost use Rattle.asset_keeper.specs.Ranges.{change_in_range};
ghost use Rattle.tree_content.specs.Blobs.{bytes_at, props_at, bytes_name, props_name};
ghost use Rattle.tree_content.specs.Files.{RestOfPlace, Creates, IsCreatedIn};
ghost use Rattle.repo_core.specs.Faults.{IsDisk, IsKeeper, DeniedBy, StoppedBy, refusal_for, refusal_of_stop};
ghost use Rattle.repo_core.specs.Why.{WhyNotPut, keeps_rows};
ghost use Rattle.repo_model.specs.Timestamps.{greatest_time, next_timestamp, time_of};
ghost use Rattle.repo_core.specs.Marks.{HasMark, HasOld, HasProps};
ghost use Rattle.blob_properties.specs.Readable.{Readable};
ghost use Rattle.repo_core.specs.Answers.{is_denied, is_broke};
ghost use Rattle.repo_core.specs.Standing.{IsDurable, ImageBeforeOrAfter, IsHalfway};
ghost use Rattle.repo_core.specs.Ends.{EndsAt};
ghost use Rattle.repo_model.specs.declared.reply.Reply.TheVariants as reply;

use crate::admitting::{next_blob, row_to_replace};
use crate::denial::{Denial, disk_fault, keeper_fault};
use crate::marking::Mark;
use crate::own::Own;
use crate::staging::{NewBlob, Staged, stage_put};
use crate::stop::Stop;
use asset_keeper::Keeper;
use blob_files::create;
use disk_model::Disk;
use nx_base::{Asset, Moment, StoreName};
use repo_model::plain::{PlainConfig, time};
use repo_model::{Fault, Upload};
use soft_delete::place;
use std::alloc::Global;

/// The asset that a key has got, twice.
#[derive(Drop)]
pub(crate) struct Kept {
    pub(crate) asset: Asset,
    pub(crate) copy: Asset,
}

/// Shows the files of a new blob, and then sets its row.
fn show_new<D: Disk, T: Keeper>(
    disk: &mut D,
    table: &mut T,
    file: D::Sealed,
    new: &NewBlob,
) -> Result<(), Fault>
    requires { IsTrue (change_in_range new.now.change) }
    ensures bytes { D.told → OnOk result (D.tree disk.new (bytes_at new.now.files.place) ≡ Some (D.Writer.content file)) }
    ensures props { D.told → OnOk result (D.tree disk.new (props_at new.now.files.place) ≡ Some new.now.text.items) }
    ensures rest { D.told → RestOfPlace new.now.files.place (D.tree disk.old) (D.tree disk.new) }
    ensures created { D.told → D.tree disk.old (props_at new.now.files.place) ≡ None → IsCreatedIn new.now.files.place (D.Writer.content file) new.now.text.items (D.tree disk.old) (D.tree disk.new) }
    ensures bytes_settled { D.told → OnOk result (D.lists disk.new (D.clock disk.new) (bytes_at new.now.files.place) ≡ Some (D.Writer.content file) ∷ []) }
    ensures props_settled { D.told → OnOk result (D.lists disk.new (D.clock disk.new) (props_at new.now.files.place) ≡ Some new.now.text.items ∷ []) }
    ensures any_moment { D.told → During D.clock D.lists disk.old disk.new (Creates new.now.files.place (D.Writer.content file) new.now.text.items (D.lists disk.old (D.clock disk.old))) }
    ensures rows { Tells (T.table table.old) (T.table table.new) (λ s t. OnOk result (t ≡ changed s new.now.change)) }
    ensures table { Tells (T.table table.old) (T.table table.new) (λ s t. (t ≡ s) ⊎ (t ≡ changed s new.now.change)) }
    ensures found { T.found table.new ≡ T.found table.old }
    ensures shown { Rose (D.shown disk.old) (D.shown disk.new) }
    ensures lasting { Lasts T.lasts (T.table table.old) (T.table table.new) }
    ensures disk_cause { HasCauseWhere IsDisk (D.faults disk.old) (D.faults disk.new) result }
    ensures keeper_cause { HasCauseWhere IsKeeper (T.faults table.old) (T.faults table.new) result }
{
    if let Err(refusal) = create(disk, file, &new.files, &new.text) {
        return Err(disk_fault(refusal));
    }
    match table.apply(&new.change) {
        Ok(()) => Ok(()),
        Err(refusal) => Err(keeper_fault(refusal)),
    }
}

/// Makes everything ready by which an upload becomes the content of its key. Nothing that can be seen is changed.
fn prepare<D: Disk, T: Keeper>(
    alloc: Global,
    disk: &mut D,
    table: &mut T,
    config: &PlainConfig,
    own: &mut Own,
    upload: &Upload,
    store: &StoreName,
    moment: &Moment,
) -> Result<Staged<D::Sealed>, Denial>
    requires size { upload.now.size < 2 ^ 63 }
    ensures ready { D.told → IsSome (T.table table.new) → MayGo (config_of config.now) upload.now.key store.now
        → (s : State) → Agrees (config_of config.now) (D.tree disk.old) (rows_in (T.table table.old)) own.old s
        → Prepares D.Writer.content (config_of config.now) (D.tree disk.old) s store.now upload.now moment.entry.now own.old own.new result }
    ensures range { IfOk result (λ staged. IsTrue (change_in_range staged.new.change)) }
    ensures copy { IfOk result (λ staged. staged.new.copy ≡ staged.new.asset) }
    ensures store { IfOk result (λ staged. staged.new.asset.blob.store ≡ store.now) }
    ensures placed { IfOk result (λ staged. IsPlaced staged.new) }
    ensures sets { IfOk result (λ staged. Sets upload.now.key staged.new.change) }
    ensures old { D.told → IfOk result (λ staged. HasOld (D.tree disk.old) staged.mark) }
    ensures says { IfOk result (λ staged. Readable staged.new.text.items (props_of upload.now staged.new.asset.blob.timestamp)) }
    ensures free { D.told → IfOk result (λ staged. D.tree disk.old (props_name staged.new.asset.blob) ≡ None) }
    ensures rows { Tells (T.table table.old) (T.table table.new) (λ s t. t ≡ s) }
    ensures changes { T.changes table.new ≡ T.changes table.old }
    ensures lasting { Lasts T.lasts (T.table table.old) (T.table table.new) }
    ensures clean { OnErr result (own.new ≡ own.old) }
    ensures keeps { OnOk result ((own.new ≡ own.old) ⊎ Discards upload.now.key moment.entry.now own.old own.new) }
    ensures timestamp { IfOk result (λ staged. staged.new.asset.blob.timestamp ≡ next_timestamp own.old.last moment.entry.now.now) }
    ensures tree { D.told → Same (D.tree disk.old) (D.tree disk.new) }
    ensures any_moment { D.told → During D.clock D.lists disk.old disk.new (Same (D.lists disk.old (D.clock disk.old))) }
    ensures shown { D.shown disk.new ≡ D.shown disk.old }
    ensures disk_cause { HasCauseWhere (DeniedBy IsDisk) (D.faults disk.old) (D.faults disk.new) result }
    ensures keeper_cause { HasCauseWhere (DeniedBy IsKeeper) (T.faults table.old) (T.faults table.new) result }
    ensures why { IfErr result (λ why. WhyNotPut (config_of config.now) own.old.last upload.now.key moment.entry.now (T.found table.new) (D.last_look disk.new) (refusal_for why)) }
    ensures opens { OnOk result (((keeps_rows (config_of config.now) upload.now.key && T.found table.new) ≡ false) × (own.old.last < greatest_time)) }
{
    let old = match row_to_replace(table, config, &upload.key) {
        Ok(old) => old,
        Err(why) => return Err(why),
    };
    let blob = match next_blob(alloc, store, own.last, moment) {
        Ok(blob) => blob,
        Err(why) => return Err(why),
    };
    let at = time(moment.now);
    stage_put(alloc, disk, own, upload, old.as_ref(), &blob, at)
}

/// Gives the mark up that a put made ready and doesn't show, if there is one. Nothing that can be seen is changed.
fn give_up_mark<D: Disk>(disk: &mut D, mark: Option<Mark<D::Sealed>>)
    ensures tree { D.told → Same (D.tree disk.old) (D.tree disk.new) }
    ensures any_moment { D.told → During D.clock D.lists disk.old disk.new (Same (D.lists disk.old (D.clock disk.old))) }
    ensures cause { D.faults disk.new ≡ D.faults disk.old }
    ensures shown { D.shown disk.new ≡ D.shown disk.old }
    ensures look { D.last_look disk.new ≡ D.last_look disk.old }
{
    match mark {
        None => {}
        Some(mark) => {
            let Mark { file, files: _ } = mark;
            disk.discard(file);
        }
    }
}

/// A sealed file becomes the content of a key: its blob is made, its row set, and the blob that the key had marked.
pub(crate) fn put_content<D: Disk, T: Keeper>(
    alloc: Global,
    disk: &mut D,
    table: &mut T,
    config: &PlainConfig,
    own: &mut Own,
    file: D::Sealed,
    upload: &Upload,
    store: &StoreName,
    moment: &Moment,
) -> Result<Kept, Stop>
    requires size { upload.now.size < 2 ^ 63 }
    // What it comes to is what the step says.
    ensures ends { D.told → IsSome (T.table table.new) → MayGo (config_of config.now) upload.now.key store.now → AreBytes upload.now (D.Writer.content file)
        → (s : State) → Agrees (config_of config.now) (D.tree disk.old) (rows_in (T.table table.old)) own.old s
        → EndsAt (config_of config.now) s store.now (put_for upload.now moment.entry.now) (λ kept. reply.Stored kept.asset) (Agrees (config_of config.now) (D.tree disk.new) (rows_in (T.table table.new)) own.new) result }
    // At every moment each image has the contents before or after.
    ensures crash { D.told → IsSome (T.table table.new) → MayGo (config_of config.now) upload.now.key store.now → AreBytes upload.now (D.Writer.content file)
        → (s : State) → Agrees (config_of config.now) (D.tree disk.old) (rows_in (T.table table.old)) own.old s → IsDurable D.tree D.clock D.lists disk.old
        → During D.clock D.lists disk.old disk.new (EachImage (ImageBeforeOrAfter (config_of config.now) s store.now (put_for upload.now moment.entry.now))) }
    // Stopped halfway, it leaves the tree and the rows as before or after.
    ensures halfway { D.told → IsSome (T.table table.new) → MayGo (config_of config.now) upload.now.key store.now → AreBytes upload.now (D.Writer.content file)
        → (s : State) → Agrees (config_of config.now) (D.tree disk.old) (rows_in (T.table table.old)) own.old s
        → is_broke result ≡ true → IsHalfway (config_of config.now) s store.now (put_for upload.now moment.entry.now) (D.tree disk.new) (rows_in (T.table table.new)) }
    ensures durable { D.told → is_broke result ≡ false → IsDurable D.tree D.clock D.lists disk.old → IsDurable D.tree D.clock D.lists disk.new }
    // The new blob's properties say what was put, and those of the blob that the key had, when and why it was replaced.
    ensures says { D.told → IfOk result (λ kept. HasProps (D.tree disk.new) kept.asset.blob (props_of upload.now kept.asset.blob.timestamp)) }
    ensures marked { D.told → IsSome (T.table table.new) → MayGo (config_of config.now) upload.now.key store.now → AreBytes upload.now (D.Writer.content file)
        → (s : State) (old : Asset) → Agrees (config_of config.now) (D.tree disk.old) (rows_in (T.table table.old)) own.old s → row_of s upload.now.key ≡ Some old
        → OnOk result (HasMark (D.tree disk.old) (D.tree disk.new) old.blob (codes "Replaced") (time_of moment.entry.now.now)) }
    // Other names keep their files, and the table changes by the key's row alone.
    ensures rest { D.told → IsSome (T.table table.new) → MayGo (config_of config.now) upload.now.key store.now
        → (s : State) → Agrees (config_of config.now) (D.tree disk.old) (rows_in (T.table table.old)) own.old s
        → KeepsRest (devices D.Disk T.Keeper) (TouchesNew store.now upload.now.key moment.entry.now s) disk.old disk.new }
    ensures table { Tells (T.table table.old) (T.table table.new) (λ s t. (t ≡ s) ⊎ SetsRow upload.now.key s t) }
    // A denial leaves the files, the rows and what the core keeps.
    ensures clean_files { D.told → is_denied result ≡ true → Same (D.tree disk.old) (D.tree disk.new) }
    ensures clean_moments { D.told → is_denied result ≡ true → During D.clock D.lists disk.old disk.new (Same (D.lists disk.old (D.clock disk.old))) }
    ensures clean_own { is_denied result ≡ true → own.new ≡ own.old }
    ensures keeps { is_denied result ≡ false → Timestamps upload.now.key moment.entry.now own.old own.new }
    ensures clean_rows { Tells (T.table table.old) (T.table table.new) (λ s t. is_denied result ≡ true → t ≡ s) }
    // It is stopped halfway only behind the first visible step, or by it, and denied only before.
    ensures shown { is_broke result ≡ true → Rose (D.shown disk.old) (D.shown disk.new) }
    ensures unshown { is_denied result ≡ true → (D.shown disk.new ≡ D.shown disk.old) × (T.changes table.new ≡ T.changes table.old) }
    ensures lasting { Lasts T.lasts (T.table table.old) (T.table table.new) }
    ensures copy { IfOk result (λ kept. kept.copy ≡ kept.asset) }
    ensures store { IfOk result (λ kept. kept.asset.blob.store ≡ store.now) }
    // The bytes are those of the file, and no other blob loses its content.
    ensures made { D.told → IfOk result (λ kept. D.tree disk.new (bytes_name kept.asset.blob) ≡ Some (D.Writer.content file)) }
    ensures stays { D.told → BytesStay (D.tree disk.old) (D.tree disk.new) }
    ensures why { IfErr result (λ e. WhyNotPut (config_of config.now) own.old.last upload.now.key moment.entry.now (T.found table.new) (D.last_look disk.new) (refusal_of_stop e)) }
    ensures disk_cause { HasCauseWhere (StoppedBy IsDisk) (D.faults disk.old) (D.faults disk.new) result }
    ensures keeper_cause { HasCauseWhere (StoppedBy IsKeeper) (T.faults table.old) (T.faults table.new) result }
{
    let Staged { new, mark } = match prepare(
        alloc, disk, table, config, own, upload, store, moment,
    ) {
        Ok(staged) => staged,
        Err(why) => {
            disk.discard(file);
            return Err(Stop::Denied(why));
        }
    };
    own.last = new.asset.blob.timestamp;
    if let Err(fault) = show_new(disk, table, file, &new) {
        give_up_mark(disk, mark);
        return Err(Stop::Broke(fault));
    }
    let kept = Kept {
        asset: new.asset,
        copy: new.copy,
    };
    let Some(mark) = mark else {
        return Ok(kept);
    };
    let Mark { file, files } = mark;
    match place(disk, file, &files) {
        Ok(()) => Ok(kept),
        Err(refusal) => Err(Stop::Broke(disk_fault(refusal))),
    }
}
