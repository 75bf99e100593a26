ghost use Rattle.std.specs.Prelude.{◌≡◌, ◌<◌, ◌^◌, ℕ, List, slice_index, IfOk, IfErr, OnOk, OnErr, IsSome, IsTrue, Err, None};
ghost use Rattle.std.specs.Option.{option_copied};
ghost use Rattle.nx_io.specs.Causes.{HasCauseWhere};
ghost use Rattle.disk_model.specs.Disk.{Same, IsFault};
ghost use Rattle.disk_model.specs.Moments.{During};
ghost use Rattle.blob_paths.specs.Places.{place_of};
ghost use Rattle.asset_keeper.specs.Ranges.{change_in_range};
ghost use Rattle.tree_content.specs.Blobs.{IsRef, props_name};
ghost use Rattle.repo_core.specs.Faults.{IsDisk, DeniedBy};
ghost use Rattle.blob_properties.specs.Readable.{Readable};
ghost use Rattle.repo_core.specs.Puts.{IsNewBlob, StagesOld, NotPut, with_old, props_of};
ghost use Rattle.repo_core.specs.Asks.{Sets};
ghost use Rattle.repo_core.specs.declared.denial.Denial.TheVariants as denial;

use crate::content::{new_asset, new_text};
use crate::denial::{Denial, disk_fault};
use crate::marking::{Mark, stage_mark};
use crate::own::Own;
use asset_keeper::Change;
use blob_paths::{BlobFiles, Layout};
use disk_model::{Disk, DiskErr};
use nx_base::{Asset, BlobRef, Key, NoMemory, Row};
use repo_model::{Fault, Upload};
use std::alloc::Global;

/// The reason of a deletion by which another content came in place.
const REASON: &str = "Replaced";

/// A new blob that stands ready but for its bytes: the names of its files, the text of its properties, its asset, and the change
/// that sets its row.
#[derive(Drop)]
pub(crate) struct NewBlob {
    pub(crate) files: BlobFiles,
    pub(crate) text: Vec<u8>,
    pub(crate) asset: Asset,
    /// The same again, for the journal.
    pub(crate) copy: Asset,
    pub(crate) change: Change,
}

/// Does nothing: bytes are below 256.
fn see_bytes(bytes: &[u8])
    ensures { (at : ℕ) → slice_index bytes.now at < 256 }
{
    let _first = bytes.first();
}

/// Does nothing: a blob's store and id are such.
fn see_ref(blob: &BlobRef)
    ensures { IsRef blob.now }
{
    let _store = blob.store.as_bytes();
    see_bytes(blob.id.as_bytes());
}

/// A new blob of an upload.
pub(crate) fn new_blob(alloc: Global, upload: &Upload, blob: &BlobRef) -> Result<NewBlob, NoMemory>
    requires size { upload.now.size < 2 ^ 63 }
    requires timestamp { blob.now.timestamp < 2 ^ 48 }
    ensures made { IfOk result (IsNewBlob upload.now blob.now) }
    ensures range { IfOk result (λ new. IsTrue (change_in_range new.change)) }
    ensures copy { IfOk result (λ new. new.copy ≡ new.asset) }
{
    see_ref(blob);
    let files = BlobFiles::of(alloc, blob, Layout::Volume)?;
    let text = new_text(alloc, upload, blob.timestamp)?;
    let asset = new_asset(alloc, upload, blob)?;
    let copy = asset.try_clone(alloc)?;
    let row = Row {
        key: upload.key.try_clone(alloc)?,
        asset: asset.try_clone(alloc)?,
    };
    Ok(NewBlob {
        files,
        text,
        asset,
        copy,
        change: Change::Set(row),
    })
}

/// Whether no properties file has the name of the new blob's: else its id is taken.
pub(crate) fn see_free<D: Disk>(
    disk: &mut D,
    blob: &BlobRef,
    files: &BlobFiles,
) -> Result<(), Denial>
    requires place { files.now.place ≡ place_of blob.now }
    ensures free { D.told → OnOk result (D.tree disk.old (props_name blob.now) ≡ None) }
    ensures denied { IfErr result (NotPut D.told (D.tree disk.old) blob.now) }
    ensures taken { (id : List ℕ) → result ≡ Err (denial.IdTaken id) → IsSome (D.last_look disk.new) }
    ensures tree { D.told → D.tree disk.new ≡ D.tree disk.old }
    ensures any_moment { D.told → During D.clock D.lists disk.old disk.new (Same (D.lists disk.old (D.clock disk.old))) }
    ensures shown { D.shown disk.new ≡ D.shown disk.old }
    ensures cause { HasCauseWhere (DeniedBy IsDisk) (D.faults disk.old) (D.faults disk.new) result }
{
    match disk.read_small(files.properties()) {
        Ok(None) => Ok(()),
        Ok(Some(_)) => Err(Denial::IdTaken { id: blob.id }),
        Err(refusal) => Err(Denial::Failed(disk_fault(refusal))),
    }
}

/// Makes the mark of the blob ready that the key had, if it had one.
pub(crate) fn stage_old<D: Disk>(
    alloc: Global,
    disk: &mut D,
    old: Option<&Asset>,
    at: u64,
) -> Result<Option<Mark<D::Sealed>>, DiskErr>
    requires time { at < 2 ^ 48 }
    ensures stages { D.told → IfOk result (StagesOld D.Writer.content (D.tree disk.old) at (option_copied old.entry)) }
    ensures tree { D.told → Same (D.tree disk.old) (D.tree disk.new) }
    ensures any_moment { D.told → During D.clock D.lists disk.old disk.new (Same (D.lists disk.old (D.clock disk.old))) }
    ensures shown { D.shown disk.new ≡ D.shown disk.old }
    ensures cause { HasCauseWhere IsFault (D.faults disk.old) (D.faults disk.new) result }
{
    match old {
        None => Ok(None),
        Some(old) => stage_mark(alloc, disk, &old.blob, REASON, at),
    }
}

/// A content that stands ready to become that of its key, and the mark of the blob that the key had.
pub(crate) struct Staged<S> {
    pub(crate) new: NewBlob,
    pub(crate) mark: Option<Mark<S>>,
}

/// Puts the blob into the trash whose mark is staged.
fn trash_old<D: Disk>(
    alloc: Global,
    disk: &mut D,
    own: &mut Own,
    old: Option<&Asset>,
    key: &Key,
    at: u64,
    mark: Option<Mark<D::Sealed>>,
) -> Result<Option<Mark<D::Sealed>>, NoMemory>
    ensures mark { IfOk result (λ kept. kept ≡ mark) }
    ensures trash { OnOk result (own.new ≡ with_old own.old key.now at (option_copied old.entry) mark) }
    ensures clean { OnErr result (own.new ≡ own.old) }
    ensures tree { D.told → Same (D.tree disk.old) (D.tree disk.new) }
    ensures any_moment { D.told → During D.clock D.lists disk.old disk.new (Same (D.lists disk.old (D.clock disk.old))) }
    ensures shown { D.shown disk.new ≡ D.shown disk.old }
    ensures cause { D.faults disk.new ≡ D.faults disk.old }
{
    let Some(mark) = mark else {
        return Ok(None);
    };
    let Some(old) = old else {
        return Ok(Some(mark));
    };
    if own.discard(alloc, &old.blob, key, at).is_err() {
        let Mark { file, files: _ } = mark;
        disk.discard(file);
        return Err(NoMemory);
    }
    Ok(Some(mark))
}

/// Makes everything ready by which an upload becomes the content of its key as that blob, but for the file of its bytes, and puts the
/// blob that the key had into the trash. Nothing that can be seen is changed.
pub(crate) fn stage_put<D: Disk>(
    alloc: Global,
    disk: &mut D,
    own: &mut Own,
    upload: &Upload,
    old: Option<&Asset>,
    blob: &BlobRef,
    at: u64,
) -> Result<Staged<D::Sealed>, Denial>
    requires size { upload.now.size < 2 ^ 63 }
    requires timestamp { blob.now.timestamp < 2 ^ 48 }
    requires time { at < 2 ^ 48 }
    ensures named { IsRef blob.now }
    ensures new { IfOk result (λ staged. IsNewBlob upload.now blob.now staged.new) }
    ensures sets { IfOk result (λ staged. Sets upload.now.key staged.new.change) }
    ensures says { IfOk result (λ staged. Readable staged.new.text.items (props_of upload.now staged.new.asset.blob.timestamp)) }
    ensures range { IfOk result (λ staged. IsTrue (change_in_range staged.new.change)) }
    ensures copy { IfOk result (λ staged. staged.new.copy ≡ staged.new.asset) }
    ensures free { D.told → OnOk result (D.tree disk.old (props_name blob.now) ≡ None) }
    ensures mark { D.told → IfOk result (λ staged. StagesOld D.Writer.content (D.tree disk.old) at (option_copied old.entry) staged.mark) }
    ensures trash { IfOk result (λ staged. own.new ≡ with_old own.old upload.now.key at (option_copied old.entry) staged.mark) }
    ensures denied { IfErr result (NotPut D.told (D.tree disk.old) blob.now) }
    ensures clean { OnErr result (own.new ≡ own.old) }
    ensures tree { D.told → Same (D.tree disk.old) (D.tree disk.new) }
    ensures any_moment { D.told → During D.clock D.lists disk.old disk.new (Same (D.lists disk.old (D.clock disk.old))) }
    ensures shown { D.shown disk.new ≡ D.shown disk.old }
    ensures cause { HasCauseWhere (DeniedBy IsDisk) (D.faults disk.old) (D.faults disk.new) result }
    ensures taken { (id : List ℕ) → result ≡ Err (denial.IdTaken id) → IsSome (D.last_look disk.new) }
{
    see_ref(blob);
    let Ok(new) = new_blob(alloc, upload, blob) else {
        return Err(Denial::Failed(Fault::Memory));
    };
    if let Err(why) = see_free(disk, blob, &new.files) {
        return Err(why);
    }
    let mark = match stage_old(alloc, disk, old, at) {
        Ok(mark) => mark,
        Err(refusal) => return Err(Denial::Failed(disk_fault(refusal))),
    };
    match trash_old(alloc, disk, own, old, &upload.key, at, mark) {
        Ok(mark) => Ok(Staged { new, mark }),
        Err(_) => Err(Denial::Failed(Fault::Memory)),
    }
}
