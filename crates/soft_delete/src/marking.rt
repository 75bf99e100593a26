ghost use Rattle.std.specs.Prelude.{◌≡◌, ◌⊎◌, ◌↔◌, ◌<◌, ◌≤◌, ◌^◌, ◌∷◌, [], length, OnOk, OnErr, IfOk, IsErrOf, Some};
ghost use Rattle.nx_io.specs.Causes.{Rose, HasCauseWhere};
ghost use Rattle.disk_model.specs.Disk.{Same, Rest, Outside};
ghost use Rattle.disk_model.specs.Disk as disks;
ghost use Rattle.disk_model.specs.Moments.{During, MayPut, Settled, EachImage};
ghost use Rattle.nx_base.specs.declared.blob_ref.BlobRef.{BlobRef};
ghost use Rattle.java_props.specs.Writing.{value_text};
ghost use Rattle.blob_paths.specs.Places.{place_of};
ghost use Rattle.blob_properties.specs.Readable.{Readable, marked_text_of, unmarked_text_of, readable_of, HasRoom};
ghost use Rattle.blob_properties.specs.Props.{with_mark};
ghost use Rattle.tree_content.specs.Contents.{OldOrBlob, OldOrLost, NoneLive};
ghost use Rattle.tree_content.specs.Blobs.{Homes, IsRef, props_at};
ghost use Rattle.soft_delete.specs.Marks.{IsFault, OldOrText};
ghost use Rattle.soft_delete.specs.declared.mark_err.MarkErr.TheVariants as refused;

use crate::mark_err::MarkErr;
use blob_paths::BlobFiles;
use blob_properties::{BlobProps, marked_text, unmarked_text};
use disk_model::{Disk, DiskErr, put_sealed, replace_small, write_whole};
use std::alloc::Global;

/// Makes a sealed file of a blob's properties with the mark of that reason and time in milliseconds. Nothing outside `tmp`
/// changes, whatever it answers.
pub fn stage_mark<D: Disk>(
    alloc: Global,
    disk: &mut D,
    props: &BlobProps,
    reason: &str,
    at: u64,
) -> Result<D::Sealed, MarkErr>
    requires time { at < 2 ^ 48 }
    ensures content { D.told → IfOk result (λ file. D.Writer.content file ≡ marked_text_of props.now reason.now at) }
    // The text can be read again, and says the mark, where the reason has at most 100 written bytes.
    ensures readable { HasRoom props.now → length (value_text reason.now) ≤ 100 → OnOk result (Readable (marked_text_of props.now reason.now at) (with_mark props.now reason.now at)) }
    ensures tree { D.told → Same (D.tree disk.old) (D.tree disk.new) }
    ensures any_moment { D.told → During D.clock D.lists disk.old disk.new (Same (D.lists disk.old (D.clock disk.old))) }
    ensures full { IsErrOf result refused.Full ↔ (247 < length props.now.others) }
    ensures cause { HasCauseWhere IsFault (D.faults disk.old) (D.faults disk.new) result }
    ensures look { D.last_look disk.new ≡ D.last_look disk.old }
    ensures shown { D.shown disk.new ≡ D.shown disk.old }
{
    let text = match marked_text(alloc, props, reason, at) {
        Ok(text) => text,
        Err(refusal) => return Err(MarkErr::of_text(refusal)),
    };
    match write_whole(disk, &text) {
        Ok(file) => Ok(file),
        Err(refusal) => Err(MarkErr::Disk(refusal)),
    }
}

/// The same of its properties without a mark.
pub fn stage_unmark<D: Disk>(
    alloc: Global,
    disk: &mut D,
    props: &BlobProps,
) -> Result<D::Sealed, MarkErr>
    ensures content { D.told → IfOk result (λ file. D.Writer.content file ≡ unmarked_text_of props.now) }
    ensures tree { D.told → Same (D.tree disk.old) (D.tree disk.new) }
    ensures any_moment { D.told → During D.clock D.lists disk.old disk.new (Same (D.lists disk.old (D.clock disk.old))) }
    ensures full { IsErrOf result refused.Full ↔ (250 < length props.now.others) }
    ensures cause { HasCauseWhere IsFault (D.faults disk.old) (D.faults disk.new) result }
    ensures look { D.last_look disk.new ≡ D.last_look disk.old }
    ensures shown { D.shown disk.new ≡ D.shown disk.old }
{
    let text = match unmarked_text(alloc, props) {
        Ok(text) => text,
        Err(refusal) => return Err(MarkErr::of_text(refusal)),
    };
    match write_whole(disk, &text) {
        Ok(file) => Ok(file),
        Err(refusal) => Err(MarkErr::Disk(refusal)),
    }
}

/// Shows a staged text as the properties of a blob, and settles it. The file is gone, also after a refusal, and a refusal may
/// come after a visible step.
pub fn place<D: Disk>(disk: &mut D, file: D::Sealed, files: &BlobFiles) -> Result<(), DiskErr>
    ensures named { D.told → OnOk result (D.tree disk.new (props_at files.now.place) ≡ Some (D.Writer.content file)) }
    ensures refused { D.told → OnErr result ((D.tree disk.new (props_at files.now.place) ≡ D.tree disk.old (props_at files.now.place)) ⊎ (D.tree disk.new (props_at files.now.place) ≡ Some (D.Writer.content file))) }
    ensures rest { D.told → Rest (props_at files.now.place) (D.tree disk.old) (D.tree disk.new) }
    ensures settled { D.told → OnOk result (D.lists disk.new (D.clock disk.new) (props_at files.now.place) ≡ Some (D.Writer.content file) ∷ []) }
    ensures cause { HasCauseWhere disks.IsFault (D.faults disk.old) (D.faults disk.new) result }
    ensures look { D.last_look disk.new ≡ D.last_look disk.old }
    ensures shown { Rose (D.shown disk.old) (D.shown disk.new) }
    ensures forward { D.shown disk.old ≤ D.shown disk.new }
    // At every moment the properties have at most the new text more, and other lists are those of the beginning.
    ensures any_moment { D.told → During D.clock D.lists disk.old disk.new (MayPut (props_at files.now.place) (Some (D.Writer.content file)) (D.lists disk.old (D.clock disk.old))) }
    // So each image of a disk that was settled is the old tree, or has the new text.
    ensures any_image { D.told → Settled (D.tree disk.old) (D.lists disk.old (D.clock disk.old))
        → During D.clock D.lists disk.old disk.new (EachImage (OldOrText (D.tree disk.old) (props_at files.now.place) (D.Writer.content file))) }
{
    put_sealed(disk, file, files.properties())
}

/// Marks a blob with these properties as deleted, for that reason at that time in milliseconds.
pub fn mark<D: Disk>(
    alloc: Global,
    disk: &mut D,
    files: &BlobFiles,
    props: &BlobProps,
    reason: &str,
    at: u64,
) -> Result<(), MarkErr>
    requires time { at < 2 ^ 48 }
    ensures named { D.told → OnOk result (D.tree disk.new (props_at files.now.place) ≡ Some (marked_text_of props.now reason.now at)) }
    ensures rest { D.told → Rest (props_at files.now.place) (D.tree disk.old) (D.tree disk.new) }
    ensures settled { D.told → OnOk result (D.lists disk.new (D.clock disk.new) (props_at files.now.place) ≡ Some (marked_text_of props.now reason.now at) ∷ []) }
    // Where there is no text nothing is changed.
    ensures full { IsErrOf result refused.Full ↔ (247 < length props.now.others) }
    ensures unchanged { (IsErrOf result refused.Full ⊎ IsErrOf result refused.NoMemory) → disk.new ≡ disk.old }
    ensures cause { HasCauseWhere IsFault (D.faults disk.old) (D.faults disk.new) result }
    ensures shown { OnOk result (Rose (D.shown disk.old) (D.shown disk.new)) }
    ensures forward { D.shown disk.old ≤ D.shown disk.new }
    ensures look { D.last_look disk.new ≡ D.last_look disk.old }
    // At every moment the properties have at most the marked text more, and other lists are those of the beginning.
    ensures any_moment { D.told → During D.clock D.lists disk.old disk.new (MayPut (props_at files.now.place) (Some (marked_text_of props.now reason.now at)) (D.lists disk.old (D.clock disk.old))) }
    // So each image of a disk that was settled is the old tree, or has the marked text.
    ensures any_image { D.told → Settled (D.tree disk.old) (D.lists disk.old (D.clock disk.old))
        → During D.clock D.lists disk.old disk.new (EachImage (OldOrText (D.tree disk.old) (props_at files.now.place) (marked_text_of props.now reason.now at))) }
    // And each key has the content that it had, but for one whose content was this blob, where the reason has at most 100 written bytes.
    ensures contents { D.told → (homes : Homes) (blob : BlobRef) → IsRef blob → place_of blob ≡ files.now.place → HasRoom props.now → length (value_text reason.now) ≤ 100
        → Settled (D.tree disk.old) (D.lists disk.old (D.clock disk.old))
        → During D.clock D.lists disk.old disk.new (EachImage (OldOrLost homes (D.tree disk.old) blob)) }
{
    let text = match marked_text(alloc, props, reason, at) {
        Ok(text) => text,
        Err(refusal) => return Err(MarkErr::of_text(refusal)),
    };
    replace(disk, files, &text)
}

/// Takes the mark of a blob with these properties away.
pub fn unmark<D: Disk>(
    alloc: Global,
    disk: &mut D,
    files: &BlobFiles,
    props: &BlobProps,
) -> Result<(), MarkErr>
    ensures named { D.told → OnOk result (D.tree disk.new (props_at files.now.place) ≡ Some (unmarked_text_of props.now)) }
    ensures rest { D.told → Rest (props_at files.now.place) (D.tree disk.old) (D.tree disk.new) }
    ensures settled { D.told → OnOk result (D.lists disk.new (D.clock disk.new) (props_at files.now.place) ≡ Some (unmarked_text_of props.now) ∷ []) }
    ensures full { IsErrOf result refused.Full ↔ (250 < length props.now.others) }
    ensures unchanged { (IsErrOf result refused.Full ⊎ IsErrOf result refused.NoMemory) → disk.new ≡ disk.old }
    ensures cause { HasCauseWhere IsFault (D.faults disk.old) (D.faults disk.new) result }
    ensures shown { OnOk result (Rose (D.shown disk.old) (D.shown disk.new)) }
    ensures forward { D.shown disk.old ≤ D.shown disk.new }
    ensures look { D.last_look disk.new ≡ D.last_look disk.old }
    ensures any_moment { D.told → During D.clock D.lists disk.old disk.new (MayPut (props_at files.now.place) (Some (unmarked_text_of props.now)) (D.lists disk.old (D.clock disk.old))) }
    ensures any_image { D.told → Settled (D.tree disk.old) (D.lists disk.old (D.clock disk.old))
        → During D.clock D.lists disk.old disk.new (EachImage (OldOrText (D.tree disk.old) (props_at files.now.place) (unmarked_text_of props.now))) }
    // And where the blob was not live, each key has the content that it had, or it is the blob's key and has the blob.
    ensures contents { D.told → (homes : Homes) (blob : BlobRef) → IsRef blob → place_of blob ≡ files.now.place → NoneLive homes (D.tree disk.old) blob
        → Settled (D.tree disk.old) (D.lists disk.old (D.clock disk.old))
        → During D.clock D.lists disk.old disk.new (EachImage (OldOrBlob homes (D.tree disk.old) blob (readable_of (unmarked_text_of props.now)))) }
{
    let text = match unmarked_text(alloc, props) {
        Ok(text) => text,
        Err(refusal) => return Err(MarkErr::of_text(refusal)),
    };
    replace(disk, files, &text)
}

/// Gives the properties of a blob a new text.
fn replace<D: Disk>(disk: &mut D, files: &BlobFiles, text: &[u8]) -> Result<(), MarkErr>
    ensures named { D.told → OnOk result (D.tree disk.new (props_at files.now.place) ≡ Some text.now) }
    ensures rest { D.told → Rest (props_at files.now.place) (D.tree disk.old) (D.tree disk.new) }
    ensures settled { D.told → OnOk result (D.lists disk.new (D.clock disk.new) (props_at files.now.place) ≡ Some text.now ∷ []) }
    ensures disk_refused { ¬ (IsErrOf result refused.Full ⊎ IsErrOf result refused.NoMemory) }
    ensures cause { HasCauseWhere IsFault (D.faults disk.old) (D.faults disk.new) result }
    ensures shown { OnOk result (Rose (D.shown disk.old) (D.shown disk.new)) }
    ensures forward { D.shown disk.old ≤ D.shown disk.new }
    ensures look { D.last_look disk.new ≡ D.last_look disk.old }
    ensures any_moment { D.told → During D.clock D.lists disk.old disk.new (MayPut (props_at files.now.place) (Some text.now) (D.lists disk.old (D.clock disk.old))) }
    ensures outside { Outside (props_at files.now.place) }
{
    match replace_small(disk, files.properties(), text) {
        Ok(()) => Ok(()),
        Err(refusal) => Err(MarkErr::Disk(refusal)),
    }
}
