ghost use Rattle.std.specs.Prelude.{◌≡◌, ◌≤◌, ◌∷◌, [], OnOk, None};
ghost use Rattle.nx_io.specs.Causes.{Rose, HasCauseWhere};
ghost use Rattle.disk_model.specs.Disk.{IsFault, Outside};
ghost use Rattle.disk_model.specs.Moments.{During, Settled, EachImage};
ghost use Rattle.nx_base.specs.declared.blob_ref.BlobRef.{BlobRef};
ghost use Rattle.blob_paths.specs.Places.{place_of};
ghost use Rattle.tree_content.specs.Contents.{SameContents};
ghost use Rattle.tree_content.specs.Blobs.{Homes, IsRef, bytes_at, props_at};
ghost use Rattle.tree_content.specs.Files.{RestOfPlace, Erases, IsMarkedAt, MarkedOrGone};

use blob_paths::BlobFiles;
use disk_model::{Disk, DiskErr, remove_settled};

/// Removes and syncs the bytes, then the properties.
fn remove_both<D: Disk>(disk: &mut D, files: &BlobFiles) -> Result<(), DiskErr>
    ensures bytes { D.told → OnOk result (D.tree disk.new (bytes_at files.now.place) ≡ None) }
    ensures props { D.told → OnOk result (D.tree disk.new (props_at files.now.place) ≡ None) }
    ensures rest { D.told → RestOfPlace files.now.place (D.tree disk.old) (D.tree disk.new) }
    ensures bytes_settled { D.told → OnOk result (D.lists disk.new (D.clock disk.new) (bytes_at files.now.place) ≡ None ∷ []) }
    ensures props_settled { D.told → OnOk result (D.lists disk.new (D.clock disk.new) (props_at files.now.place) ≡ None ∷ []) }
    ensures cause { HasCauseWhere IsFault (D.faults disk.old) (D.faults disk.new) result }
    ensures shown { Rose (D.shown disk.old) (D.shown disk.new) }
    ensures forward { D.shown disk.old ≤ D.shown disk.new }
    ensures look { D.last_look disk.new ≡ D.last_look disk.old }
    ensures any_moment { D.told → During D.clock D.lists disk.old disk.new (Erases files.now.place (D.lists disk.old (D.clock disk.old))) }
    ensures outside { Outside (bytes_at files.now.place) × Outside (props_at files.now.place) }
{
    remove_settled(disk, files.bytes())?;
    remove_settled(disk, files.properties())?;
    Ok(())
}

/// Removes a blob: removes and syncs the bytes, then the properties, so that the blob is marked until it is gone, and no
/// crash brings a file of it back once it answered Ok. Each refusal may come after a visible step; what is left is removed by
/// the next call.
pub fn erase<D: Disk>(disk: &mut D, files: &BlobFiles) -> Result<(), DiskErr>
    ensures bytes { D.told → OnOk result (D.tree disk.new (bytes_at files.now.place) ≡ None) }
    ensures props { D.told → OnOk result (D.tree disk.new (props_at files.now.place) ≡ None) }
    ensures rest { D.told → RestOfPlace files.now.place (D.tree disk.old) (D.tree disk.new) }
    ensures bytes_settled { D.told → OnOk result (D.lists disk.new (D.clock disk.new) (bytes_at files.now.place) ≡ None ∷ []) }
    ensures props_settled { D.told → OnOk result (D.lists disk.new (D.clock disk.new) (props_at files.now.place) ≡ None ∷ []) }
    ensures cause { HasCauseWhere IsFault (D.faults disk.old) (D.faults disk.new) result }
    ensures shown { Rose (D.shown disk.old) (D.shown disk.new) }
    ensures forward { D.shown disk.old ≤ D.shown disk.new }
    ensures look { D.last_look disk.new ≡ D.last_look disk.old }
    // At every moment at most "absent" joined the lists of its two names, that of the properties only where the bytes are absent
    // for sure, and other names are as they were.
    ensures any_moment { D.told → During D.clock D.lists disk.old disk.new (Erases files.now.place (D.lists disk.old (D.clock disk.old))) }
    // A blob that is marked in every image is marked, or gone with both files, in every image at every moment.
    ensures any_image { D.told → EachImage (IsMarkedAt files.now.place) (D.lists disk.old (D.clock disk.old))
        → During D.clock D.lists disk.old disk.new (EachImage (MarkedOrGone files.now.place)) }
    // And then no key's content changes in any of them, where the disk was settled.
    ensures contents { D.told → (homes : Homes) (blob : BlobRef) → IsRef blob → place_of blob ≡ files.now.place
        → Settled (D.tree disk.old) (D.lists disk.old (D.clock disk.old)) → EachImage (IsMarkedAt files.now.place) (D.lists disk.old (D.clock disk.old))
        → During D.clock D.lists disk.old disk.new (EachImage (SameContents homes (D.tree disk.old))) }
{
    remove_both(disk, files)
}
