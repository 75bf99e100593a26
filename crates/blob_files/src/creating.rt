ghost use Rattle.std.specs.Prelude.{◌≡◌, ◌≤◌, ◌∷◌, [], OnOk, Some, None};
ghost use Rattle.nx_io.specs.Causes.{Rose, HasCauseWhere};
ghost use Rattle.disk_model.specs.Disk.{IsFault, Outside};
ghost use Rattle.disk_model.specs.Moments.{During, Settled, EachImage};
ghost use Rattle.nx_base.specs.declared.blob_ref.BlobRef.{BlobRef};
ghost use Rattle.blob_paths.specs.Places.{place_of};
ghost use Rattle.blob_properties.specs.Readable.{readable_of};
ghost use Rattle.tree_content.specs.Contents.{OldOrBlob};
ghost use Rattle.tree_content.specs.Blobs.{Homes, IsRef, bytes_at, props_at};
ghost use Rattle.tree_content.specs.Files.{RestOfPlace, Creates, IsCreatedIn};

use blob_paths::BlobFiles;
use disk_model::{Disk, DiskErr, put_sealed, replace_small};

/// Installs and syncs the bytes, then the properties.
fn put_both<D: Disk>(
    disk: &mut D,
    file: D::Sealed,
    files: &BlobFiles,
    props: &[u8],
) -> Result<(), DiskErr>
    ensures bytes { D.told → OnOk result (D.tree disk.new (bytes_at files.now.place) ≡ Some (D.Writer.content file)) }
    ensures props { D.told → OnOk result (D.tree disk.new (props_at files.now.place) ≡ Some props.now) }
    ensures rest { D.told → RestOfPlace files.now.place (D.tree disk.old) (D.tree disk.new) }
    ensures created { D.told → D.tree disk.old (props_at files.now.place) ≡ None → IsCreatedIn files.now.place (D.Writer.content file) props.now (D.tree disk.old) (D.tree disk.new) }
    ensures bytes_settled { D.told → OnOk result (D.lists disk.new (D.clock disk.new) (bytes_at files.now.place) ≡ Some (D.Writer.content file) ∷ []) }
    ensures props_settled { D.told → OnOk result (D.lists disk.new (D.clock disk.new) (props_at files.now.place) ≡ Some props.now ∷ []) }
    ensures cause { HasCauseWhere IsFault (D.faults disk.old) (D.faults disk.new) result }
    ensures shown { Rose (D.shown disk.old) (D.shown disk.new) }
    ensures forward { D.shown disk.old ≤ D.shown disk.new }
    ensures look { D.last_look disk.new ≡ D.last_look disk.old }
    ensures any_moment { D.told → During D.clock D.lists disk.old disk.new
        (Creates files.now.place (D.Writer.content file) props.now (D.lists disk.old (D.clock disk.old))) }
    ensures outside { Outside (bytes_at files.now.place) × Outside (props_at files.now.place) }
{
    put_sealed(disk, file, files.bytes())?;
    replace_small(disk, files.properties(), props)
}

/// Makes a blob of a sealed file and the text of its properties: installs and syncs the bytes, then the properties, so that
/// no crash leaves properties without their whole bytes. The file is gone, also after a refusal, and each refusal may come
/// after a visible step.
pub fn create<D: Disk>(
    disk: &mut D,
    file: D::Sealed,
    files: &BlobFiles,
    props: &[u8],
) -> Result<(), DiskErr>
    ensures bytes { D.told → OnOk result (D.tree disk.new (bytes_at files.now.place) ≡ Some (D.Writer.content file)) }
    ensures props { D.told → OnOk result (D.tree disk.new (props_at files.now.place) ≡ Some props.now) }
    ensures rest { D.told → RestOfPlace files.now.place (D.tree disk.old) (D.tree disk.new) }
    // Where no properties stood, the tree has none now, or both files whole, whatever it answers.
    ensures created { D.told → D.tree disk.old (props_at files.now.place) ≡ None → IsCreatedIn files.now.place (D.Writer.content file) props.now (D.tree disk.old) (D.tree disk.new) }
    ensures bytes_settled { D.told → OnOk result (D.lists disk.new (D.clock disk.new) (bytes_at files.now.place) ≡ Some (D.Writer.content file) ∷ []) }
    ensures props_settled { D.told → OnOk result (D.lists disk.new (D.clock disk.new) (props_at files.now.place) ≡ Some props.now ∷ []) }
    ensures cause { HasCauseWhere IsFault (D.faults disk.old) (D.faults disk.new) result }
    ensures shown { Rose (D.shown disk.old) (D.shown disk.new) }
    ensures forward { D.shown disk.old ≤ D.shown disk.new }
    ensures look { D.last_look disk.new ≡ D.last_look disk.old }
    // At every moment the new properties may be left only where the whole bytes are, and other names are as they were.
    ensures any_moment { D.told → During D.clock D.lists disk.old disk.new
        (Creates files.now.place (D.Writer.content file) props.now (D.lists disk.old (D.clock disk.old))) }
    // On a settled disk without these properties each image at every moment has no properties file, or has both files whole.
    ensures any_image { D.told → Settled (D.tree disk.old) (D.lists disk.old (D.clock disk.old)) → D.tree disk.old (props_at files.now.place) ≡ None
        → During D.clock D.lists disk.old disk.new (EachImage (IsCreatedIn files.now.place (D.Writer.content file) props.now (D.tree disk.old))) }
    // So each key has the content that it had, or it is the blob's key and has the blob.
    ensures contents { D.told → (homes : Homes) (blob : BlobRef) → IsRef blob → place_of blob ≡ files.now.place
        → Settled (D.tree disk.old) (D.lists disk.old (D.clock disk.old)) → D.tree disk.old (props_at files.now.place) ≡ None
        → During D.clock D.lists disk.old disk.new (EachImage (OldOrBlob homes (D.tree disk.old) blob (readable_of props.now))) }
{
    put_both(disk, file, files, props)
}
