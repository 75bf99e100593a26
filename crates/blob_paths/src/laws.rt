//! Laws of the definitions. Each function does nothing: its contract is the law.
ghost use Rattle.std.specs.Prelude.{◌≡◌, ℕ, List, Ok};
ghost use Rattle.nx_base.specs.Ids.{id_text};
ghost use Rattle.nx_base.specs.Names.{store_name_of};
ghost use Rattle.nx_base.specs.declared.blob_ref.BlobRef.{BlobRef};
ghost use Rattle.blob_paths.specs.Ids.{IsId};
ghost use Rattle.blob_paths.specs.Places.{file_of, IsOutsideTmp, place_of};
ghost use Rattle.blob_paths.specs.declared.ending.Ending.{Ending};

/// Two files of blobs that have one name are the same file of the same blob, but for its timestamp: of one store, with one text
/// of the id, and so with one id. And so no two blobs have one place.
pub fn files_are_apart()
    ensures texts { (a b : BlobRef) (e f : Ending) → file_of a e ≡ file_of b f
        → (a.store ≡ b.store) × (id_text a.id ≡ id_text b.id) × (e ≡ f) }
    ensures files { (a b : BlobRef) (e f : Ending) → IsId a.id → IsId b.id → file_of a e ≡ file_of b f
        → (a.store ≡ b.store) × (a.id ≡ b.id) × (e ≡ f) }
    ensures places { (a b : BlobRef) → IsId a.id → IsId b.id → place_of a ≡ place_of b → (a.store ≡ b.store) × (a.id ≡ b.id) }
{}

/// No place of a blob and no file of one lies where the disk has its temporary files.
pub fn files_are_outside_tmp()
    ensures files { (blob : BlobRef) (ending : Ending) → store_name_of blob.store ≡ Ok blob.store → IsOutsideTmp (file_of blob ending) }
    ensures places { (blob : BlobRef) → store_name_of blob.store ≡ Ok blob.store → IsOutsideTmp (place_of blob) }
{}
