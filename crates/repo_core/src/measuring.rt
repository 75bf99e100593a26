ghost use Rattle.std.specs.Prelude.{◌≡◌, Some, IfOk, IfErr};
ghost use Rattle.nx_io.specs.Causes.{HasCauseWhere};
ghost use Rattle.disk_model.specs.Disk.{Same};
ghost use Rattle.disk_model.specs.Moments.{During};
ghost use Rattle.tree_content.specs.Blobs.{bytes_name};
ghost use Rattle.repo_core.specs.Faults.{IsDisk, IsKeeper, DeniedBy};
ghost use Rattle.repo_core.specs.Looking.{NotOpened};

use crate::denial::{Denial, disk_fault};
use blob_files::open_bytes;
use blob_paths::{BlobFiles, Layout};
use disk_model::{Disk, Reader};
use nx_base::Asset;
use repo_model::Fault;
use std::alloc::Global;

/// Opens the bytes of an asset's blob. They are given only where they are as many as the asset has.
pub(crate) fn open_measured<D: Disk>(
    alloc: Global,
    disk: &mut D,
    asset: &Asset,
) -> Result<D::Reader, Denial>
    ensures bytes { D.told → IfOk result (λ r. D.tree disk.old (bytes_name asset.now.blob) ≡ Some (D.Reader.left r)) }
    ensures size { IfOk result (λ r. D.Reader.size r ≡ asset.now.size) }
    ensures sound { IfOk result (λ r. D.Reader.faults r ≡ 0) }
    ensures denied { IfErr result (NotOpened D.told (D.tree disk.old) asset.now (D.last_look disk.new)) }
    ensures tree { D.told → D.tree disk.new ≡ D.tree disk.old }
    ensures any_moment { D.told → During D.clock D.lists disk.old disk.new (Same (D.lists disk.old (D.clock disk.old))) }
    ensures shown { D.shown disk.new ≡ D.shown disk.old }
    ensures cause { HasCauseWhere (DeniedBy IsDisk) (D.faults disk.old) (D.faults disk.new) result }
    ensures disk_alone { IfErr result (λ why. ¬ DeniedBy IsKeeper why) }
{
    let Ok(files) = BlobFiles::of(alloc, &asset.blob, Layout::Volume) else {
        return Err(Denial::Failed(Fault::Memory));
    };
    let reader = match open_bytes(disk, &files) {
        Ok(Some(reader)) => reader,
        Ok(None) => {
            return Err(Denial::Damaged {
                size: asset.size,
                found: None,
            });
        }
        Err(refusal) => return Err(Denial::Failed(disk_fault(refusal))),
    };
    let size = reader.len();
    if size == asset.size {
        return Ok(reader);
    }
    disk.end_reader(reader);
    Err(Denial::Damaged {
        size: asset.size,
        found: Some(size),
    })
}
