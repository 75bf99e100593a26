ghost use Rattle.std.specs.Prelude.{◌≡◌};
ghost use Rattle.repo_core.specs.Devices.{devices};
ghost use Rattle.repo_core.specs.Returned.{GaveBack};

use crate::repository::Core;
use asset_keeper::Keeper;
use blob_files::Upload;
use disk_model::Disk;

impl<D: Disk, T: Keeper> Core<D, T> {
    /// Ends an upload that wasn't committed: the disk takes the writer back. It can't be refused, takes no memory, and makes no
    /// entry.
    pub fn end_upload(&mut self, _caller: u32, upload: Upload<D::Writer>)
        ensures back { GaveBack (devices D.Disk T.Keeper) self.old self.new (D.Writer.faults upload.writer) }
        ensures holds { self.new.holds ≡ self.old.holds }
    {
        self.disk.give_up(upload.into_writer());
    }
}
