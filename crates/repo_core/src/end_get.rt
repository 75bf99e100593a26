ghost use Rattle.std.specs.Prelude.{◌≡◌, length, None, slice_set};
ghost use Rattle.repo_core.specs.Devices.{devices};
ghost use Rattle.repo_core.specs.Returned.{GaveBack};

use crate::hold::Hold;
use crate::repository::Core;
use asset_keeper::Keeper;
use blob_files::Download;
use disk_model::Disk;

/// The caller holds nothing any more. Of a number that no caller has, nothing changes.
fn clear_hold(holds: &mut Vec<Option<Hold>>, caller: u32)
    ensures { holds.new.items ≡ slice_set holds.old.items caller None }
{
    let at = caller as usize;
    if at < holds.len() {
        holds[at] = None;
    }
}

impl<D: Disk, T: Keeper> Core<D, T> {
    /// Ends a download: the caller holds nothing any more, and the disk takes the reader back. It can't be refused, takes no
    /// memory, and makes no entry.
    pub fn end_get(&mut self, caller: u32, download: Download<D::Reader>)
        ensures back { GaveBack (devices D.Disk T.Keeper) self.old self.new (D.Reader.faults download.reader) }
        ensures holds { self.new.holds ≡ slice_set self.old.holds caller None }
        ensures callers { length self.new.holds ≡ length self.old.holds }
    {
        clear_hold(&mut self.holds, caller);
        self.disk.end_reader(download.into_reader());
    }
}
