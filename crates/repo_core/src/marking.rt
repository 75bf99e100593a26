ghost use Rattle.std.specs.Prelude.{◌≡◌, ◌≤◌, ◌<◌, ◌^◌, length, IfOk};
ghost use Rattle.nx_io.specs.Causes.{HasCauseWhere};
ghost use Rattle.disk_model.specs.Disk.{Same, IsFault};
ghost use Rattle.disk_model.specs.Moments.{During};
ghost use Rattle.java_props.specs.Writing.{value_text};
ghost use Rattle.repo_core.specs.Marks.{Stages};

use blob_files::read_props;
use blob_paths::{BlobFiles, Layout};
use blob_properties::PropsRead;
use disk_model::{Disk, DiskErr};
use nx_base::BlobRef;
use soft_delete::MarkErr;
use std::alloc::Global;

/// A mark that stands ready: a sealed file with the new text, and the names of the blob's files.
pub struct Mark<S> {
    pub file: S,
    pub files: BlobFiles,
}

/// Makes the mark of a blob ready, for that reason at that time in milliseconds. None where its properties aren't there or can't be
/// read. Nothing outside `tmp` changes, whatever it answers.
pub(crate) fn stage_mark<D: Disk>(
    alloc: Global,
    disk: &mut D,
    blob: &BlobRef,
    reason: &str,
    at: u64,
) -> Result<Option<Mark<D::Sealed>>, DiskErr>
    requires time { at < 2 ^ 48 }
    requires short { length (value_text reason.now) ≤ 100 }
    ensures stages { D.told → IfOk result (λ mark. Stages D.Writer.content (D.tree disk.old) blob.now reason.now at mark) }
    ensures tree { D.told → Same (D.tree disk.old) (D.tree disk.new) }
    ensures any_moment { D.told → During D.clock D.lists disk.old disk.new (Same (D.lists disk.old (D.clock disk.old))) }
    ensures shown { D.shown disk.new ≡ D.shown disk.old }
    ensures cause { HasCauseWhere IsFault (D.faults disk.old) (D.faults disk.new) result }
{
    let Ok(files) = BlobFiles::of(alloc, blob, Layout::Volume) else {
        return Err(DiskErr::NoMemory);
    };
    let props = match read_props(alloc, disk, &files) {
        Ok(Some(PropsRead::Good(props))) => props,
        Ok(Some(PropsRead::Unreadable)) => return Ok(None),
        Ok(None) => return Ok(None),
        Err(refusal) => return Err(refusal),
    };
    match soft_delete::stage_mark(alloc, disk, &props, reason, at) {
        Ok(file) => Ok(Some(Mark { file, files })),
        Err(MarkErr::Full) => Ok(None),
        Err(MarkErr::NoMemory) => Err(DiskErr::NoMemory),
        Err(MarkErr::Disk(refusal)) => Err(refusal),
    }
}
