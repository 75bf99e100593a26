ghost use Rattle.std.specs.Prelude.{◌≡◌, IfOk, MatchResult, option_map, IfSome, length, is_some};
ghost use Rattle.nx_io.specs.Causes.{HasCauseWhere};
ghost use Rattle.disk_model.specs.Disk.{IsFault};
ghost use Rattle.disk_model.specs.Moments.{Ticks};
ghost use Rattle.blob_properties.specs.Readable.{readable_of, read_as};
ghost use Rattle.tree_content.specs.Blobs.{bytes_at, props_at};

use blob_paths::BlobFiles;
use blob_properties::{PropsRead, read_blob};
use disk_model::{Disk, DiskErr};
use std::alloc::Global;

/// What the properties file of a blob says: None exactly where it is absent, and unreadable exactly where its text is.
pub fn read_props<D: Disk>(
    alloc: Global,
    disk: &mut D,
    files: &BlobFiles,
) -> Result<Option<PropsRead>, DiskErr>
    ensures props { D.told → IfOk result (λ found. option_map read_as found ≡ option_map readable_of (D.tree disk.old (props_at files.now.place))) }
    ensures tree { D.told → D.tree disk.new ≡ D.tree disk.old }
    ensures cause { HasCauseWhere IsFault (D.faults disk.old) (D.faults disk.new) result }
    ensures crash { D.told → D.lists disk.new (D.clock disk.new) ≡ D.lists disk.old (D.clock disk.old) }
    ensures time { D.told → Ticks (D.clock disk.old) (D.clock disk.new) (D.lists disk.old) (D.lists disk.new) }
    // Where nothing is told too, a file is there exactly where the disk said so.
    ensures look { IfOk result (λ found. is_some found ≡ is_some (D.last_look disk.new)) }
    ensures shown { D.shown disk.new ≡ D.shown disk.old }
{
    let Some(text) = disk.read_small(files.properties())? else {
        return Ok(None);
    };
    match read_blob(alloc, &text) {
        Ok(read) => Ok(Some(read)),
        Err(_) => Err(DiskErr::NoMemory),
    }
}

/// A reader of the bytes file of a blob, or None where it is absent.
pub fn open_bytes<D: Disk>(disk: &mut D, files: &BlobFiles) -> Result<Option<D::Reader>, DiskErr>
    ensures bytes { D.told → IfOk result (λ found. option_map (λ r. D.Reader.left r) found ≡ D.tree disk.old (bytes_at files.now.place)) }
    ensures size { D.told → IfOk result (λ found. IfSome found (λ r. D.Reader.size r ≡ length (D.Reader.left r))) }
    ensures sound { IfOk result (λ found. IfSome found (λ r. D.Reader.faults r ≡ 0)) }
    ensures tree { D.told → D.tree disk.new ≡ D.tree disk.old }
    ensures cause { HasCauseWhere IsFault (D.faults disk.old) (D.faults disk.new) result }
    ensures crash { D.told → D.lists disk.new (D.clock disk.new) ≡ D.lists disk.old (D.clock disk.old) }
    ensures time { D.told → Ticks (D.clock disk.old) (D.clock disk.new) (D.lists disk.old) (D.lists disk.new) }
    ensures shown { D.shown disk.new ≡ D.shown disk.old }
    ensures look { MatchResult result (λ found. D.last_look disk.new ≡ option_map (λ r. D.Reader.size r) found) (λ _. D.last_look disk.new ≡ D.last_look disk.old) }
{
    disk.open_file(files.bytes())
}
