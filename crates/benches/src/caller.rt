//! The one caller of the repository.
ghost use Rattle.std.specs.Prelude.{◌≡◌, ◌≤◌, slice_get, Some, None, IsSome, IfOk};
ghost use Rattle.repo_model.specs.declared.call.Kind.TheVariants as kinds;

use crate::keys::key;
use crate::stop::Stop;
use asset_keeper::MapKeeper;
use blob_files::{Download, Ready, Upload};
use disk_model::{MemDisk, MemReader, MemSealed, MemWriter};
use nx_base::{ContentType, Moment};
use repo_core::Core;
use repo_model::{Begin, GotOf, Kind, Look, UploadErr};
use std::alloc::Global;

/// The length of each content.
const LENGTH: usize = 16;

/// The time of each request, in milliseconds.
const NOW: u64 = 1_700_000_000_000;

/// A caller of a core, who holds no blob between two requests.
#[derive(Drop)]
pub struct Caller {
    core: Core<MemDisk, MapKeeper>,
    ghost free: { slice_get core.holds 0 ≡ Some None },
}

fn begin_of(alloc: Global, number: u64) -> Result<Begin, Stop>
    ensures { IfOk result (λ begin. begin.kind ≡ kinds.Put) }
{
    Ok(Begin {
        key: key(alloc, number)?,
        content_type: ContentType::parse(alloc, b"text/plain")?,
        kind: Kind::Put,
    })
}

const MOMENT: Moment = Moment {
    now: NOW,
    random: [0; 10],
};

/// Writes a content into the upload, and seals it.
fn fill(upload: &mut Upload<MemWriter>) -> Result<Ready<MemSealed>, UploadErr>
    requires { IsSome upload.old.target }
    ensures { IfOk result (λ ready. ready.size ≤ 1073741824) }
{
    if let Err(why) = upload.write(&[b'A'; LENGTH]) {
        return Err(why);
    }
    upload.seal()
}

/// Whether the download has as many bytes as each content.
fn is_whole(download: &mut Download<MemReader>) -> bool {
    let mut piece = [0u8; LENGTH];
    download.read(&mut piece) == Ok(LENGTH) && download.read(&mut piece) == Ok(0)
}

impl Caller {
    /// Of a core in which the caller holds nothing.
    pub fn new(core: Core<MemDisk, MapKeeper>) -> Caller
        requires { slice_get core.holds 0 ≡ Some None }
    {
        Caller { core }
    }

    /// Puts the content with that number.
    pub fn put(&mut self, alloc: Global, number: u64) -> Result<(), Stop> {
        let begin = begin_of(alloc, number)?;
        let mut upload = match self.core.begin(0, begin) {
            Ok(upload) => upload,
            Err(_) => return Err(Stop::Refused),
        };
        let filled = fill(&mut upload);
        self.core.end_upload(0, upload);
        let ready = match filled {
            Ok(ready) => ready,
            Err(_) => return Err(Stop::Refused),
        };
        match self.core.commit_put(0, ready, MOMENT) {
            Ok(_) => Ok(()),
            Err(_) => Err(Stop::Refused),
        }
    }

    /// Whether the content with that number is given, whole.
    pub fn finds(&mut self, alloc: Global, number: u64) -> Result<bool, Stop> {
        let key = key(alloc, number)?;
        match self.core.get(0, key, Look::Get, MOMENT) {
            Ok(
                GotOf::Hit {
                    asset: _asset,
                    mut download,
                },
            ) => {
                let whole = is_whole(&mut download);
                self.core.end_get(0, download);
                Ok(whole)
            }
            Ok(GotOf::Seen { .. }) | Ok(GotOf::NeedFetch { .. }) => Ok(false),
            Err(_) => Err(Stop::Refused),
        }
    }
}
