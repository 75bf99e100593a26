//! The one caller of the repository.
ghost use Rattle.std.specs.Prelude.{◌≡◌, ◌≤◌, slice_get, Some, None, IsSome, IfOk};
ghost use Rattle.repo_model.specs.declared.call.Kind.TheVariants as kinds;

use crate::said::{Answer, Said, given, not_taken, noted_in, refused, stored};
use crate::script::{Ask, Path, Step, Text, key_of};
use crate::stop::Stop;
use asset_keeper::MapKeeper;
use blob_files::{Download, Ready, Upload};
use disk_model::{MemDisk, MemReader, MemSealed, MemWriter};
use nx_base::{Asset, ContentType, Moment};
use repo_core::Core;
use repo_model::{Begin, Cause, DownloadErr, Fault, GotOf, Kind, Look, UploadErr};
use std::alloc::Global;

/// A caller of a core, who holds no blob between two requests.
#[derive(Drop)]
pub struct Caller {
    core: Core<MemDisk, MapKeeper>,
    ghost free: { slice_get core.holds 0 ≡ Some None },
}

fn begin_of(alloc: Global, path: Path) -> Result<Begin, Stop>
    ensures { IfOk result (λ begin. begin.kind ≡ kinds.Put) }
{
    Ok(Begin {
        key: key_of(alloc, path)?,
        content_type: ContentType::parse(alloc, b"text/plain")?,
        kind: Kind::Put,
    })
}

fn moment(now: u64) -> Moment {
    Moment {
        now,
        random: [0; 10],
    }
}

/// Writes the content into the upload, and seals it.
fn fill(upload: &mut Upload<MemWriter>, text: Text) -> Result<Ready<MemSealed>, UploadErr>
    requires { IsSome upload.old.target }
    ensures { IfOk result (λ ready. ready.size ≤ 1073741824) }
{
    if let Err(why) = upload.write(text.bytes()) {
        return Err(why);
    }
    upload.seal()
}

/// The bytes of a download. None where they don't end.
fn read_all(
    alloc: Global,
    download: &mut Download<MemReader>,
) -> Result<Option<Result<Vec<u8>, DownloadErr>>, Stop> {
    let mut bytes = Vec::new(alloc);
    for _ in 0..100u32 {
        let mut piece = [0u8; 8];
        match download.read(&mut piece) {
            Ok(0) => return Ok(Some(Ok(bytes))),
            Ok(count) => bytes.extend_from_slice(&piece[..count])?,
            Err(why) => return Ok(Some(Err(why))),
        }
    }
    Ok(None)
}

/// What a GET is answered with this asset and this download.
fn answer_hit(
    alloc: Global,
    asset: &Asset,
    download: &mut Download<MemReader>,
) -> Result<Answer, Stop> {
    let noted = given(asset);
    let said = match read_all(alloc, download)? {
        Some(Ok(bytes)) => match Text::of(&bytes) {
            Some(text) => Said::Given(text),
            None => Said::Strange,
        },
        Some(Err(DownloadErr::DiskFault)) => Said::Failed(Fault::Disk),
        Some(Err(DownloadErr::Short { .. })) | None => Said::Strange,
    };
    Ok(Answer {
        said,
        noted,
        calls: 1,
    })
}

impl Caller {
    pub fn new(core: Core<MemDisk, MapKeeper>) -> Caller
        requires { slice_get core.holds 0 ≡ Some None }
    {
        Caller { core }
    }

    /// Makes the request of a step at that time.
    pub fn ask(&mut self, alloc: Global, step: &Step, now: u64) -> Result<Answer, Stop> {
        match step.ask {
            Ask::Put(text) => self.put(alloc, step.path, text, now),
            Ask::Get => self.get(alloc, step.path, now),
            Ask::Delete => self.delete(alloc, step.path, now),
        }
    }

    fn put(&mut self, alloc: Global, path: Path, text: Text, now: u64) -> Result<Answer, Stop> {
        let begin = begin_of(alloc, path)?;
        let mut upload = match self.core.begin(0, begin) {
            Ok(upload) => upload,
            Err(refusal) => return Ok(Answer::of(refused(refusal), 1)),
        };
        let filled = fill(&mut upload, text);
        self.core.end_upload(0, upload);
        let ready = match filled {
            Ok(ready) => ready,
            Err(why) => {
                return Ok(Answer {
                    said: not_taken(why),
                    noted: Said::Begun,
                    calls: 1,
                });
            }
        };
        let said = match self.core.commit_put(0, ready, moment(now)) {
            Ok(asset) => stored(&asset),
            Err(refusal) => refused(refusal),
        };
        Ok(Answer::of(said, 2))
    }

    fn get(&mut self, alloc: Global, path: Path, now: u64) -> Result<Answer, Stop> {
        let key = key_of(alloc, path)?;
        match self.core.get(0, key, Look::Get, moment(now)) {
            Ok(
                GotOf::Hit {
                    asset,
                    mut download,
                },
            ) => {
                let answer = answer_hit(alloc, &asset, &mut download);
                self.core.end_get(0, download);
                answer
            }
            Ok(GotOf::Seen { .. }) | Ok(GotOf::NeedFetch { .. }) => {
                Ok(Answer::of(Said::Strange, 1))
            }
            Err(refusal) => Ok(Answer::of(refused(refusal), 1)),
        }
    }

    fn delete(&mut self, alloc: Global, path: Path, now: u64) -> Result<Answer, Stop> {
        let key = key_of(alloc, path)?;
        let said = match self.core.delete(0, key, moment(now)) {
            Ok(()) => Said::Gone,
            Err(refusal) => refused(refusal),
        };
        Ok(Answer::of(said, 1))
    }

    /// The cause that the core keeps, if it is broken.
    pub fn broken(&self) -> Option<Cause> {
        self.core.broken()
    }

    /// How many entries the journal has.
    pub fn entries(&self) -> u64 {
        self.core.journal().len()
    }

    /// What the last entry of the journal tells.
    pub fn last_noted(&self) -> Option<Said> {
        let last = self.entries().checked_sub(1)?;
        Some(noted_in(self.core.journal().entry(last)?))
    }

    /// Ends, and gives the disk back.
    pub fn into_disk(self) -> MemDisk {
        let Caller { core } = self;
        core.stop().disk
    }
}
