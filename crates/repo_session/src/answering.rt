//! What a session asks of a core.
ghost use Rattle.http_front.specs.Answers.{Answer};
ghost use Rattle.repo_core.specs.Devices.{devices};
ghost use Rattle.repo_session.specs.Turned.{DownloadFails};
ghost use Rattle.repo_session.specs.Answering.{Answered, UploadWaits, IsFree, session_view};
ghost use Rattle.repo_session.specs.Looked.{IsLooked};

use crate::downloads::{give, let_go};
use crate::draws::Draws;
use crate::looks::looked;
use crate::open_upload::{OpenUpload, keep};
use crate::puts::{finish, stop_open, stop_upload};
use crate::writing::write;
use asset_keeper::Keeper;
use blob_files::Download;
use disk_model::Disk;
use http_front::Unsaid;
use nx_base::{Key, StoreName};
use nx_io::Sink;
use repo_core::Core;
use repo_model::{Begin, Kind, Look, Reply, UploadErr};
use session_driver::Repository;
use std::alloc::Global;

/// A core that makes the calls of one session, with the moments that it draws: one for each request.
pub struct Answering<D: Disk, T: Keeper, W, R> {
    pub alloc: Global,
    pub core: Core<D, T>,
    pub draws: Draws,
    /// The upload whose content is being read.
    pub upload: Option<OpenUpload<W>>,
    /// The content that a look opened, to be given out.
    pub found: Option<Download<R>>,
    ghost free: { IsFree found core.holds },
}

impl<D: Disk, T: Keeper> Repository for Answering<D, T, D::Writer, D::Reader> {
    ghost Answers = { λ x y item answer. Answered (devices D.Disk T.Keeper) (session_view x.core x.draws x.upload x.found) (session_view y.core y.draws y.upload y.found) item answer };

    ghost Uploads = { λ x y head content. UploadWaits (devices D.Disk T.Keeper) D.Writer.told D.Writer.written (session_view x.core x.draws x.upload x.found) (session_view y.core y.draws y.upload y.found) head content };

    ghost Looked = { λ x y head said. IsLooked (devices D.Disk T.Keeper) D.Reader.left (session_view x.core x.draws x.upload x.found) (session_view y.core y.draws y.upload y.found) head said };

    ghost Fails = { λ x y. DownloadFails (devices D.Disk T.Keeper) x.core y.core };

    fn refused(&mut self) {
        self.draws.draw();
    }

    fn begin(&mut self, begin: Begin) -> Result<Reply, UploadErr> {
        // A session asks of this reply only whether an upload was begun, so its name is no store's. Its memory is taken before the call:
        // behind that a want of memory would be no answer.
        let Ok(store) = StoreName::parse(self.alloc, b"begun") else {
            self.draws.draw();
            return Err(UploadErr::NoMemory);
        };
        let begin = Begin {
            key: begin.key,
            content_type: begin.content_type,
            kind: Kind::Put,
        };
        stop_open(&mut self.core, self.upload.take());
        match self.core.begin(0, begin) {
            Ok(upload) => {
                keep(&mut self.upload, Some(OpenUpload { upload }));
                Ok(Reply::Begun { store })
            }
            Err(refusal) => {
                self.draws.draw();
                Ok(Reply::Refused(refusal))
            }
        }
    }

    fn take(&mut self, part: &[u8]) -> Result<(), UploadErr> {
        let Some(open) = self.upload.take() else {
            return Err(UploadErr::NoMemory);
        };
        let OpenUpload { upload } = open;
        let mut upload = upload;
        match upload.write(part) {
            Ok(()) => {
                keep(&mut self.upload, Some(OpenUpload { upload }));
                Ok(())
            }
            Err(why) => {
                self.draws.draw();
                Err(stop_upload(&mut self.core, upload, why))
            }
        }
    }

    fn commit(&mut self) -> Result<Reply, UploadErr> {
        let moment = self.draws.draw();
        let Some(open) = self.upload.take() else {
            return Err(UploadErr::NoMemory);
        };
        finish(&mut self.core, open, moment)
    }

    fn abort(&mut self) {
        self.draws.draw();
        if let Some(open) = self.upload.take() {
            let OpenUpload { upload } = open;
            self.core.end_upload(0, upload);
        }
    }

    fn cut(&mut self) {
        self.draws.draw();
        if let Some(open) = self.upload.take() {
            let OpenUpload { upload } = open;
            self.core.end_upload(0, upload);
        }
    }

    fn look(&mut self, key: Key, look: Look) -> Reply {
        let_go(&mut self.core, self.found.take());
        let moment = self.draws.draw();
        let got = self.core.get(0, key, look, moment);
        let (said, found) = looked(got);
        keep(&mut self.found, found);
        said
    }

    fn send<K: Sink>(&mut self, prefix: &[u8], output: &mut K) -> Result<(), Unsaid> {
        match self.found.take() {
            Some(download) => give(&mut self.core, prefix, download, output),
            None => write(output, prefix),
        }
    }

    fn delete(&mut self, key: Key) -> Reply {
        let moment = self.draws.draw();
        match self.core.delete(0, key, moment) {
            Ok(()) => Reply::Gone,
            Err(refusal) => Reply::Refused(refusal),
        }
    }
}
