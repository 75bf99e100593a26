//! Uploads that end: put, or stopped by what failed.
ghost use Rattle.std.specs.Prelude.{◌≡◌, ◌<◌, List, ℕ, true, false};
ghost use Rattle.repo_model.specs.declared.transfer.UploadErr.TheVariants as refused;
ghost use Rattle.http_requests.specs.Requests.{whole};
ghost use Rattle.http_heads.specs.declared.head.Head.{Head};
ghost use Rattle.http_heads.specs.Head.{is_put};
ghost use Rattle.http_front.specs.Answers.{last_refusal};
ghost use Rattle.http_front.specs.Responses.{why_stopped};
ghost use Rattle.nx_base.specs.declared.moment.Moment.{Moment};
ghost use Rattle.session_history.specs.Saying.{why_upload};
ghost use Rattle.session_driver.specs.Replying.{AnswersEach, PutsAs, told};
ghost use Rattle.repo_core.specs.View.{CoreView};
ghost use Rattle.repo_core.specs.Devices.{devices};
ghost use Rattle.repo_session.specs.Resting.{Rests};
ghost use Rattle.repo_session.specs.Answering.{HasBegun, IsBegun, TurnedTo, stop_for};

use crate::open_upload::OpenUpload;
use asset_keeper::Keeper;
use blob_files::Upload;
use disk_model::Disk;
use nx_base::Moment;
use repo_core::Core;
use repo_model::{Reply, UploadErr};

/// What a failed upload is answered with: a fault of the disk, or want of memory, as which all else stops a request.
fn failure(why: UploadErr) -> UploadErr
    ensures { why_upload result ≡ why_stopped (stop_for why) }
{
    match why {
        UploadErr::DiskFault => UploadErr::DiskFault,
        UploadErr::BodyTooLarge | UploadErr::Dead | UploadErr::NoMemory => UploadErr::NoMemory,
    }
}

/// Ends an upload that is open, if one is.
pub(crate) fn stop_open<D: Disk, T: Keeper>(
    core: &mut Core<D, T>,
    open: Option<OpenUpload<D::Writer>>,
)
    ensures rests { Rests (devices D.Disk T.Keeper) core.old core.new }
    ensures holds { core.new.holds ≡ core.old.holds }
{
    if let Some(OpenUpload { upload }) = open {
        core.end_upload(0, upload);
    }
}

/// Ends an upload that failed. Answers with what stopped it.
pub(crate) fn stop_upload<D: Disk, T: Keeper>(
    core: &mut Core<D, T>,
    upload: Upload<D::Writer>,
    why: UploadErr,
) -> UploadErr
    ensures stopped { (start : CoreView D T) (head : Head) (store : List ℕ) (moment : Moment) → is_put head.method ≡ true → HasBegun (devices D.Disk T.Keeper) start core.old head store
        → (why ≡ refused.DiskFault → 0 < D.Writer.faults upload.writer)
        → AnswersEach (TurnedTo (devices D.Disk T.Keeper) start core.new moment) head (told head (last_refusal false (why_upload result))) }
    ensures holds { core.new.holds ≡ core.old.holds }
{
    core.end_upload(0, upload);
    failure(why)
}

/// Seals an upload that came whole and puts it.
pub(crate) fn finish<D: Disk, T: Keeper>(
    core: &mut Core<D, T>,
    opened: OpenUpload<D::Writer>,
    moment: Moment,
) -> Result<Reply, UploadErr>
    ensures put { (start : CoreView D T) (head : Head) (content : List ℕ) → is_put head.method ≡ true → IsBegun (devices D.Disk T.Keeper) D.Writer.told D.Writer.written start core.old head opened.upload content
        → PutsAs (TurnedTo (devices D.Disk T.Keeper) start core.new moment (whole head content)) head result }
    ensures holds { core.new.holds ≡ core.old.holds }
{
    let OpenUpload { upload } = opened;
    let mut upload = upload;
    let ready = match upload.seal() {
        Ok(ready) => ready,
        Err(why) => return Err(stop_upload(core, upload, why)),
    };
    core.end_upload(0, upload);
    match core.commit_put(0, ready, moment) {
        Ok(asset) => Ok(Reply::Stored { asset }),
        Err(refusal) => Ok(Reply::Refused(refusal)),
    }
}
