//! The bytes that a session says.
ghost use Rattle.std.specs.Prelude.{◌≡◌, ◌≤◌, [], take, length};
ghost use Rattle.http_heads.specs.Response.{why, refused_with};
ghost use Rattle.http_front.specs.Responses.{replied_with};
ghost use Rattle.session_history.specs.Saying.{why_upload};
ghost use Rattle.http_session.specs.Views.{continue_if};

use http_front::answer_of;
use http_heads::{RefusalWords, refusal_response, response_head};
use repo_model::{Reply, UploadErr};

/// Writes the response of a reply, for a content that is found its head. Answers how many bytes it has.
pub(crate) fn write_reply(reply: &Reply, bare: bool, closes: bool, out: &mut [u8; 1024]) -> usize
    ensures within { result ≤ 1024 }
    ensures text { take result out.new ≡ replied_with bare closes [] reply.now }
{
    match reply {
        Reply::Found { asset } => response_head(
            200,
            Some(&asset.content_type),
            Some(asset.size),
            closes,
            out,
        ),
        Reply::Stored { asset: _ } => response_head(201, None, Some(0), closes, out),
        Reply::Gone => response_head(204, None, None, closes, out),
        Reply::Refused(refusal) => {
            let (status, words) = answer_of(*refusal);
            refusal_response(status, words.as_bytes(), bare, closes, out)
        }
        Reply::Begun { store: _ } | Reply::Removed | Reply::Reconciled { kept: _ } => 0,
    }
}

/// The status and the words with which an upload that failed is answered.
pub(crate) fn upload_answer(refusal: UploadErr) -> (u16, RefusalWords)
    ensures { why result.0 result.1 ≡ why_upload refusal }
{
    match refusal {
        UploadErr::BodyTooLarge => (413, RefusalWords::new("BodyTooLarge")),
        UploadErr::DiskFault | UploadErr::Dead => (500, RefusalWords::new("DiskFault")),
        UploadErr::NoMemory => (507, RefusalWords::new("NoMemory")),
    }
}

/// Writes `100 Continue`, where the request waits for it.
pub(crate) fn write_continue(expects: bool, out: &mut [u8; 1024]) -> usize
    ensures within { result ≤ 1024 }
    ensures text { take result out.new ≡ continue_if expects }
{
    if expects {
        response_head(100, None, None, false, out)
    } else {
        0
    }
}
