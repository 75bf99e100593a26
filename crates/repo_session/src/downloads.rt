//! A content on its way out.
ghost use Rattle.std.specs.Prelude.{◌≡◌, ◌+◌, ◌≤◌, length, take, slice_set, slice_get, Some, None, IfOk, IfErr};
ghost use Rattle.nx_io.specs.Causes.{HasCauseWhere};
ghost use Rattle.blob_files.specs.Downloads.{IsWhole, IsFault};
ghost use Rattle.http_front.specs.Replying.{HasSinkCause};
ghost use Rattle.repo_session.specs.Answering.{IsFree};
ghost use Rattle.repo_core.specs.Devices.{devices};
ghost use Rattle.repo_session.specs.Resting.{Rests};
ghost use Rattle.repo_session.specs.Sending.{SentSome};
ghost use Rattle.repo_session.specs.Giving.{HasRead, IsGivenBehind, HasFailed, HasGivenCause};

use crate::writing::write;
use asset_keeper::Keeper;
use blob_files::Download;
use disk_model::{Disk, Reader};
use http_front::Unsaid;
use nx_io::Sink;
use repo_core::Core;
use repo_model::DownloadErr;

/// Reads the next bytes of a download into a piece, behind what stands there.
fn read_behind<R: Reader>(
    download: &mut Download<R>,
    piece: &mut [u8; 32_768],
    at: usize,
) -> Result<usize, DownloadErr>
    requires { at ≤ 1024 }
    ensures read { IfOk result (HasRead R.told R.left R.faults download.old download.new (take at piece.old) piece.new at) }
    ensures within { IfOk result (λ count. at + count ≤ 32768) }
    // None come only at the download's end.
    ensures end { IfOk result (λ count. count ≡ 0 → download.new.given ≡ download.new.size) }
    ensures stays { take at piece.new ≡ take at piece.old }
    ensures never_short { R.told → IsWhole R.left download.old → IfErr result IsFault }
    ensures cause { HasCauseWhere IsFault (R.faults download.old.reader) (R.faults download.new.reader) result }
{
    match download.read(&mut piece[at..]) {
        Ok(count) => Ok(count),
        Err(why) => Err(why),
    }
}

/// Writes the head of a response and the bytes of a download behind it as they come, piece by piece. The first piece has the head.
fn send_pieces<R: Reader, K: Sink>(
    prefix: &[u8],
    download: &mut Download<R>,
    output: &mut K,
) -> Result<(), Unsaid>
    requires { length prefix.now ≤ 1024 }
    ensures sent { SentSome (IsGivenBehind R.told R.left prefix.now download.old) (K.taken output.old) (K.taken output.new) result }
    ensures cause { HasSinkCause (K.faults output.old) (K.faults output.new) result }
    ensures failed { HasFailed R.told R.left R.faults download.old download.new result }
{
    let mut piece = [0; 32_768];
    let mut at = prefix.len();
    piece[..at].copy_from_slice(prefix);
    'pieces: loop {
        match read_behind(download, &mut piece, at) {
            Ok(0) => return write(output, &piece[..at]),
            Ok(count) => {
                if let Err(unsaid) = write(output, &piece[..at + count]) {
                    return Err(unsaid);
                }
                at = 0;
            }
            Err(_) => {
                if let Err(unsaid) = write(output, &piece[..at]) {
                    return Err(unsaid);
                }
                return Err(Unsaid::DownloadFault);
            }
        }
    }
}

/// Writes the head of a response and the bytes of a download. A head that has no place in a piece is written alone.
fn send_content<R: Reader, K: Sink>(
    prefix: &[u8],
    download: &mut Download<R>,
    output: &mut K,
) -> Result<(), Unsaid>
    ensures sent { SentSome (IsGivenBehind R.told R.left prefix.now download.old) (K.taken output.old) (K.taken output.new) result }
    ensures cause { HasSinkCause (K.faults output.old) (K.faults output.new) result }
    ensures failed { HasFailed R.told R.left R.faults download.old download.new result }
{
    if prefix.len() <= 1_024 {
        return send_pieces(prefix, download, output);
    }
    if let Err(unsaid) = write(output, prefix) {
        return Err(unsaid);
    }
    send_pieces(&[], download, output)
}

/// Gives a content out behind the head of its response, and ends the download.
pub(crate) fn give<D: Disk, T: Keeper, K: Sink>(
    core: &mut Core<D, T>,
    prefix: &[u8],
    download: Download<D::Reader>,
    output: &mut K,
) -> Result<(), Unsaid>
    ensures sent { SentSome (IsGivenBehind D.Reader.told D.Reader.left prefix.now download) (K.taken output.old) (K.taken output.new) result }
    ensures cause { HasSinkCause (K.faults output.old) (K.faults output.new) result }
    ensures failed { HasGivenCause D.Reader.told D.Reader.left (D.faults core.old.disk) (D.faults core.new.disk) download result }
    ensures rests { Rests (devices D.Disk T.Keeper) core.old core.new }
    ensures holds { core.new.holds ≡ slice_set core.old.holds 0 None }
{
    let mut download = download;
    let sent = send_content(prefix, &mut download, output);
    core.end_get(0, download);
    sent
}

/// Ends a download that is open, if one is.
pub(crate) fn let_go<D: Disk, T: Keeper>(core: &mut Core<D, T>, found: Option<Download<D::Reader>>)
    requires { IsFree found core.old.holds }
    ensures rests { Rests (devices D.Disk T.Keeper) core.old core.new }
    ensures free { slice_get core.new.holds 0 ≡ Some None }
{
    if let Some(download) = found {
        core.end_get(0, download);
    }
}
