ghost use Rattle.http_front.specs.Replying.{HasSinkCause};
ghost use Rattle.repo_session.specs.Sending.{Sent, OnlyWriteFails};

use http_front::Unsaid;
use nx_io::{Failed, Sink, put_all};

/// Writes some bytes.
pub(crate) fn write<K: Sink>(output: &mut K, bytes: &[u8]) -> Result<(), Unsaid>
    ensures sent { Sent (K.taken output.old) (K.taken output.new) bytes.now result }
    ensures cause { HasSinkCause (K.faults output.old) (K.faults output.new) result }
    ensures write { OnlyWriteFails result }
{
    match put_all(output, bytes) {
        Ok(()) => Ok(()),
        Err(Failed) => Err(Unsaid::WriteFault),
    }
}
