//! What a look at the content of a key gives a session.
ghost use Rattle.std.specs.Prelude.{◌≡◌};
ghost use Rattle.repo_core.specs.Answers.{reply_of};
ghost use Rattle.repo_core.specs.Looking.{found_in};
ghost use Rattle.repo_session.specs.Looked.{opened_by};

use blob_files::Download;
use repo_core::Got;
use repo_model::{GotOf, Refusal, Reply};

/// The reply to a look, and the content that it opened.
pub(crate) fn looked<R>(got: Result<Got<R>, Refusal>) -> (Reply, Option<Download<R>>)
    ensures reply { result.0 ≡ reply_of found_in got }
    ensures opened { result.1 ≡ opened_by got }
{
    match got {
        Ok(GotOf::Hit { asset, download }) => (Reply::Found { asset }, Some(download)),
        Ok(GotOf::Seen { asset }) => (Reply::Found { asset }, None),
        // A core asks no remote.
        Ok(GotOf::NeedFetch { key: _key }) => (Reply::Refused(Refusal::NotFound), None),
        Err(refusal) => (Reply::Refused(refusal), None),
    }
}
