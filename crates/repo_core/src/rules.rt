ghost use Rattle.std.specs.Prelude.{◌≡◌};
ghost use Rattle.repo_model.specs.Writing.{bars_delete};
ghost use Rattle.repo_model.specs.Config.{is_no_redeploy};

use nx_base::{Policy, RepoKind};
use repo_model::plain::PlainRepo;

/// Whether clients may delete nothing of the repository.
pub(crate) fn bars_delete(repo: &PlainRepo) -> bool
    ensures { result ≡ bars_delete repo.now }
{
    match repo.kind {
        RepoKind::Proxy => false,
        RepoKind::Hosted => match repo.policy {
            Policy::ReadOnly => true,
            Policy::Redeploy | Policy::NoRedeploy => false,
        },
    }
}

/// Whether what a key of the repository has may not be replaced.
pub(crate) fn is_no_redeploy(policy: Policy) -> bool
    ensures { result ≡ is_no_redeploy policy }
{
    match policy {
        Policy::NoRedeploy => true,
        Policy::Redeploy | Policy::ReadOnly => false,
    }
}
