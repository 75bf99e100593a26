ghost use Rattle.std.specs.Prelude.{◌≡◌};
ghost use Rattle.raw_repos.specs.Policies.{write_answer};

use nx_base::Policy;

/// Whether a path of a hosted repository may be written to, where something is there or not. The
/// refusal names the policy.
pub fn may_write(policy: Policy, there: bool) -> Result<(), Policy>
    ensures { result ≡ write_answer policy there }
{
    match policy {
        Policy::Redeploy => Ok(()),
        Policy::NoRedeploy if there => Err(Policy::NoRedeploy),
        Policy::NoRedeploy => Ok(()),
        Policy::ReadOnly => Err(Policy::ReadOnly),
    }
}
