use nx_base::{Policy, PolicyName, RepoKind, StoreName};
use std::marker::Model;

/// A repository. No key sets the two times and the cleanup yet: they are what counts where no key
/// is there.
#[derive(Drop)]
pub struct Repo {
    pub kind: RepoKind,
    /// The store or the group of stores that it writes to.
    pub store: Option<StoreName>,
    /// What it lets be written.
    pub policy: Policy,
    /// For how long a fetched content is fresh, in minutes; `None` is for ever.
    pub max_age: Option<u64>,
    /// For how long the remote isn't asked again for what it didn't have, in minutes.
    pub not_found: u64,
    /// Its cleanup policies.
    pub cleanup: Vec<PolicyName>,
}

impl Model for Repo {
    ghost use Rattle.repo_config.specs.Settings as settings;

    ghost Value = { settings.Repository };

    ghost view = { λ r. record { kind = r.kind; store = r.store; policy = r.policy; max_age = r.max_age; not_found = r.not_found; cleanup = r.cleanup.items } };
}
