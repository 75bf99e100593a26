ghost use Rattle.std.specs.Prelude.{◌≡◌, ℕ};
ghost use Rattle.std.specs.Option.{option_copied};
ghost use Rattle.std.specs.FinMap.{find};
ghost use Rattle.nx_base.specs.Order.{name_cmp};

use nx_base::{Fill, Member, Policy, PolicyName, RepoKind, RepoName, StoreName};
use std::marker::Model;

/// A group of stores. A store alone is a group of one.
#[derive(Drop)]
pub struct PlainGroup {
    pub members: Vec<Member>,
    pub fill: Fill,
}

impl Model for PlainGroup {
    ghost use Rattle.nx_base.specs.Fills.{Group};

    ghost Value = { Group };

    ghost view = { λ g. record { members = g.members.items; fill = g.fill } };
}

/// A repository. `store` is the store or group that it writes to, `max_age` and `not_found` are in
/// minutes, and `cleanup` names its policies in their order.
#[derive(Drop)]
pub struct PlainRepo {
    pub kind: RepoKind,
    pub store: StoreName,
    pub policy: Policy,
    pub max_age: Option<u64>,
    pub not_found: u64,
    pub cleanup: Vec<PolicyName>,
}

impl Model for PlainRepo {
    ghost use Rattle.repo_model.specs.Config.{Repo};

    ghost Value = { Repo };

    ghost view = { λ r. record { kind = r.kind; store = r.store; policy = r.policy; max_age = r.max_age; not_found = r.not_found; cleanup = r.cleanup.items } };
}

/// Repositories, groups of stores, and for how long a deleted blob stays, in milliseconds.
#[derive(Drop)]
pub struct PlainConfig {
    pub repos: Vec<(RepoName, PlainRepo)>,
    pub groups: Vec<(StoreName, PlainGroup)>,
    pub compact_age: u64,
}

/// The first repository of that name.
pub fn find_repo<'a>(repos: &'a [(RepoName, PlainRepo)], name: &RepoName) -> Option<&'a PlainRepo>
    ensures { option_copied result ≡ find name_cmp name.now repos.now }
{
    for (at, repo) in repos {
        if name == at {
            return Some(repo);
        }
    }
    None
}

/// The first group of that name.
pub(crate) fn find_group<'a>(
    groups: &'a [(StoreName, PlainGroup)],
    name: &StoreName,
) -> Option<&'a PlainGroup>
    ensures { option_copied result ≡ find name_cmp name.now groups.now }
{
    for (at, group) in groups {
        if name == at {
            return Some(group);
        }
    }
    None
}
