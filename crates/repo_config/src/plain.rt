//! The configuration in the form in which the step of the one-thread repository takes it.
ghost use Rattle.std.specs.Prelude.{◌≡◌, IfOk, IsSome};
ghost use Rattle.repo_model.specs.Plain.{config_of};
ghost use Rattle.repo_config.specs.Model.{model_of, repo_read, repos_read, groups_read};
ghost use Rattle.repo_config.specs.Hosted.{AllHosted, AllUsable};

use crate::config::Config;
use crate::group::Group;
use crate::repo::Repo;
use crate::store::Store;
use nx_base::{Member, NoMemory, PolicyName, RepoName, StoreName};
use repo_model::plain::{PlainConfig, PlainGroup, PlainRepo};
use std::alloc::Global;
use std::collections::BTreeMap;

fn copy_policies(alloc: Global, names: &[PolicyName]) -> Result<Vec<PolicyName>, NoMemory>
    ensures { IfOk result (λ copies. copies.items ≡ names.now) }
{
    let mut copies = Vec::new(alloc);
    for name in names {
        let copy = name.try_clone(alloc)?;
        if copies.push(copy).is_err() {
            return Err(NoMemory);
        }
    }
    Ok(copies)
}

fn copy_members(alloc: Global, members: &[Member]) -> Result<Vec<Member>, NoMemory>
    ensures { IfOk result (λ copies. copies.items ≡ members.now) }
{
    let mut copies = Vec::new(alloc);
    for member in members {
        let copy = member.try_clone(alloc)?;
        if copies.push(copy).is_err() {
            return Err(NoMemory);
        }
    }
    Ok(copies)
}

/// A repository that has a store.
fn plain_repo(alloc: Global, repo: &Repo) -> Result<PlainRepo, NoMemory>
    requires { IsSome repo.now.store }
    ensures { IfOk result (λ plain. plain ≡ repo_read repo.now) }
{
    let Some(store) = &repo.store else {
        unreachable!();
    };
    Ok(PlainRepo {
        kind: repo.kind,
        store: store.try_clone(alloc)?,
        policy: repo.policy,
        max_age: repo.max_age,
        not_found: repo.not_found,
        cleanup: copy_policies(alloc, repo.cleanup.as_slice())?,
    })
}

fn plain_group(alloc: Global, group: &Group) -> Result<PlainGroup, NoMemory>
    ensures { IfOk result (λ plain. plain ≡ group.now) }
{
    Ok(PlainGroup {
        members: copy_members(alloc, group.members.as_slice())?,
        fill: group.fill,
    })
}

fn plain_repos(
    alloc: Global,
    repos: &BTreeMap<RepoName, Repo>,
) -> Result<Vec<(RepoName, PlainRepo)>, NoMemory>
    requires { AllUsable repos.now.entries }
    ensures { IfOk result (λ plain. plain.items ≡ repos_read repos.now.entries) }
{
    let mut plain = Vec::new(alloc);
    for (name, repo) in repos {
        let entry = (name.try_clone(alloc)?, plain_repo(alloc, repo)?);
        if plain.push(entry).is_err() {
            return Err(NoMemory);
        }
    }
    Ok(plain)
}

fn plain_groups(
    alloc: Global,
    stores: &BTreeMap<StoreName, Store>,
) -> Result<Vec<(StoreName, PlainGroup)>, NoMemory>
    ensures { IfOk result (λ plain. plain.items ≡ groups_read stores.now.entries) }
{
    let mut plain = Vec::new(alloc);
    for (name, store) in stores {
        let entry = (name.try_clone(alloc)?, plain_group(alloc, &store.group)?);
        if plain.push(entry).is_err() {
            return Err(NoMemory);
        }
    }
    Ok(plain)
}

impl Config {
    /// A copy in the form in which the step of the one-thread repository takes it.
    pub fn plain(&self, alloc: Global) -> Result<PlainConfig, NoMemory>
        ensures plain { IfOk result (λ plain. config_of plain ≡ model_of self.now) }
        ensures hosted { IfOk result (λ plain. AllHosted (config_of plain)) }
    {
        Ok(PlainConfig {
            repos: plain_repos(alloc, &self.repos)?,
            groups: plain_groups(alloc, &self.stores)?,
            compact_age: 0,
        })
    }
}
