//! The configuration that accepted pairs set.
ghost use Rattle.std.specs.Prelude.{◌≡◌, map, find, true, IfOk, None};
ghost use Rattle.std.specs.List.{list_all};
ghost use Rattle.nx_base.specs.Texts.{same_name};
ghost use Rattle.repo_config.specs.declared.form.Subject.TheVariants.{OfStore, OfRepo};
ghost use Rattle.repo_config.specs.Lists.{may_name};
ghost use Rattle.repo_config.specs.Settings as set;
ghost use Rattle.repo_config.specs.Settings.{declared, by_name};
ghost use Rattle.repo_config.specs.Refusals.{refusal};

use crate::config::Config;
use crate::form::{PartKind, Subject, Word};
use crate::group::Group;
use crate::key::{is_same, key_text};
use crate::repo::Repo;
use crate::settings::{declared, journal_of, kind_of, layout_of, policy_of, text_at};
use crate::store::Store;
use java_props::Pairs;
use nx_base::{Fill, Member, NameErr, NoMemory, RepoKind, RepoName, StoreName};
use std::alloc::Global;
use std::collections::BTreeMap;

/// A good name of a store.
fn store_name(alloc: Global, name: &str) -> Result<StoreName, NoMemory>
    requires { may_name OfStore name.now ≡ true }
    ensures { IfOk result (λ store. store ≡ name.now) }
{
    match StoreName::parse(alloc, name.as_bytes()) {
        Ok(store) => Ok(store),
        Err(NameErr::NoMemory) => Err(NoMemory),
        Err(_) => unreachable!(),
    }
}

/// Stores of these names, each of which is a good one.
fn store_names(alloc: Global, names: &[&str]) -> Result<Vec<StoreName>, NoMemory>
    requires { list_all (may_name OfStore) (map (λ name. name.now) names.now) ≡ true }
    ensures { IfOk result (λ stores. stores.items ≡ map (λ name. name.now) names.now) }
{
    let mut stores = Vec::new(alloc);
    for name in names {
        let store = store_name(alloc, name)?;
        if stores.push(store).is_err() {
            return Err(NoMemory);
        }
    }
    Ok(stores)
}

/// A good name of a repository.
fn repo_name(alloc: Global, name: &str) -> Result<RepoName, NoMemory>
    requires { may_name OfRepo name.now ≡ true }
    ensures { IfOk result (λ repo. repo ≡ name.now) }
{
    match RepoName::parse(alloc, name.as_bytes()) {
        Ok(repo) => Ok(repo),
        Err(NameErr::NoMemory) => Err(NoMemory),
        Err(_) => unreachable!(),
    }
}

/// Repositories of these names, each of which is a good one.
fn repo_names(alloc: Global, names: &[&str]) -> Result<Vec<RepoName>, NoMemory>
    requires { list_all (may_name OfRepo) (map (λ name. name.now) names.now) ≡ true }
    ensures { IfOk result (λ repos. repos.items ≡ map (λ name. name.now) names.now) }
{
    let mut repos = Vec::new(alloc);
    for name in names {
        let repo = repo_name(alloc, name)?;
        if repos.push(repo).is_err() {
            return Err(NoMemory);
        }
    }
    Ok(repos)
}

/// The group of one store alone.
fn alone(alloc: Global, name: &StoreName) -> Result<Group, NoMemory>
    ensures { IfOk result (λ group. group ≡ set.alone name.now) }
{
    let member = Member {
        store: name.try_clone(alloc)?,
        read_only: false,
    };
    let mut members = Vec::new(alloc);
    if members.push(member).is_err() {
        return Err(NoMemory);
    }
    Ok(Group {
        members,
        fill: Fill::First,
    })
}

fn store(alloc: Global, pairs: &Pairs, name: &StoreName) -> Result<Store, NoMemory>
    ensures { IfOk result (λ store. store ≡ set.store pairs.now name.now) }
{
    let Ok(layout) = layout_of(alloc, pairs, name.as_str()) else {
        return Err(NoMemory);
    };
    Ok(Store {
        group: alone(alloc, name)?,
        layout: Some(layout),
    })
}

/// The stores by name.
fn store_table(
    alloc: Global,
    pairs: &Pairs,
    names: &[StoreName],
) -> Result<BTreeMap<StoreName, Store>, NoMemory>
    ensures { IfOk result (λ stores. stores.entries ≡ by_name (set.store pairs.now) names.now) }
{
    let mut stores = BTreeMap::new(alloc);
    for name in names {
        let store = store(alloc, pairs, name)?;
        if stores.insert(name.try_clone(alloc)?, store).is_err() {
            return Err(NoMemory);
        }
    }
    Ok(stores)
}

/// The store of that name.
fn find_store(
    alloc: Global,
    stores: &[StoreName],
    name: &str,
) -> Result<Option<StoreName>, NoMemory>
    ensures { IfOk result (λ found. found ≡ find (λ store. same_name store name.now) stores.now) }
{
    for store in stores {
        if is_same(store.as_str(), name) {
            return Ok(Some(store.try_clone(alloc)?));
        }
    }
    Ok(None)
}

fn repo_kind(kind: PartKind) -> RepoKind
    ensures { result ≡ set.repo_kind kind }
{
    match kind {
        PartKind::FileStore | PartKind::HostedRepo => RepoKind::Hosted,
    }
}

fn repo(
    alloc: Global,
    pairs: &Pairs,
    stores: &[StoreName],
    name: &RepoName,
) -> Result<Repo, NoMemory>
    requires { stores.now ≡ declared OfStore pairs.now }
    ensures { IfOk result (λ repo. repo ≡ set.repository pairs.now name.now) }
{
    let name = name.as_str();
    let Ok(kind) = kind_of(alloc, Subject::OfRepo, pairs, name) else {
        return Err(NoMemory);
    };
    let Ok(key) = key_text(alloc, Subject::OfRepo, name, Word::Store) else {
        return Err(NoMemory);
    };
    let Ok(policy) = policy_of(alloc, pairs, name) else {
        return Err(NoMemory);
    };
    Ok(Repo {
        kind: repo_kind(kind),
        store: find_store(alloc, stores, text_at(pairs, key.as_str()))?,
        policy,
        max_age: Some(1440),
        not_found: 1440,
        cleanup: Vec::new(alloc),
    })
}

/// The repositories by name.
fn repo_table(
    alloc: Global,
    pairs: &Pairs,
    stores: &[StoreName],
    names: &[RepoName],
) -> Result<BTreeMap<RepoName, Repo>, NoMemory>
    requires { stores.now ≡ declared OfStore pairs.now }
    ensures { IfOk result (λ repos. repos.entries ≡ by_name (set.repository pairs.now) names.now) }
{
    let mut repos = BTreeMap::new(alloc);
    for name in names {
        let repo = repo(alloc, pairs, stores, name)?;
        if repos.insert(name.try_clone(alloc)?, repo).is_err() {
            return Err(NoMemory);
        }
    }
    Ok(repos)
}

/// The configuration that pairs set of which nothing is refused.
pub(crate) fn configure(alloc: Global, pairs: &Pairs, sha1: [u8; 20]) -> Result<Config, NoMemory>
    requires { refusal pairs.now ≡ None }
    ensures { IfOk result (λ config. config ≡ set.settings sha1 pairs.now) }
{
    let Ok(stores) = declared(alloc, Subject::OfStore, pairs) else {
        return Err(NoMemory);
    };
    let Ok(repos) = declared(alloc, Subject::OfRepo, pairs) else {
        return Err(NoMemory);
    };
    let file_stores = store_names(alloc, stores.as_slice())?;
    let repos = repo_names(alloc, repos.as_slice())?;
    Ok(Config {
        stores: store_table(alloc, pairs, file_stores.as_slice())?,
        repos: repo_table(alloc, pairs, file_stores.as_slice(), repos.as_slice())?,
        file_stores,
        journal: journal_of(pairs),
        sha1,
    })
}
