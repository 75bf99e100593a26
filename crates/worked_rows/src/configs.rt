//! Configurations: what they hold, or why they are refused.
use java_props::PropsErr;
use nx_base::{RepoName, StoreName};
use repo_config::{Config, ConfigErr, Group, Repo};
use std::alloc::{AllocError, Global};

/// The file stores with commas between them.
fn stores_text(alloc: Global, config: &Config) -> Result<String, AllocError> {
    let mut text = String::new(alloc);
    for store in config.file_stores() {
        if !text.is_empty() {
            text.push(',')?;
        }
        text.push_str(store.as_str())?;
    }
    Ok(text)
}

fn props_text(alloc: Global, why: PropsErr) -> Result<String, AllocError> {
    format!(in alloc; "Props {why:?}")
}

/// A refusal and its key.
fn refusal_text(alloc: Global, why: &ConfigErr) -> Result<String, AllocError> {
    let key = why.key().unwrap_or("");
    match why {
        ConfigErr::Props(why) => props_text(alloc, *why),
        ConfigErr::NoMemory => String::from_str(alloc, "NoMemory"),
        ConfigErr::UnknownKey { .. } => format!(in alloc; "UnknownKey {key}"),
        ConfigErr::BadValue { .. } => format!(in alloc; "BadValue {key}"),
        ConfigErr::DuplicateName { .. } => format!(in alloc; "DuplicateName {key}"),
        ConfigErr::NoStore { .. } => format!(in alloc; "NoStore {key}"),
        ConfigErr::NestedGroup { .. } => format!(in alloc; "NestedGroup {key}"),
        ConfigErr::StoreInTwoGroups { .. } => format!(in alloc; "StoreInTwoGroups {key}"),
    }
}

/// The file stores and the journal's room, or the refusal.
pub(crate) fn read(alloc: Global, text: &[u8]) -> Result<String, AllocError> {
    match Config::read(alloc, text) {
        Ok(config) => {
            let stores = stores_text(alloc, &config)?;
            let journal = config.journal();
            format!(in alloc; "Ok {stores} {journal}")
        }
        Err(why) => refusal_text(alloc, &why),
    }
}

fn repo_text(alloc: Global, repo: &Repo) -> Result<String, AllocError> {
    let store = repo.store.as_ref().map_or("", |store| store.as_str());
    let (kind, policy) = (repo.kind, repo.policy);
    let (max_age, not_found) = (repo.max_age, repo.not_found);
    let cleanup = repo.cleanup.len();
    format!(in alloc; "{kind:?} {policy:?} {store} {max_age:?} {not_found} {cleanup}")
}

fn group_text(alloc: Global, group: &Group) -> Result<String, AllocError> {
    let (count, fill) = (group.members.len(), group.fill);
    let writable = group.members.first().is_some_and(|first| !first.read_only);
    format!(in alloc; "{count} {fill:?} {writable}")
}

/// The repository, and whether it takes the store.
fn repo_and_store(
    alloc: Global,
    config: &Config,
    repo: &RepoName,
    store: &StoreName,
) -> Result<String, AllocError> {
    match config.repo(repo) {
        Some(repo) => {
            let text = repo_text(alloc, repo)?;
            let takes = config.takes(repo, store);
            format!(in alloc; "{text} {takes}")
        }
        None => String::from_str(alloc, "no repository"),
    }
}

/// The group and the layout of the store.
fn store_text(alloc: Global, config: &Config, store: &StoreName) -> Result<String, AllocError> {
    let layout = config.layout(store);
    match config.group(store) {
        Some(group) => {
            let text = group_text(alloc, group)?;
            format!(in alloc; "{text} {layout:?}")
        }
        None => format!(in alloc; "no group {layout:?}"),
    }
}

fn held(alloc: Global, config: &Config, name: &[u8]) -> Result<String, AllocError> {
    match (
        RepoName::parse(alloc, b"files"),
        StoreName::parse(alloc, name),
    ) {
        (Ok(repo), Ok(store)) => {
            let first = repo_and_store(alloc, config, &repo, &store)?;
            let second = store_text(alloc, config, &store)?;
            format!(in alloc; "{first}, {second}")
        }
        _ => String::from_str(alloc, "no names"),
    }
}

/// What a configuration says of the repository `files`, and of the stores `default` and `other`.
pub(crate) fn holds(alloc: Global, text: &[u8]) -> Result<String, AllocError> {
    match Config::read(alloc, text) {
        Ok(config) => {
            let first = held(alloc, &config, b"default")?;
            let second = held(alloc, &config, b"other")?;
            format!(in alloc; "{first}; {second}")
        }
        Err(why) => refusal_text(alloc, &why),
    }
}

/// The digest of its text.
pub(crate) fn sha1(alloc: Global, text: &[u8]) -> Result<String, AllocError> {
    match Config::read(alloc, text) {
        Ok(config) => hex::encode(alloc, &config.sha1()),
        Err(why) => refusal_text(alloc, &why),
    }
}
