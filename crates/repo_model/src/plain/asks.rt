//! Calls and answers in short, for the worked rows.
use crate::call::{Begin, Call, Kind, Look, RemoteSaid};
use crate::reply::{Refusal, Reply};
use nx_base::{
    Asset, AssetPath, BlobId, BlobRef, ContentType, Key, Moment, NameErr, PolicyName, RepoName,
    StoreName,
};
use std::alloc::Global;

/// In milliseconds since 1970.
pub(crate) const T: u64 = 1_700_000_000_000;

/// The greatest time.
pub(crate) const LAST: u64 = 281_474_976_710_655;

/// A path of the repository `files`.
#[derive(Clone, Copy)]
pub(crate) enum At {
    Text,
    Empty,
    Late,
    Other,
    X,
    Y,
    Z,
}

pub(crate) fn path_of(at: At) -> &'static [u8] {
    match at {
        At::Text => b"a/b.txt",
        At::Empty => b"e",
        At::Late => b"late",
        At::Other => b"other",
        At::X => b"x.txt",
        At::Y => b"y.txt",
        At::Z => b"z.txt",
    }
}

/// A cleanup policy.
#[derive(Clone, Copy)]
pub(crate) enum Rule {
    Used,
    Old,
}

pub(crate) fn policy_of(rule: Rule) -> &'static [u8] {
    match rule {
        Rule::Used => b"used",
        Rule::Old => b"old",
    }
}

/// A call on a path of the repository `files`.
#[derive(Clone, Copy)]
pub(crate) enum Ask {
    Begin(Kind),
    Put(At, u64, u64),
    Get(Look, At, u64),
    Found(At, u64),
    Missing(At, u64),
    Failed(At, u64),
    Delete(At, u64),
    Clean(Rule, u64),
    /// Of the blob with that timestamp.
    Remove(u64, u64),
    Reconcile,
    /// A GET of another repository.
    Unknown,
}

/// A store.
#[derive(Clone, Copy)]
pub(crate) enum In {
    Default,
    First,
    Third,
}

pub(crate) fn store_of(store: In) -> &'static [u8] {
    match store {
        In::Default => b"default",
        In::First => b"m1",
        In::Third => b"m3",
    }
}

#[derive(Clone, Copy)]
pub(crate) enum Want {
    Nothing,
    Begun(In),
    /// The timestamp, the size, the times of verification and of the last download.
    Content(u64, u64, u64, Option<u64>),
    Gone,
    Removed,
    Reconciled(u64),
    Refused(Refusal),
    Taken([u8; 16]),
}

pub(crate) fn key(alloc: Global, repo: &[u8], path: &[u8]) -> Result<Key, NameErr> {
    let repo = RepoName::parse(alloc, repo)?;
    let path = AssetPath::parse(alloc, path)?;
    Ok(Key { repo, path })
}

pub(crate) fn moment(now: u64) -> Moment {
    Moment {
        now,
        random: [0; 10],
    }
}

pub(crate) fn look_at(
    alloc: Global,
    path: &[u8],
    look: Look,
    now: u64,
    remote: RemoteSaid,
) -> Result<Call, NameErr> {
    Ok(Call::Get {
        key: key(alloc, b"files", path)?,
        look,
        moment: moment(now),
        remote,
    })
}

pub(crate) fn blob(alloc: Global, timestamp: u64) -> Result<BlobRef, NameErr> {
    Ok(BlobRef {
        store: StoreName::parse(alloc, b"default")?,
        id: BlobId::made(timestamp.min(LAST), &[0; 10]),
        timestamp,
    })
}

pub(crate) fn upload(alloc: Global, path: &[u8], size: u64, now: u64) -> Result<Call, NameErr> {
    Ok(Call::Put {
        key: key(alloc, b"files", path)?,
        content_type: ContentType::parse(alloc, b"text/plain")?,
        size,
        sha1: [7; 20],
        moment: moment(now),
    })
}

pub(crate) fn fetched(alloc: Global) -> Result<RemoteSaid, NameErr> {
    Ok(RemoteSaid::Found {
        content_type: ContentType::parse(alloc, b"text/plain")?,
        size: 3,
        sha1: [7; 20],
    })
}

pub(crate) fn call_of(alloc: Global, ask: Ask) -> Result<Call, NameErr> {
    match ask {
        Ask::Begin(kind) => Ok(Call::Begin(Begin {
            key: key(alloc, b"files", b"a/b.txt")?,
            content_type: ContentType::parse(alloc, b"text/plain")?,
            kind,
        })),
        Ask::Put(at, size, now) => upload(alloc, path_of(at), size, now),
        Ask::Get(look, at, now) => look_at(alloc, path_of(at), look, now, RemoteSaid::NotAsked),
        Ask::Found(at, now) => look_at(alloc, path_of(at), Look::Get, now, fetched(alloc)?),
        Ask::Missing(at, now) => look_at(alloc, path_of(at), Look::Get, now, RemoteSaid::Missing),
        Ask::Failed(at, now) => look_at(alloc, path_of(at), Look::Get, now, RemoteSaid::Failed),
        Ask::Delete(at, now) => {
            let key = key(alloc, b"files", path_of(at))?;
            Ok(Call::Delete { key, now })
        }
        Ask::Clean(rule, now) => Ok(Call::Clean {
            key: key(alloc, b"files", b"a/b.txt")?,
            policy: PolicyName::parse(alloc, policy_of(rule))?,
            now,
        }),
        Ask::Remove(timestamp, now) => {
            let blob = blob(alloc, timestamp)?;
            Ok(Call::Remove { blob, now })
        }
        Ask::Reconcile => Ok(Call::Reconcile),
        Ask::Unknown => Ok(Call::Get {
            key: key(alloc, b"none", b"a")?,
            look: Look::Head,
            moment: moment(T),
            remote: RemoteSaid::NotAsked,
        }),
    }
}

pub(crate) fn shows(asset: &Asset, want: &Want) -> bool {
    match want {
        Want::Content(timestamp, size, verified, downloaded) => {
            asset.blob.timestamp == *timestamp
                && asset.size == *size
                && asset.verified == *verified
                && asset.downloaded == *downloaded
        }
        _ => false,
    }
}

pub(crate) fn is_wanted(reply: &Option<Reply>, want: &Want) -> bool {
    match reply {
        None => matches!(want, Want::Nothing),
        Some(Reply::Begun { store }) => match want {
            Want::Begun(name) => store.as_bytes() == store_of(*name),
            _ => false,
        },
        Some(Reply::Stored { asset }) => shows(asset, want),
        Some(Reply::Found { asset }) => shows(asset, want),
        Some(Reply::Gone) => matches!(want, Want::Gone),
        Some(Reply::Removed) => matches!(want, Want::Removed),
        Some(Reply::Reconciled { kept }) => match want {
            Want::Reconciled(n) => *kept == *n,
            _ => false,
        },
        Some(Reply::Refused(Refusal::IdTaken { id })) => match want {
            Want::Taken(bytes) => id.as_bytes() == bytes.as_slice(),
            _ => false,
        },
        Some(Reply::Refused(why)) => match want {
            Want::Refused(other) => *why == *other,
            _ => false,
        },
    }
}
