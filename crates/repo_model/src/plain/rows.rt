//! Worked rows: what calls are answered, one after another, over an empty repository.
use crate::call::{Call, Kind, Look};
use crate::entry::Entry;
use crate::journal::Journal;
use crate::plain::asks::{
    Ask, At, In, LAST, Rule, T, Want, blob, call_of, is_wanted, key, policy_of,
};
use crate::plain::{
    NoPattern, PlainConfig, PlainGroup, PlainPolicy, PlainRepo, PlainState, step_with,
};
use crate::reply::{Cause, Fault, Refusal, Reply};
use crate::spot::Spot;
use nx_base::{
    BlobId, Fill, Member, NameErr, NoMemory, Policy, PolicyName, RepoKind, RepoName, StoreName,
};
use std::alloc::Global;
use std::test::Fail;

const BEFORE: u64 = T - 1;

const DAY: u64 = 86_400_000;

const WEEK: u64 = 7 * DAY;

/// The id of the timestamp T and ten zeros.
const ID: [u8; 16] = [
    0x01, 0x8b, 0xcf, 0xe5, 0x68, 0, 0x70, 0, 0x80, 0, 0, 0, 0, 0, 0, 0,
];

fn group(alloc: Global, members: &[(&[u8], bool)]) -> Result<PlainGroup, NameErr> {
    let mut list = Vec::new(alloc);
    for (name, read_only) in members {
        let member = Member {
            store: StoreName::parse(alloc, name)?,
            read_only: *read_only,
        };
        if list.push(member).is_err() {
            return Err(NameErr::NoMemory);
        }
    }
    Ok(PlainGroup {
        members: list,
        fill: Fill::RoundRobin,
    })
}

/// The two policies of the repository, in their order.
fn names(alloc: Global) -> Result<Vec<PolicyName>, NameErr> {
    let mut names = Vec::new(alloc);
    for rule in [Rule::Used, Rule::Old] {
        let name = PolicyName::parse(alloc, policy_of(rule))?;
        if names.push(name).is_err() {
            return Err(NameErr::NoMemory);
        }
    }
    Ok(names)
}

/// `used` takes what wasn't asked for in seven days, and `old` what is seven days old.
fn policies(alloc: Global) -> Result<Vec<(PolicyName, PlainPolicy<NoPattern>)>, NameErr> {
    let mut policies = Vec::new(alloc);
    for rule in [Rule::Used, Rule::Old] {
        let name = PolicyName::parse(alloc, policy_of(rule))?;
        let (age, usage) = match rule {
            Rule::Used => (None, Some(7)),
            Rule::Old => (Some(7), None),
        };
        let policy = PlainPolicy {
            age,
            usage,
            path: None,
        };
        if policies.push((name, policy)).is_err() {
            return Err(NameErr::NoMemory);
        }
    }
    Ok(policies)
}

/// The repository `files` over a group `default` of those members.
fn config(
    alloc: Global,
    kind: RepoKind,
    policy: Policy,
    members: &[(&[u8], bool)],
) -> Result<PlainConfig, NameErr> {
    let repo = PlainRepo {
        kind,
        store: StoreName::parse(alloc, b"default")?,
        policy,
        max_age: Some(1440),
        not_found: 1440,
        cleanup: names(alloc)?,
    };
    let mut repos = Vec::new(alloc);
    let name = RepoName::parse(alloc, b"files")?;
    if repos.push((name, repo)).is_err() {
        return Err(NameErr::NoMemory);
    }
    let mut groups = Vec::new(alloc);
    let name = StoreName::parse(alloc, b"default")?;
    let one = group(alloc, members)?;
    if groups.push((name, one)).is_err() {
        return Err(NameErr::NoMemory);
    }
    Ok(PlainConfig {
        repos,
        groups,
        compact_age: 1000,
    })
}

/// What a call is answered in that state.
fn answer(
    alloc: Global,
    config: &PlainConfig,
    state: &mut PlainState,
    ask: Ask,
) -> Result<Option<Reply>, NameErr> {
    let store = StoreName::parse(alloc, b"default")?;
    let policies = policies(alloc)?;
    let call = call_of(alloc, ask)?;
    match step_with(alloc, config, &policies, state, &store, call) {
        Ok(reply) => Ok(reply),
        Err(NoMemory) => Err(NameErr::NoMemory),
    }
}

/// The number of the first row whose answer isn't the wanted one, over an empty repository.
fn first_wrong(
    alloc: Global,
    config: &PlainConfig,
    rows: &[(Ask, Want)],
) -> Result<Option<usize>, NameErr> {
    let mut state = PlainState::new(alloc);
    for (at, (ask, want)) in rows.iter().enumerate() {
        let reply = answer(alloc, config, &mut state, *ask)?;
        if !is_wanted(&reply, want) {
            return Ok(Some(at));
        }
    }
    Ok(None)
}

const ONE: [(&[u8], bool); 1] = [(b"default", false)];

const SOME: [(&[u8], bool); 3] = [(b"m1", false), (b"m2", true), (b"m3", false)];

const NONE: [(&[u8], bool); 2] = [(b"m1", true), (b"m2", true)];

const REDEPLOY: [(Ask, Want); 17] = [
    (Ask::Begin(Kind::Put), Want::Begun(In::Default)),
    (Ask::Put(At::Text, 3, T), Want::Content(T, 3, T, None)),
    (
        Ask::Get(Look::Head, At::Text, T + 5),
        Want::Content(T, 3, T, None),
    ),
    (
        Ask::Get(Look::Get, At::Text, T + 5),
        Want::Content(T, 3, T, Some(T + 5)),
    ),
    (
        Ask::Get(Look::Get, At::Text, T),
        Want::Content(T, 3, T, Some(T + 5)),
    ),
    (
        Ask::Put(At::Empty, 0, T),
        Want::Content(T + 1, 0, T + 1, None),
    ),
    (Ask::Unknown, Want::Refused(Refusal::UnknownRepo)),
    (Ask::Remove(T, T + 9000), Want::Nothing),
    (Ask::Delete(At::Text, T + 5000), Want::Gone),
    (
        Ask::Get(Look::Get, At::Text, T),
        Want::Refused(Refusal::NotFound),
    ),
    (Ask::Delete(At::Text, T), Want::Refused(Refusal::NotFound)),
    (Ask::Remove(T, T + 5999), Want::Nothing),
    (Ask::Remove(T, T + 6000), Want::Removed),
    (Ask::Remove(T, T + 6000), Want::Nothing),
    (Ask::Reconcile, Want::Reconciled(1)),
    (
        Ask::Put(At::Late, 1, u64::MAX),
        Want::Content(LAST, 1, LAST, None),
    ),
    (Ask::Put(At::Late, 1, T), Want::Refused(Refusal::StampsUsed)),
];

const KEPT: Refusal = Refusal::WriteDenied {
    policy: Policy::NoRedeploy,
};

const NO_REDEPLOY: [(Ask, Want); 4] = [
    (Ask::Put(At::Text, 3, T), Want::Content(T, 3, T, None)),
    (Ask::Begin(Kind::Put), Want::Refused(KEPT)),
    (Ask::Put(At::Text, 3, T), Want::Refused(KEPT)),
    (
        Ask::Put(At::Other, 3, T),
        Want::Content(T + 1, 3, T + 1, None),
    ),
];

const CLEANUP: [(Ask, Want); 8] = [
    (Ask::Put(At::Text, 3, T), Want::Content(T, 3, T, None)),
    (Ask::Clean(Rule::Used, T + WEEK - 1), Want::Nothing),
    (Ask::Clean(Rule::Old, T + WEEK), Want::Nothing),
    (Ask::Clean(Rule::Used, T + WEEK), Want::Gone),
    (
        Ask::Put(At::Text, 3, T + WEEK),
        Want::Content(T + WEEK, 3, T + WEEK, None),
    ),
    (
        Ask::Get(Look::Get, At::Text, T + WEEK + DAY),
        Want::Content(T + WEEK, 3, T + WEEK, Some(T + WEEK + DAY)),
    ),
    (Ask::Clean(Rule::Used, T + WEEK + WEEK), Want::Nothing),
    (Ask::Clean(Rule::Old, T + WEEK + WEEK), Want::Gone),
];

const BARRED: Refusal = Refusal::WriteDenied {
    policy: Policy::ReadOnly,
};

const PROXY: [(Ask, Want); 12] = [
    (Ask::Begin(Kind::Put), Want::Refused(BARRED)),
    (Ask::Get(Look::Get, At::X, T), Want::Nothing),
    (Ask::Begin(Kind::Fetch), Want::Begun(In::Default)),
    (Ask::Found(At::X, T), Want::Content(T, 3, T, Some(T))),
    (
        Ask::Get(Look::Head, At::X, T + DAY - 1),
        Want::Content(T, 3, T, Some(T)),
    ),
    (Ask::Get(Look::Get, At::X, T + DAY), Want::Nothing),
    (
        Ask::Failed(At::X, T + DAY),
        Want::Content(T, 3, T, Some(T + DAY)),
    ),
    (Ask::Missing(At::Y, T), Want::Refused(Refusal::NotFound)),
    (
        Ask::Get(Look::Get, At::Y, T + DAY - 1),
        Want::Refused(Refusal::NotFound),
    ),
    (Ask::Get(Look::Get, At::Y, T + DAY), Want::Nothing),
    (Ask::Failed(At::Z, T), Want::Refused(Refusal::RemoteFault)),
    (
        Ask::Missing(At::X, T + DAY),
        Want::Content(T, 3, T, Some(T + DAY)),
    ),
];

const TURNS: [(Ask, Want); 6] = [
    (Ask::Begin(Kind::Put), Want::Begun(In::First)),
    (Ask::Begin(Kind::Put), Want::Begun(In::Third)),
    (Ask::Begin(Kind::Put), Want::Begun(In::First)),
    (Ask::Begin(Kind::Put), Want::Begun(In::Third)),
    (Ask::Begin(Kind::Put), Want::Begun(In::First)),
    (Ask::Put(At::Other, 1, T), Want::Nothing),
];

const FULL: [(Ask, Want); 1] = [(Ask::Begin(Kind::Put), Want::Refused(Refusal::NoWritable))];

#[test]
fn worked_rows(rt: HostRuntime) -> Result<(), Fail> {
    let a = rt.alloc();
    let hosted = config(a, RepoKind::Hosted, Policy::Redeploy, &ONE)?;
    assert_eq!(rt; first_wrong(a, &hosted, &REDEPLOY)?, None);
    assert_eq!(rt; first_wrong(a, &hosted, &CLEANUP)?, None);
    let kept = config(a, RepoKind::Hosted, Policy::NoRedeploy, &ONE)?;
    assert_eq!(rt; first_wrong(a, &kept, &NO_REDEPLOY)?, None);
    let proxy = config(a, RepoKind::Proxy, Policy::Redeploy, &ONE)?;
    assert_eq!(rt; first_wrong(a, &proxy, &PROXY)?, None);
    let turns = config(a, RepoKind::Hosted, Policy::Redeploy, &SOME)?;
    assert_eq!(rt; first_wrong(a, &turns, &TURNS)?, None);
    let full = config(a, RepoKind::Hosted, Policy::Redeploy, &NONE)?;
    assert_eq!(rt; first_wrong(a, &full, &FULL)?, None);
    Ok(())
}

#[test]
fn taken_id(rt: HostRuntime) -> Result<(), Fail> {
    let a = rt.alloc();
    let hosted = config(a, RepoKind::Hosted, Policy::Redeploy, &ONE)?;
    let mut state = PlainState::new(a);
    let spot = Spot {
        store: StoreName::parse(a, b"default")?,
        id: BlobId::made(T, &[0; 10]),
    };
    assert_eq!(rt; state.taken.insert(spot), Ok(()));
    let reply = answer(a, &hosted, &mut state, Ask::Put(At::Text, 3, T))?;
    assert!(rt; is_wanted(&reply, &Want::Taken(ID)));
    Ok(())
}

#[test]
fn broken_repository(rt: HostRuntime) -> Result<(), Fail> {
    let a = rt.alloc();
    let hosted = config(a, RepoKind::Hosted, Policy::Redeploy, &ONE)?;
    let mut state = PlainState::new(a);
    let cause = Cause {
        fault: Fault::Keeper,
        entry: 1,
    };
    state.broken = Some(cause);
    let reply = answer(a, &hosted, &mut state, Ask::Get(Look::Get, At::Text, T))?;
    assert!(rt; is_wanted(&reply, &Want::Refused(Refusal::Broken { cause })));
    Ok(())
}

#[test]
fn superseded_blob(rt: HostRuntime) -> Result<(), Fail> {
    let a = rt.alloc();
    let hosted = config(a, RepoKind::Hosted, Policy::Redeploy, &ONE)?;
    let mut state = PlainState::new(a);
    let _ = answer(a, &hosted, &mut state, Ask::Put(At::Text, 3, T))?;
    let older = blob(a, BEFORE)?;
    let key = key(a, b"files", b"a/b.txt")?;
    assert_eq!(rt; state.loose.insert(older, key), Ok(()));
    let reply = answer(a, &hosted, &mut state, Ask::Reconcile)?;
    assert!(rt; is_wanted(&reply, &Want::Reconciled(1)));
    let reply = answer(a, &hosted, &mut state, Ask::Remove(BEFORE, T + 999))?;
    assert!(rt; is_wanted(&reply, &Want::Removed));
    Ok(())
}

#[test]
fn full_journal(rt: HostRuntime) -> Result<(), Fail> {
    let a = rt.alloc();
    let mut journal = Journal::new(a, 2).or(Err(NameErr::NoMemory))?;
    for caller in 0..2 {
        assert!(rt; !journal.is_full());
        journal.push(Entry {
            caller,
            call: Call::Reconcile,
            reply: Reply::Gone,
        });
    }
    assert!(rt; journal.is_full());
    assert_eq!(rt; journal.len(), 2);
    assert!(rt; matches!(journal.entry(1), Some(entry) if entry.caller == 1));
    assert!(rt; journal.entry(2).is_none());
    assert!(rt; Journal::none(a).is_full());
    Ok(())
}
