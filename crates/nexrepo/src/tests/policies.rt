//! Sessions under the policies of a repository.

use crate::run::Ran;
use crate::tests::texts::{
    CREATED, DELETE_ABC, FOUND_ABC, FOUND_EMPTY, GET_ABC, GET_EMPTY, GONE, NOT_FOUND, PUT_ABC,
    PUT_EMPTY, WAITING_ABC,
};
use crate::tests::{Setup, check, contents_below, joined, session, usual};
use asset_keeper::MapKeeper;
use disk_model::MemDisk;
use nx_base::Policy;
use repo_model::{Call, Refusal, Reply};
use std::alloc::Global;
use std::process::Abort;
use std::test::Fail;

static REDEPLOY: &str =
    "stores=default\nrepositories=files\nrepo.files.store=default\nrepo.files.policy=redeploy\n";

static NO_REDEPLOY: &str =
    "stores=default\nrepositories=files\nrepo.files.store=default\nrepo.files.policy=no-redeploy\n";

static READ_ONLY: &str =
    "stores=default\nrepositories=files\nrepo.files.store=default\nrepo.files.policy=read-only\n";

static PUT_XY: &str =
    "PUT /repository/files/a/b.txt HTTP/1.1\r\nContent-Type: text/plain\r\nContent-Length: 2\r\n\r\nxy";

static FOUND_XY: &str =
    "HTTP/1.1 200 OK\r\nContent-Type: text/plain\r\nContent-Length: 2\r\n\r\nxy";

static THERE: &str =
    "HTTP/1.1 400 Bad Request\r\nContent-Type: text/plain\r\nContent-Length: 24\r\n\r\nWriteDenied no-redeploy\n";

static THERE_LAST: &str =
    "HTTP/1.1 400 Bad Request\r\nContent-Type: text/plain\r\nContent-Length: 24\r\nConnection: close\r\n\r\nWriteDenied no-redeploy\n";

static READ_ALONE: &str =
    "HTTP/1.1 400 Bad Request\r\nContent-Type: text/plain\r\nContent-Length: 22\r\n\r\nWriteDenied read-only\n";

static READ_ALONE_LAST: &str =
    "HTTP/1.1 400 Bad Request\r\nContent-Type: text/plain\r\nContent-Length: 22\r\nConnection: close\r\n\r\nWriteDenied read-only\n";

#[test]
fn policies_are_obeyed(rt: HostRuntime) -> Result<(), Fail> {
    let alloc = rt.alloc();
    let rows: [(&str, &[&str], &[&str]); 6] = [
        (
            REDEPLOY,
            &[PUT_ABC, PUT_XY, GET_ABC],
            &[CREATED, CREATED, FOUND_XY],
        ),
        (
            NO_REDEPLOY,
            &[PUT_ABC, PUT_ABC, GET_ABC],
            &[CREATED, THERE_LAST],
        ),
        (
            NO_REDEPLOY,
            &[PUT_EMPTY, PUT_EMPTY, GET_EMPTY],
            &[CREATED, THERE, FOUND_EMPTY],
        ),
        (
            NO_REDEPLOY,
            &[PUT_ABC, GET_ABC, DELETE_ABC, PUT_XY, GET_ABC],
            &[CREATED, FOUND_ABC, GONE, CREATED, FOUND_XY],
        ),
        (
            READ_ONLY,
            &[DELETE_ABC, GET_ABC, PUT_EMPTY, PUT_ABC, GET_ABC],
            &[READ_ALONE, NOT_FOUND, READ_ALONE, READ_ALONE_LAST],
        ),
        (READ_ONLY, &[WAITING_ABC, GET_ABC], &[READ_ALONE_LAST]),
    ];
    for (config, input, output) in rows {
        let setup = Setup { config, ..usual() };
        check(&rt, alloc, &setup, input, ("Ok", output))?;
    }
    Ok(())
}

/// Whether the last entry is an upload that wasn't begun, since the policy denies it.
fn ends_denied(ran: &Ran<MemDisk, MapKeeper>, policy: Policy) -> bool {
    let Some(entry) = ran.journal.entry(ran.journal.len().saturating_sub(1)) else {
        return false;
    };
    let begun = matches!(entry.call, Call::Begin(_));
    match entry.reply {
        Reply::Refused(Refusal::WriteDenied { policy: told }) => begun && told == policy,
        _ => false,
    }
}

/// A session whose last upload is denied by the policy: so many entries, these contents, and nothing below `tmp`.
fn check_denied(
    rt: &impl Abort,
    alloc: Global,
    setup: &Setup,
    input: &[&str],
    want: (u64, Policy, &str),
) -> Result<(), Fail> {
    let (entries, policy, stays) = want;
    let input = joined(alloc, input)?;
    let mut ran = session(alloc, setup, &input)?.ran;
    assert_eq!(rt; ran.journal.len(), entries);
    assert!(rt; ends_denied(&ran, policy));
    let bytes = contents_below(alloc, &mut ran.disk, "default", ".bytes")?;
    assert_eq!(rt; bytes.as_slice(), stays.as_bytes());
    let bytes = contents_below(alloc, &mut ran.disk, "tmp", "")?;
    assert_eq!(rt; bytes.len(), 0);
    Ok(())
}

#[test]
fn a_denied_upload_is_one_entry(rt: HostRuntime) -> Result<(), Fail> {
    let alloc = rt.alloc();
    let setup = Setup {
        config: NO_REDEPLOY,
        ..usual()
    };
    let want = (3, Policy::NoRedeploy, "abc");
    check_denied(&rt, alloc, &setup, &[PUT_ABC, PUT_XY], want)?;
    let setup = Setup {
        config: READ_ONLY,
        ..usual()
    };
    check_denied(&rt, alloc, &setup, &[PUT_ABC], (1, Policy::ReadOnly, ""))
}
