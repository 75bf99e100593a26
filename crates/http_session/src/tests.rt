//! Sessions over a pipeline that comes in pieces.
ghost use Rattle.std.specs.Prelude.{◌<◌};

use crate::{Session, Step};
use http_front::End;
use nx_base::{Asset, BlobId, BlobRef, ContentType, StoreName};
use nx_io::{MemSource, Source};
use repo_model::{Refusal, Reply, UploadErr};
use session_history::Ask;
use std::alloc::Global;
use std::test::Fail;

/// Six requests, behind which the session ends, and bytes that nobody reads.
static PIPELINE: &str =
    "\r\n\nPUT /repository/files/a HTTP/1.1\r\nExpect: 100-continue\r\nContent-Length: 5\r\n\r\nhello\r\nPUT /repository/files/b HTTP/1.1\r\nTransfer-Encoding: chunked\r\n\r\n2;x\r\nab\r\n1\r\nc\r\n0\r\nT: t\r\n\r\nGET /repository/files/a HTTP/1.1\n\nHEAD /repository/files/a HTTP/1.1\r\n\r\nDELETE /repository/files/a HTTP/1.1\r\n\r\nGET /repository/files/a HTTP/1.1\r\nConnection: close\r\n\r\nGET /behind";

/// What it asks, lends and says.
static DONE: &str =
    "<begin>HTTP/1.1 100 Continue\r\n\r\nhello<commit>HTTP/1.1 201 Created\r\nContent-Length: 0\r\n\r\n<begin>abc<commit>HTTP/1.1 201 Created\r\nContent-Length: 0\r\n\r\n<look>HTTP/1.1 200 OK\r\nContent-Type: text/plain\r\nContent-Length: 3\r\n\r\n<look>HTTP/1.1 200 OK\r\nContent-Type: text/plain\r\nContent-Length: 3\r\n\r\n<delete>HTTP/1.1 204 No Content\r\n\r\n<look>HTTP/1.1 200 OK\r\nContent-Type: text/plain\r\nContent-Length: 3\r\nConnection: close\r\n\r\n<closed>";

/// Sessions in one piece, and what they ask, lend and say.
static ROWS: [(&str, &str); 8] = [
    ("", "<clean>"),
    ("\r\n", "<clean>"),
    ("GET /", "<cut>"),
    (
        "PUT /repository/files/a HTTP/1.1\r\nContent-Length: 5\r\n\r\nhel",
        "<begin>hel<cut>",
    ),
    (
        "PUT /repository/files/a HTTP/1.1\r\nTransfer-Encoding: chunked\r\n\r\n1\r\na\r\nx\r\n",
        "<begin>a<abort>HTTP/1.1 400 Bad Request\r\nContent-Type: text/plain\r\nContent-Length: 11\r\nConnection: close\r\n\r\nBadChunk 6\n<closed>",
    ),
    (
        "HEAD /b HTTP/1.1\r\n\r\n",
        "HTTP/1.1 400 Bad Request\r\nContent-Type: text/plain\r\nContent-Length: 8\r\nConnection: close\r\n\r\n<closed>",
    ),
    (
        "PUT /repository/full/a HTTP/1.1\r\nContent-Length: 0\r\n\r\nGET /",
        "<begin>HTTP/1.1 503 Service Unavailable\r\nContent-Type: text/plain\r\nContent-Length: 12\r\n\r\nJournalFull\n<cut>",
    ),
    (
        "PUT /repository/full/a HTTP/1.1\r\nContent-Length: 1\r\n\r\naGET /",
        "<begin>HTTP/1.1 503 Service Unavailable\r\nContent-Type: text/plain\r\nContent-Length: 12\r\nConnection: close\r\n\r\nJournalFull\n<closed>",
    ),
];

/// A content of three bytes.
fn asset(alloc: Global) -> Result<Asset, Fail> {
    Ok(Asset {
        blob: BlobRef {
            store: StoreName::parse(alloc, b"default")?,
            id: BlobId::made(1, &[0; 10]),
            timestamp: 1,
        },
        size: 3,
        sha1: [0; 20],
        content_type: ContentType::parse(alloc, b"text/plain")?,
        verified: 1,
        downloaded: None,
    })
}

/// The reply to what is asked, and its name. In the repository `full` no upload begins.
fn reply(alloc: Global, ask: &Ask) -> Result<(Option<Reply>, &'static str), Fail> {
    match ask {
        Ask::Begin(begin) => {
            if begin.key.repo.as_bytes() == b"full".as_slice() {
                return Ok((Some(Reply::Refused(Refusal::JournalFull)), "<begin>"));
            }
            let store = StoreName::parse(alloc, b"default")?;
            Ok((Some(Reply::Begun { store }), "<begin>"))
        }
        Ask::Commit => {
            let asset = asset(alloc)?;
            Ok((Some(Reply::Stored { asset }), "<commit>"))
        }
        Ask::Abort => Ok((None, "<abort>")),
        Ask::Look { .. } => {
            let asset = asset(alloc)?;
            Ok((Some(Reply::Found { asset }), "<look>"))
        }
        Ask::Delete { .. } => Ok((Some(Reply::Gone), "<delete>")),
    }
}

fn end_name(end: End) -> &'static str {
    match end {
        End::Clean => "<clean>",
        End::Closed => "<closed>",
        End::Cut => "<cut>",
        End::NoMemory => "<memory>",
        _ => "<other>",
    }
}

/// A source of the text, which gives at most so many bytes a call.
fn source(alloc: Global, text: &str, piece: usize) -> Result<MemSource, Fail>
    requires { 0 < piece }
{
    let bytes = Vec::from_slice(alloc, text.as_bytes())?;
    Ok(MemSource::new(bytes, piece, Vec::new(alloc)))
}

/// Hands over the next bytes of a source: the session reads them itself, or is fed them.
fn more(session: &mut Session, source: &mut MemSource, itself: bool) -> Result<(), Fail> {
    if itself && session.has_room() {
        session.feed_from(source)?;
        return Ok(());
    }
    let mut piece = [0u8; 1024];
    let count = source.read(&mut piece)?;
    if count == 0 {
        session.end_of_input();
    } else {
        session.feed(&piece[..count]);
    }
    Ok(())
}

/// What a session asks, lends and says that is handed the bytes of a source.
fn done(alloc: Global, mut source: MemSource, itself: bool) -> Result<Vec<u8>, Fail> {
    let mut log = Vec::new(alloc);
    let mut session = Session::new(alloc)?;
    for _ in 0..10_000_u32 {
        if session.awaits_answer() {
            break;
        }
        match session.next() {
            Step::Need => more(&mut session, &mut source, itself)?,
            Step::Ask(ask) => {
                let (reply, name) = reply(alloc, &ask)?;
                log.extend_from_slice(name.as_bytes())?;
                if let Some(reply) = reply {
                    session.answer(&reply);
                }
            }
            Step::Body { length: _ } => {
                log.extend_from_slice(session.body())?;
                session.body_taken();
            }
            Step::Say => {
                log.extend_from_slice(session.out())?;
                session.said();
            }
            Step::Done(end) => {
                log.extend_from_slice(end_name(end).as_bytes())?;
                break;
            }
        }
    }
    Ok(log)
}

#[test]
fn every_cut(rt: HostRuntime) -> Result<(), Fail> {
    let alloc = rt.alloc();
    for piece in 1..=PIPELINE.len() {
        let fed = done(alloc, source(alloc, PIPELINE, piece)?, false)?;
        assert!(rt; fed.as_slice() == DONE.as_bytes(), "pieces of {piece}");
        let read = done(alloc, source(alloc, PIPELINE, piece)?, true)?;
        assert!(rt; read.as_slice() == DONE.as_bytes(), "reads of {piece}");
    }
    Ok(())
}

#[test]
fn rows(rt: HostRuntime) -> Result<(), Fail> {
    let alloc = rt.alloc();
    for (bytes, want) in &ROWS {
        let log = done(alloc, source(alloc, bytes, 100_000)?, true)?;
        assert!(rt; log.as_slice() == want.as_bytes(), "at {bytes:?}");
    }
    Ok(())
}

#[test]
fn failures(rt: HostRuntime) -> Result<(), Fail> {
    let alloc = rt.alloc();
    let mut session = Session::new(alloc)?;
    session.feed(b"PUT /repository/files/a HTTP/1.1\r\nContent-Length: 5\r\n\r\nhello");
    assert!(rt; !session.awaits_answer());
    assert!(rt; matches!(session.next(), Step::Ask(Ask::Begin(_))));
    let store = StoreName::parse(alloc, b"default")?;
    session.answer(&Reply::Begun { store });
    assert!(rt; !session.awaits_answer());
    assert!(rt; matches!(session.next(), Step::Body { length: 5 }));
    session.local(UploadErr::DiskFault);
    assert!(rt; !session.awaits_answer());
    assert!(rt; matches!(session.next(), Step::Say));
    assert!(rt; session.out().starts_with(b"HTTP/1.1 500 "));
    session.said();
    assert!(rt; !session.awaits_answer());
    assert!(rt; matches!(session.next(), Step::Done(End::Closed)));
    Ok(())
}
