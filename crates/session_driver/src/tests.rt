//! Sessions over a source and a sink in memory, with a repository that counts its calls.
ghost use Rattle.std.specs.Prelude.{◌<◌};

use crate::{Repository, run_session};
use http_front::{End, Unsaid};
use nx_base::{Key, StoreName};
use nx_io::{Failed, MemSink, MemSource, Sink, put_all};
use repo_model::{Begin, Look, Refusal, Reply, UploadErr};
use std::alloc::Global;
use std::process::Abort;
use std::test::Fail;

/// Six requests, behind which the session ends, and bytes that nobody reads.
static PIPELINE: &str =
    "PUT /repository/files/a HTTP/1.1\r\nContent-Length: 5\r\n\r\nhello\r\nPUT /repository/files/b HTTP/1.1\r\nTransfer-Encoding: chunked\r\n\r\n2;x\r\nab\r\n1\r\nc\r\n0\r\nT: t\r\n\r\nGET /repository/files/a HTTP/1.1\n\nHEAD /repository/files/a HTTP/1.1\r\n\r\nDELETE /repository/files/a HTTP/1.1\r\n\r\nGET /repository/files/a HTTP/1.1\r\nConnection: close\r\n\r\nGET /behind";

static SAID: &str =
    "HTTP/1.1 204 No Content\r\n\r\nHTTP/1.1 204 No Content\r\n\r\nHTTP/1.1 404 Not Found\r\nContent-Type: text/plain\r\nContent-Length: 9\r\n\r\nNotFound\nHTTP/1.1 404 Not Found\r\nContent-Type: text/plain\r\nContent-Length: 9\r\n\r\nHTTP/1.1 204 No Content\r\n\r\nHTTP/1.1 404 Not Found\r\nContent-Type: text/plain\r\nContent-Length: 9\r\nConnection: close\r\n\r\nNotFound\n";

static EXPECTS: &str =
    "PUT /repository/files/a HTTP/1.1\r\nExpect: 100-continue\r\nContent-Length: 5\r\n\r\nhello";

static EXPECTS_NONE: &str =
    "PUT /repository/files/a HTTP/1.1\r\nExpect: 100-continue\r\nContent-Length: 0\r\n\r\n";

static BAD_CHUNK: &str =
    "PUT /repository/files/a HTTP/1.1\r\nTransfer-Encoding: chunked\r\n\r\n2\r\nab\r\nx\r\n";

/// Finds nothing, and answers each put and each deletion alike.
#[derive(Drop)]
struct Counts {
    alloc: Global,
    /// The bytes of all contents.
    length: u64,
    puts: u64,
    /// Uploads that were ended without a put.
    given_up: u64,
}

impl Repository for Counts {
    ghost Answers = { λ from to item answer. Unit {0} };

    ghost Uploads = { λ from to head content. Unit {0} };

    ghost Looked = { λ from to head reply. Unit {0} };

    ghost Fails = { λ from to. Unit {0} };

    fn refused(&mut self) {}

    fn begin(&mut self, _begin: Begin) -> Result<Reply, UploadErr> {
        match StoreName::parse(self.alloc, b"default") {
            Ok(store) => Ok(Reply::Begun { store }),
            Err(_) => Err(UploadErr::NoMemory),
        }
    }

    fn take(&mut self, part: &[u8]) -> Result<(), UploadErr> {
        self.length = self.length.saturating_add(part.len() as u64);
        Ok(())
    }

    fn commit(&mut self) -> Result<Reply, UploadErr> {
        self.puts = self.puts.saturating_add(1);
        Ok(Reply::Gone)
    }

    fn abort(&mut self) {
        self.given_up = self.given_up.saturating_add(1);
    }

    fn cut(&mut self) {
        self.given_up = self.given_up.saturating_add(1);
    }

    fn look(&mut self, _key: Key, _look: Look) -> Reply {
        Reply::Refused(Refusal::NotFound)
    }

    fn send<K: Sink>(&mut self, prefix: &[u8], output: &mut K) -> Result<(), Unsaid> {
        match put_all(output, prefix) {
            Ok(()) => Ok(()),
            Err(Failed) => Err(Unsaid::WriteFault),
        }
    }

    fn delete(&mut self, _key: Key) -> Reply {
        Reply::Gone
    }
}

/// How a session ended, what it said, how many bytes of content came, and how many uploads were put and given up.
type Want = (End, &'static str, u64, u64, u64);

/// Whether a session over these bytes, of which at most `piece` come at once, ends so. The calls of the source and of the sink with
/// those numbers fail.
fn runs_to(
    alloc: Global,
    bytes: &str,
    piece: usize,
    read_fault: Option<u64>,
    write_fault: Option<u64>,
    want: Want,
) -> Result<bool, Fail>
    requires { 0 < piece }
{
    let mut counts = Counts {
        alloc,
        length: 0,
        puts: 0,
        given_up: 0,
    };
    let input = Vec::from_slice(alloc, bytes.as_bytes())?;
    let mut reads = Vec::new(alloc);
    if let Some(call) = read_fault {
        reads.push(call)?;
    }
    let mut writes = Vec::new(alloc);
    if let Some(call) = write_fault {
        writes.push(call)?;
    }
    let mut input = MemSource::new(input, piece, reads);
    let mut output = MemSink::new(alloc, 1024, writes)?;
    let end = run_session(alloc, &mut counts, &mut input, &mut output);
    let same = end == want.0 && output.bytes() == want.1.as_bytes();
    Ok(same && counts.length == want.2 && counts.puts == want.3 && counts.given_up == want.4)
}

#[test]
fn pieces(rt: HostRuntime) -> Result<(), Fail> {
    let alloc = rt.alloc();
    for piece in 1..PIPELINE.len() {
        let want = (End::Closed, SAID, 8, 2, 0);
        assert!(rt;
            runs_to(alloc, PIPELINE, piece, None, None, want)?,
            "pieces of {piece}"
        );
    }
    Ok(())
}

#[test]
fn ends(rt: HostRuntime) -> Result<(), Fail> {
    let alloc = rt.alloc();
    assert!(rt; runs_to(alloc, "", 9, None, None, (End::Clean, "", 0, 0, 0))?);
    assert!(rt; runs_to(alloc, "GET /", 9, None, None, (End::Cut, "", 0, 0, 0))?);
    let cut = "PUT /repository/files/a HTTP/1.1\r\nContent-Length: 5\r\n\r\nhel";
    assert!(rt; runs_to(alloc, cut, 9, None, None, (End::Cut, "", 3, 0, 1))?);
    let refused =
        "HTTP/1.1 400 Bad Request\r\nContent-Type: text/plain\r\nContent-Length: 11\r\nConnection: close\r\n\r\nBadChunk 7\n";
    let stopped = (End::Closed, refused, 2, 0, 1);
    assert!(rt; runs_to(alloc, BAD_CHUNK, 9, None, None, stopped)?);
    Ok(())
}

#[test]
fn faults(rt: HostRuntime) -> Result<(), Fail> {
    let alloc = rt.alloc();
    let read = (End::ReadFault, "", 0, 0, 0);
    assert!(rt; runs_to(alloc, PIPELINE, 1000, Some(0), None, read)?);
    // Who can't be told to go on is given up, or put where it has no content.
    let unsaid = (End::WriteFault, "", 0, 0, 1);
    assert!(rt; runs_to(alloc, EXPECTS, 1000, None, Some(0), unsaid)?);
    let put = (End::WriteFault, "", 0, 1, 0);
    assert!(rt; runs_to(alloc, EXPECTS_NONE, 1000, None, Some(0), put)?);
    let cut = (End::ReadFault, "HTTP/1.1 100 Continue\r\n\r\n", 0, 0, 1);
    assert!(rt; runs_to(alloc, EXPECTS, 77, Some(1), None, cut)?);
    Ok(())
}
