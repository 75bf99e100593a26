//! Requests, and what they are answered.

pub(crate) static PUT_ABC: &str =
    "PUT /repository/files/a/b.txt HTTP/1.1\r\nHost: h\r\nContent-Type: text/plain\r\nContent-Length: 3\r\n\r\nabc";

pub(crate) static GET_ABC: &str = "GET /repository/files/a/b.txt HTTP/1.1\r\n\r\n";

pub(crate) static PUT_EMPTY: &str = "PUT /repository/files/e HTTP/1.1\r\nContent-Length: 0\r\n\r\n";

pub(crate) static GET_EMPTY: &str = "GET /repository/files/e HTTP/1.1\r\n\r\n";

pub(crate) static GET_NONE: &str = "GET /repository/files/none HTTP/1.1\r\n\r\n";

pub(crate) static DELETE_ABC: &str = "DELETE /repository/files/a/b.txt HTTP/1.1\r\n\r\n";

pub(crate) static HEAD_ABC: &str = "HEAD /repository/files/a/b.txt HTTP/1.1\r\n\r\n";

pub(crate) static HEAD_NONE: &str = "HEAD /repository/files/none HTTP/1.1\r\n\r\n";

pub(crate) static CHUNKED_ABC: &str =
    "PUT /repository/files/a/b.txt HTTP/1.1\r\nContent-Type: text/plain\r\nTransfer-Encoding: chunked\r\n\r\n2;x\r\nab\r\n1\r\nc\r\n0\r\nT: t\r\n\r\n";

pub(crate) static WAITING_ABC: &str =
    "PUT /repository/files/a/b.txt HTTP/1.1\r\nContent-Type: text/plain\r\nExpect: 100-continue\r\nContent-Length: 3\r\n\r\nabc";

pub(crate) static BAD_CHUNK: &str =
    "PUT /repository/files/a HTTP/1.1\r\nExpect: 100-continue\r\nTransfer-Encoding: chunked\r\n\r\n1\r\na\r\nx\r\n";

pub(crate) static CLOSING_ABC: &str =
    "GET /repository/files/a/b.txt HTTP/1.1\r\nConnection: a, Close\r\n\r\n";

pub(crate) static OLD_NONE: &str = "GET /repository/files/none HTTP/1.0\r\n\r\n";

pub(crate) static BOTH: &str =
    "PUT /repository/files/a HTTP/1.1\r\nContent-Length: 3\r\nTransfer-Encoding: chunked\r\n\r\n3\r\nabc\r\n0\r\n\r\n";

pub(crate) static POST: &str = "POST /repository/files/a HTTP/1.1\r\n\r\n";

pub(crate) static PUT_ELSEWHERE: &str =
    "PUT /repository/other/a HTTP/1.1\r\nExpect: 100-continue\r\nContent-Length: 3\r\n\r\nabc";

pub(crate) static PUT_NOTHING_ELSEWHERE: &str =
    "PUT /repository/other/a HTTP/1.1\r\nContent-Length: 0\r\n\r\n";

pub(crate) static DELETE_ELSEWHERE: &str = "DELETE /repository/other/a HTTP/1.1\r\n\r\n";

pub(crate) static NO_HEAD: &str = "GET  / HTTP/1.1\r\n\r\n";

pub(crate) static CREATED: &str = "HTTP/1.1 201 Created\r\nContent-Length: 0\r\n\r\n";

pub(crate) static FOUND_ABC: &str =
    "HTTP/1.1 200 OK\r\nContent-Type: text/plain\r\nContent-Length: 3\r\n\r\nabc";

pub(crate) static FOUND_EMPTY: &str =
    "HTTP/1.1 200 OK\r\nContent-Type: application/octet-stream\r\nContent-Length: 0\r\n\r\n";

pub(crate) static NOT_FOUND: &str =
    "HTTP/1.1 404 Not Found\r\nContent-Type: text/plain\r\nContent-Length: 9\r\n\r\nNotFound\n";

pub(crate) static STAMPS_USED: &str =
    "HTTP/1.1 409 Conflict\r\nContent-Type: text/plain\r\nContent-Length: 11\r\n\r\nStampsUsed\n";

pub(crate) static CONTINUE: &str = "HTTP/1.1 100 Continue\r\n\r\n";

pub(crate) static GONE: &str = "HTTP/1.1 204 No Content\r\n\r\n";

pub(crate) static FOUND_ABC_BARE: &str =
    "HTTP/1.1 200 OK\r\nContent-Type: text/plain\r\nContent-Length: 3\r\n\r\n";

pub(crate) static NOT_FOUND_BARE: &str =
    "HTTP/1.1 404 Not Found\r\nContent-Type: text/plain\r\nContent-Length: 9\r\n\r\n";

pub(crate) static FOUND_ABC_LAST: &str =
    "HTTP/1.1 200 OK\r\nContent-Type: text/plain\r\nContent-Length: 3\r\nConnection: close\r\n\r\nabc";

pub(crate) static NOT_FOUND_LAST: &str =
    "HTTP/1.1 404 Not Found\r\nContent-Type: text/plain\r\nContent-Length: 9\r\nConnection: close\r\n\r\nNotFound\n";

pub(crate) static BAD_CHUNK_LAST: &str =
    "HTTP/1.1 400 Bad Request\r\nContent-Type: text/plain\r\nContent-Length: 11\r\nConnection: close\r\n\r\nBadChunk 6\n";

pub(crate) static BOTH_FRAMINGS: &str =
    "HTTP/1.1 400 Bad Request\r\nContent-Type: text/plain\r\nContent-Length: 13\r\nConnection: close\r\n\r\nBothFramings\n";

pub(crate) static BAD_METHOD: &str =
    "HTTP/1.1 405 Method Not Allowed\r\nContent-Type: text/plain\r\nContent-Length: 10\r\nAllow: GET, HEAD, PUT, DELETE\r\nConnection: close\r\n\r\nBadMethod\n";

pub(crate) static UNKNOWN_REPO: &str =
    "HTTP/1.1 404 Not Found\r\nContent-Type: text/plain\r\nContent-Length: 12\r\n\r\nUnknownRepo\n";

pub(crate) static UNKNOWN_REPO_LAST: &str =
    "HTTP/1.1 404 Not Found\r\nContent-Type: text/plain\r\nContent-Length: 12\r\nConnection: close\r\n\r\nUnknownRepo\n";

pub(crate) static BAD_HEAD: &str =
    "HTTP/1.1 400 Bad Request\r\nContent-Type: text/plain\r\nContent-Length: 8\r\nConnection: close\r\n\r\nBadHead\n";

pub(crate) static DISK_FAULT_LAST: &str =
    "HTTP/1.1 500 Internal Server Error\r\nContent-Type: text/plain\r\nContent-Length: 10\r\nConnection: close\r\n\r\nDiskFault\n";

pub(crate) static KEEPER_FAULT: &str =
    "HTTP/1.1 500 Internal Server Error\r\nContent-Type: text/plain\r\nContent-Length: 12\r\n\r\nKeeperFault\n";

pub(crate) static BROKEN_KEEPER: &str =
    "HTTP/1.1 503 Service Unavailable\r\nContent-Type: text/plain\r\nContent-Length: 16\r\n\r\nBroken Keeper 1\n";

pub(crate) static JOURNAL_FULL: &str =
    "HTTP/1.1 503 Service Unavailable\r\nContent-Type: text/plain\r\nContent-Length: 12\r\n\r\nJournalFull\n";
