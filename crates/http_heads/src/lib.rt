//! The heads of HTTP/1.1 requests in the whole of this project's profile, and the heads of responses.
//!
//! - A *head* is the shortest prefix of the bytes, behind line ends that are dropped, that ends with an empty line
//!   (specs/Cut.antt). It has at most 16,384 bytes (this project's own limit).
//! - [`read_head`] reads a text as one head: as `httparse` reads it with room for 64 fields (RFC 9112, sections 2 to 5), and
//!   then by its method, its target and its fields (`judge`, specs/Head.antt). Its contract is one relation, `GivesHead`, with
//!   a line for each answer; a text that is refused is refused for the first cause, in the order of [`HeadErr`].
//! - Only the choice between two causes is left to `httparse`: a text that is no head of at most 64 fields is `BadHead` only
//!   where it is no head at all, and `TooManyHeaders` only where it is no head of so few fields.
//! - The fields are kept in a map by their names, and looked up there. No head that `httparse` so reads has a field that the
//!   map refuses.
//! - A *response* is its head (`head_of`, specs/Response.antt; RFC 9112, sections 4 to 6) and its body. A refusal is a
//!   status and words (`Why`); one function says for each cause which.
//!
//! Nothing here waits, and no text makes it stop: each call answers for all bytes.
#![tactic(auto)]

mod accepted;
mod answered;
mod body_err;
mod cut;
mod framing;
mod framing_rule;
mod head;
mod head_err;
mod kept;
mod method;
mod options;
mod parse;
mod reason;
mod refusal;
mod refusal_words;
mod response;
mod target;
mod words;

pub use answered::some_answer;
pub use body_err::BodyErr;
pub use cut::{blank_len, head_len};
pub use framing::Framing;
pub use head::{HEAD_LIMIT, Head, read_head};
pub use head_err::HeadErr;
pub use method::Method;
pub use refusal_words::RefusalWords;
pub use response::{refusal_response, response_head};
