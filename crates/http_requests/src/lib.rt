//! The requests that a stream of bytes holds, in the whole of this project's profile of HTTP/1.1.
//!
//! - A request is a head that is refused, or an accepted one with its content: whole, refused, or cut off by the stream's end.
//!   Line ends between requests are dropped. A refused head, a refused content, a cut one and a request that closes end the
//!   list (`Item`, `AreRequests`, specs/Requests.antt).
//! - The list is a relation, [`some_list`] is the law that each stream holds one, and [`one_list`] that it holds no other, up to
//!   the choice between the two causes `BadHead` and `TooManyHeaders`, which is `httparse`'s where a text is no head at all.
//! - What follows an accepted head is a content by its framing (`HoldsBody`, specs/Bodies.antt).
//!
//! Nothing runs here: http_front finds the heads, http_chunks reads the contents, and http_session takes the requests.
#![tactic(auto)]

mod found;
mod laws;

pub use found::some_list;
pub use laws::one_list;
