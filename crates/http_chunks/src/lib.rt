//! The chunked body of a message in HTTP/1.1 (RFC 9112, section 7.1), as its bytes come.
//!
//! - A *body* is chunks, a last size line, lines that are dropped, and an empty line. A chunk is a size line, so many bytes
//!   of content, at least one, and CR LF. Size lines are those that [`httparse`] reads. Its *framing* is all but content.
//! - The limits are this project's own: a size line has at most 1,024 bytes with its end, the lines after the last size line
//!   have at most 16,384 with the empty one, and the content has at most 1,073,741,824.
//! - A *reading* (`Reading`, `Holds` in specs/Reading.antt) is what a stream holds where a body is wanted: a whole one, with
//!   its content and what follows it; one that is refused, with its place; one that would be too large; or one that the
//!   stream ends in. [`some_reading`] says that there is one, and [`laws`] that there is
//!   no other, and that no more bytes change a body that is whole or refused.
//! - [`Chunks`] says of the next bytes how many are framing or content. Its contract speaks of all that it took before, so
//!   that the steps say the same in whatever pieces the bytes come ([`laws::any_pieces`]).
//!
//! Nothing here takes memory or waits, and no bytes make it stop: each call answers for all bytes.
#![tactic(auto)]

mod chunk_step;
mod chunks;
mod found;
pub mod laws;
mod line_feed;
mod place;
mod size_line;

pub use chunk_step::ChunkStep;
pub use chunks::Chunks;
pub use found::some_reading;
