//! One session of HTTP/1.1 as a machine: it is fed bytes, and says what to ask of the repository and what to write. It has no input
//! and no output of its own: bytes are handed to it ([`Session::feed`]), or a source, from which it then reads once
//! ([`Session::feed_from`]).
//!
//! Whoever drives it calls [`Session::next`] and does what the [`Step`] says: feeds more bytes, makes the call that it asks for and
//! hands the reply over by [`Session::answer`] (or [`Session::local`], where an upload failed), takes the content that it lends
//! ([`Session::body`]), or writes what it says ([`Session::out`]). Of the response to a GET it says the head; the content is
//! written by the driver behind it.
//!
//! What it did is a *history* of marks (crate `session_history`). The contract of each call says how that goes on (`Took`,
//! specs/Taken.antt): of all bytes that were fed the machine took those of the marks, and of the content that it is in what it gave to be borrowed so
//! far; what it said and has still to say is what is said at the marks. None of this depends on the pieces in which the bytes were
//! fed, and so two sessions over the same bytes with the same answers did the same ([`two_sessions`]).
//!
//! A driver that reads by an [`Input`] reads only where the session waits for bytes.
//!
//! A session takes the first 2^40 bytes. It keeps 32,768 bytes, and takes no memory after it was made but for the head that is read.
#![tactic(auto)]

mod answering;
mod asking;
mod body;
mod buffer;
mod filled;
mod filling;
mod input;
mod laws;
mod next;
mod place;
mod response;
mod session;
mod standing;
mod step;

pub use filled::Filled;
pub use input::Input;
pub use laws::two_sessions;
pub use session::Session;
pub use step::Step;

#[cfg(test)]
mod tests;
