//! What happens in a session of HTTP/1.1, as one history: the same however the bytes came in pieces.
//!
//! The words: a *mark* is something that came, as a head or a whole content, or an answer that the session was given
//! (`Mark`, specs/Marks.antt). A *phase* is where a session stands after marks (`Phase`, specs/Phases.antt). What is said at a mark,
//! and whether the session ends after it, are those of `http_front` (`answer_at`); what is asked of the repository is an [`Ask`]
//! (`ask_at`, specs/Asking.antt).
//!
//! - `IsHistory` (specs/Histories.antt) says which marks a stream of bytes makes with the answers that a session was given.
//! - [`one_history`]: the same bytes and the same answers make one history. So what a session asks, the contents that it hands out and
//!   what it says are functions of the bytes and the answers alone.
//! - [`requests_of_history`]: where no answer is due, and none ended the session before the bytes do, the history's requests are those
//!   that the bytes hold (`AreRequests`, http_requests).
//! - [`first_requests`]: whatever was answered, the requests that the bytes hold begin with those of the history.
//! - [`requests_go_on`]: where a session stands between requests, the requests that the bytes hold are those of the marks in front, and
//!   then those that the bytes behind them hold.
//!
//! Nothing here runs: the functions are laws.
#![tactic(auto)]

mod ask;
mod laws;

pub use ask::Ask;
pub use laws::{first_requests, one_history, requests_go_on, requests_of_history};
