use http_front::End;
use session_history::Ask;

/// What to do next.
#[derive(Drop)]
pub enum Step {
    /// Feed more bytes, or say that the input ended.
    Need,
    /// Make this call, and hand its reply over. [`Ask::Abort`] has no reply.
    Ask(Ask),
    /// Take the content that is borrowed, of so many bytes.
    Body { length: usize },
    /// Write what there is to say.
    Say,
    /// Nothing: the session has ended.
    Done(End),
}
