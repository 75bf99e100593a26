use nx_base::Key;
use repo_model::{Begin, Look};

/// What a session asks of the repository.
#[derive(Drop)]
pub enum Ask {
    /// Begins an upload.
    Begin(Begin),
    /// Puts the upload whose content came whole.
    Commit,
    /// Ends the upload whose content is refused.
    Abort,
    /// Looks at the content of a key.
    Look { key: Key, look: Look },
    /// Deletes the content of a key.
    Delete { key: Key },
}
