use nx_base::{BlobRef, ContentType, Key, Moment, PolicyName};

/// Why an upload is begun: a client sent it, or a proxy fetches it from its remote.
#[derive(Clone, Copy, Debug, PartialEq, Eq)]
pub enum Kind {
    Put,
    Fetch,
}

/// Whether the content is wanted, or only what is known of it.
#[derive(Clone, Copy, Debug, PartialEq, Eq)]
pub enum Look {
    Get,
    Head,
}

/// The beginning of an upload.
#[derive(Drop)]
pub struct Begin {
    pub key: Key,
    pub content_type: ContentType,
    pub kind: Kind,
}

/// What the remote of a proxy said of a key. `NotAsked`: nobody asked it.
#[derive(Drop)]
pub enum RemoteSaid {
    NotAsked,
    Found {
        content_type: ContentType,
        /// in bytes
        size: u64,
        sha1: [u8; 20],
    },
    Missing,
    Failed,
}

/// What a caller asks of the repository. Times are milliseconds since 1970.
#[derive(Drop)]
pub enum Call {
    /// An upload begins. It gets the store for its content.
    Begin(Begin),
    /// The content of an upload is whole: it becomes the content of the key.
    Put {
        key: Key,
        content_type: ContentType,
        size: u64,
        sha1: [u8; 20],
        moment: Moment,
    },
    /// The content of a key, as far as the remote was asked for it.
    Get {
        key: Key,
        look: Look,
        moment: Moment,
        remote: RemoteSaid,
    },
    /// The key's content is deleted.
    Delete {
        key: Key,
        now: u64,
    },
    /// The cleanup policy takes the key's content.
    Clean {
        key: Key,
        policy: PolicyName,
        now: u64,
    },
    /// A deleted blob is removed for good.
    Remove {
        blob: BlobRef,
        now: u64,
    },
    /// The rows are brought in line with the blobs.
    Reconcile,
}
