/// What a repository is.
#[derive(Clone, Copy, Debug, PartialEq, Eq)]
pub enum RepoKind {
    /// Its contents are uploaded.
    Hosted,
    /// Its contents are fetched from a remote repository.
    Proxy,
}
