use crate::blob_props::BlobProps;

/// What a properties file says.
#[derive(Drop)]
pub enum PropsRead {
    /// It is readable.
    Good(BlobProps),
    /// It isn't.
    Unreadable,
}
