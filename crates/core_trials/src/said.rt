//! Answers, as the script compares them.

use crate::script::Text;
use nx_base::Asset;
use repo_model::{Cause, Entry, Fault, Refusal, Reply, UploadErr};
use sha1::Sha1;

/// An answer. Of an asset it tells which content has its size and its digest.
#[derive(Clone, Copy, PartialEq, Eq)]
pub enum Said {
    Begun,
    Stored(Text),
    Given(Text),
    Gone,
    NotFound,
    Failed(Fault),
    Broken(Cause),
    /// What the script is never answered.
    Strange,
}

/// What a client is told, what the last entry of the journal has to tell, and for how many calls there has to be one.
#[derive(Clone, Copy)]
pub struct Answer {
    pub said: Said,
    pub noted: Said,
    pub calls: u64,
}

impl Answer {
    /// The answer of the last call of so many.
    pub fn of(said: Said, calls: u64) -> Answer {
        Answer {
            said,
            noted: said,
            calls,
        }
    }
}

/// The content that an asset describes.
pub fn text_in(asset: &Asset) -> Option<Text> {
    [Text::Old, Text::New, Text::Other]
        .into_iter()
        .find(|text| {
            let bytes = text.bytes();
            asset.size == bytes.len() as u64 && asset.sha1 == Sha1::digest(bytes)
        })
}

/// What a PUT is answered that stored this asset.
pub fn stored(asset: &Asset) -> Said {
    match text_in(asset) {
        Some(text) => Said::Stored(text),
        None => Said::Strange,
    }
}

/// What a GET is answered that found this asset.
pub fn given(asset: &Asset) -> Said {
    match text_in(asset) {
        Some(text) => Said::Given(text),
        None => Said::Strange,
    }
}

/// What a call is answered that was refused.
pub fn refused(refusal: Refusal) -> Said {
    match refusal {
        Refusal::NotFound => Said::NotFound,
        Refusal::DiskFault => Said::Failed(Fault::Disk),
        Refusal::KeeperFault => Said::Failed(Fault::Keeper),
        Refusal::NoMemory => Said::Failed(Fault::Memory),
        Refusal::Broken { cause } => Said::Broken(cause),
        _ => Said::Strange,
    }
}

/// What an upload is answered of which a part was not taken.
pub fn not_taken(why: UploadErr) -> Said {
    match why {
        UploadErr::DiskFault => Said::Failed(Fault::Disk),
        UploadErr::NoMemory => Said::Failed(Fault::Memory),
        UploadErr::BodyTooLarge | UploadErr::Dead => Said::Strange,
    }
}

/// What an entry of the journal tells.
pub fn noted_in(entry: &Entry) -> Said {
    match &entry.reply {
        Reply::Begun { .. } => Said::Begun,
        Reply::Stored { asset } => stored(asset),
        Reply::Found { asset } => given(asset),
        Reply::Gone => Said::Gone,
        Reply::Removed | Reply::Reconciled { .. } => Said::Strange,
        Reply::Refused(refusal) => refused(*refusal),
    }
}
