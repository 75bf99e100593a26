ghost use Rattle.std.specs.Prelude.{◌≡◌, ◌<◌, ◌^◌, IfOk};
ghost use Rattle.blob_properties.specs.Readable.{Readable};
ghost use Rattle.repo_model.specs.Storing.{new_asset};
ghost use Rattle.repo_core.specs.Puts.{props_of};

use blob_properties::{BlobProps, unmarked_text};
use java_props::Pairs;
use nx_base::{Asset, BlobRef, NoMemory};
use repo_model::Upload;
use std::alloc::Global;

/// The text of the properties of a new blob.
pub(crate) fn new_text(alloc: Global, upload: &Upload, timestamp: u64) -> Result<Vec<u8>, NoMemory>
    requires size { upload.now.size < 2 ^ 63 }
    requires timestamp { timestamp < 2 ^ 48 }
    ensures { IfOk result (λ text. Readable text.items (props_of upload.now timestamp)) }
{
    let key = upload.key.try_clone(alloc)?;
    let content_type = upload.content_type.try_clone(alloc)?;
    let props = BlobProps {
        key,
        content_type,
        size: upload.size,
        sha1: upload.sha1,
        timestamp,
        deleted: None,
        others: Pairs::new(alloc),
    };
    match unmarked_text(alloc, &props) {
        Ok(text) => Ok(text),
        Err(_) => Err(NoMemory),
    }
}

/// The asset of a new blob, which was verified at its timestamp and never asked for.
pub(crate) fn new_asset(alloc: Global, upload: &Upload, blob: &BlobRef) -> Result<Asset, NoMemory>
    ensures { IfOk result (λ asset. asset ≡ new_asset upload.now blob.now blob.now.timestamp) }
{
    let content_type = upload.content_type.try_clone(alloc)?;
    Ok(Asset {
        blob: blob.try_clone(alloc)?,
        size: upload.size,
        sha1: upload.sha1,
        content_type,
        verified: blob.timestamp,
        downloaded: None,
    })
}
