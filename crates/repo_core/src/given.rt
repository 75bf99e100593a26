ghost use Rattle.std.specs.Prelude.{◌≡◌, Some, None, IfOk};
ghost use Rattle.std.specs.Option.{ForSome};

use blob_files::Download;
use nx_base::{Asset, BlobRef, NoMemory};
use std::alloc::Global;

/// The bytes of a blob on their way out, and which blob it is.
pub struct Opened<R> {
    pub download: Download<R>,
    pub blob: BlobRef,
}

/// A content that is given out: its asset, a copy of that for the journal, and its bytes where they are wanted.
pub struct Given<R> {
    pub asset: Asset,
    pub copy: Asset,
    pub opened: Option<Opened<R>>,
    ghost copied: { copy ≡ asset },
    ghost of_blob: { ForSome opened (λ o. o.blob ≡ asset.blob) },
}

/// What is known of a content, without its bytes.
pub(crate) fn known<R>(alloc: Global, asset: Asset) -> Result<Given<R>, NoMemory>
    ensures asset { IfOk result (λ given. given.asset ≡ asset) }
    ensures opened { IfOk result (λ given. given.opened ≡ None) }
{
    let copy = asset.try_clone(alloc)?;
    Ok(Given {
        asset,
        copy,
        opened: None,
    })
}
