ghost use Rattle.std.specs.Prelude.{◌≡◌, IsSome, None};

use blob_files::Upload;
use std::mem;

/// An upload that wasn't sealed yet.
pub struct OpenUpload<W> {
    pub upload: Upload<W>,
    ghost open: { IsSome upload.target },
}

/// Puts what is open where nothing is.
pub(crate) fn keep<X>(place: &mut Option<X>, value: Option<X>)
    requires { place.old ≡ None }
    ensures { place.new ≡ value }
{
    match mem::replace(place, value) {
        None => {}
        Some(_before) => unreachable!(),
    }
}
