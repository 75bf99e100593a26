ghost use Rattle.std.specs.Prelude.{◌≡◌, IfOk};
ghost use Rattle.blob_paths.specs.declared.ending.Ending.TheVariants as endings;
ghost use Rattle.blob_paths.specs.Places.{place_of, file_at, IsOutsideTmp};

use crate::ending::Ending;
use crate::place::{file_name, location};
use nx_base::{BlobRef, Layout, Name, NoMemory};
use std::alloc::Global;

/// The place of a blob with the names of its two files, neither of which lies in `tmp`.
#[derive(Drop)]
pub struct BlobFiles {
    place: Name,
    bytes: Name,
    properties: Name,
    ghost bytes_is: { bytes ≡ file_at place endings.Bytes },
    ghost properties_is: { properties ≡ file_at place endings.Properties },
    ghost bytes_outside: { IsOutsideTmp (file_at place endings.Bytes) },
    ghost properties_outside: { IsOutsideTmp (file_at place endings.Properties) },
}

impl BlobFiles {
    /// Those of a blob in a store of that layout.
    pub fn of(alloc: Global, blob: &BlobRef, layout: Layout) -> Result<BlobFiles, NoMemory>
        requires volume { layout ≡ Layout.Volume }
        ensures { IfOk result (λ files. files.place ≡ place_of blob.now) }
    {
        let place = location(alloc, blob, layout)?;
        let bytes = file_name(alloc, &place, Ending::Bytes)?;
        let properties = file_name(alloc, &place, Ending::Properties)?;
        Ok(BlobFiles {
            place,
            bytes,
            properties,
        })
    }

    /// The name of its content.
    pub fn bytes(&self) -> &Name
        ensures { result.now ≡ file_at self.now.place endings.Bytes }
    {
        &self.bytes
    }

    /// The name of its properties.
    pub fn properties(&self) -> &Name
        ensures { result.now ≡ file_at self.now.place endings.Properties }
    {
        &self.properties
    }
}
