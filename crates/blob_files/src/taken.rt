ghost use Rattle.std.specs.Prelude.{◌≡◌, ◌+◌, ◌≤◌, ℕ, List, [], ◌++◌, length};
ghost use Rattle.sha1.specs.Sha1.{sha1};

use sha1::Sha1;

/// The most bytes of one content (this project's own).
pub const CONTENT_LIMIT: u64 = 1_073_741_824;

/// The size and the digest of the parts so far.
#[derive(Drop)]
pub struct Taken {
    hasher: Sha1,
    size: u64,
    ghost within: { size ≤ 1073741824 },
}

impl Taken {
    ghost use Rattle.std.specs.Prelude.{◌-◌};
    ghost use Rattle.blob_files.specs.Taken.{IsOf};

    /// Nothing so far.
    pub fn new() -> Taken
        ensures { IsOf result [] }
    {
        Taken {
            hasher: Sha1::new(),
            size: 0,
        }
    }

    /// In bytes.
    pub fn size(&self) -> u64
        ensures { result ≡ self.now.size }
    {
        self.size
    }

    /// How many bytes more a content may have.
    pub fn room(&self) -> u64
        ensures { result ≡ 1073741824 - self.now.size }
    {
        CONTENT_LIMIT - self.size
    }

    /// One part more, for which there is room.
    pub fn add(&mut self, part: &[u8])
        requires { self.old.size + length part.now ≤ 1073741824 }
        ensures taken { (bytes : List ℕ) → IsOf self.old bytes → IsOf self.new (bytes ++ part.now) }
        ensures size { self.new.size ≡ self.old.size + length part.now }
    {
        self.hasher.update(part);
        self.size += part.len() as u64;
    }

    /// The SHA-1 of all parts.
    pub fn digest(self) -> [u8; 20]
        ensures { (bytes : List ℕ) → IsOf self bytes → result ≡ sha1 bytes }
    {
        self.hasher.finalize()
    }
}
