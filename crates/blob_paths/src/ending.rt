/// Which of a blob's two files a name is that of.
#[derive(Clone, Copy, Debug, PartialEq, Eq)]
pub enum Ending {
    /// Its content.
    Bytes,
    /// Its properties.
    Properties,
}

impl Ending {
    ghost use Rattle.std.specs.Prelude.{◌≡◌};
    ghost use Rattle.blob_paths.specs.Places.{ending_of};

    /// What stands behind the place in the file's name.
    pub fn text(self) -> &'static [u8]
        ensures { result.now ≡ ending_of self }
    {
        match self {
            Ending::Bytes => b".bytes",
            Ending::Properties => b".properties",
        }
    }
}
