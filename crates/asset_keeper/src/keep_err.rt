use nx_base::NoMemory;

/// Why a keeper didn't do what it was asked.
#[derive(Clone, Copy, Debug, PartialEq, Eq)]
pub enum KeepErr {
    /// The device failed: its count of faults rose.
    Failed,
    NoMemory,
}

impl From<NoMemory> for KeepErr {
    ghost use Rattle.std.specs.Prelude.{◌≡◌};
    ghost use Rattle.asset_keeper.specs.declared.keep_err.KeepErr.TheVariants as keep;

    ghost from_gives = { λ _ e. e ≡ keep.NoMemory };

    fn from(_: NoMemory) -> KeepErr {
        KeepErr::NoMemory
    }
}
