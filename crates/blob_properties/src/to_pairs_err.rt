ghost use Rattle.std.specs.Prelude.{◌≡◌};

use nx_base::NoMemory;

/// Why properties have no pairs.
#[derive(Debug, Clone, Copy, PartialEq, Eq, Drop)]
pub enum ToPairsErr {
    /// There would be more than 256 pairs.
    Full,
    /// Memory was refused.
    NoMemory,
}

impl From<NoMemory> for ToPairsErr {
    ghost use Rattle.blob_properties.specs.declared.to_pairs_err.ToPairsErr.TheVariants.{NoMemory};

    ghost from_gives = { λ _ e. e ≡ NoMemory };

    fn from(_: nx_base::NoMemory) -> ToPairsErr {
        ToPairsErr::NoMemory
    }
}
