use blob_properties::ToPairsErr;
use disk_model::DiskErr;

/// Why a mark wasn't made, or not taken away.
#[derive(Clone, Copy, Debug, PartialEq, Eq)]
pub enum MarkErr {
    /// The disk refused.
    Disk(DiskErr),
    /// There would be more than 256 pairs. A readable blob never leads to it.
    Full,
    /// Memory was refused for the text.
    NoMemory,
}

impl From<DiskErr> for MarkErr {
    ghost use Rattle.std.specs.Prelude.{◌≡◌};
    ghost use Rattle.soft_delete.specs.declared.mark_err.MarkErr.TheVariants.{Disk};

    ghost from_gives = { λ refusal e. e ≡ Disk refusal };

    fn from(refusal: DiskErr) -> MarkErr {
        MarkErr::Disk(refusal)
    }
}

impl MarkErr {
    ghost use Rattle.std.specs.Prelude.{◌≡◌};
    ghost use Rattle.soft_delete.specs.Marks.{of_text};

    /// What a text that can't be made is.
    pub(crate) fn of_text(refusal: ToPairsErr) -> MarkErr
        ensures { result ≡ of_text refusal }
    {
        match refusal {
            ToPairsErr::Full => MarkErr::Full,
            ToPairsErr::NoMemory => MarkErr::NoMemory,
        }
    }
}
