//! Numbers that stand still at their greatest value.
ghost use Rattle.std.specs.Prelude.{◌≡◌};
ghost use Rattle.disk_model.specs.Past.{Moves};
ghost use Rattle.disk_model.specs.Disk.{TakesBack};
ghost use Rattle.disk_model.specs.Plan.{one_more};

/// The clock after one call more.
pub fn next(calls: u64) -> u64
    ensures { Moves calls result }
{
    if calls < u64::MAX { calls + 1 } else { calls }
}

/// A count that rises by one.
pub fn one_more(count: u64) -> u64
    ensures { result ≡ one_more count }
{
    count.saturating_add(1)
}

/// The count after a part was taken back.
pub fn with_part(faults: u64, part: u64) -> u64
    ensures { TakesBack faults result part }
{
    if part == 0 { faults } else { one_more(faults) }
}
