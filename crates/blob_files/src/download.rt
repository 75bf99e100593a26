ghost use Rattle.std.specs.Prelude.{◌≡◌, ◌<◌, ◌+◌, ◌-◌, ◌≤◌, ◌⊎◌, ◌↔◌, ℕ, List, [], ◌++◌, length, take, drop, true, IfOk, IfErr, OnErr, IsErrOf};
ghost use Rattle.nx_io.specs.Causes.{HasCauseWhere};
ghost use Rattle.repo_model.specs.declared.transfer.DownloadErr.TheVariants as refused;

use disk_model::Reader;
use repo_model::DownloadErr;

/// The bytes of a blob on their way out: as many as its asset has. It can't be dropped, since it owns its reader, which
/// `into_reader` gives for the disk to take back.
pub struct Download<R> {
    reader: R,
    /// How many bytes the asset has.
    size: u64,
    /// How many bytes were given.
    given: u64,
    ghost within: { given ≤ size },
}

impl<R: Reader> Download<R> {
    ghost use Rattle.std.specs.Prelude.{Err};
    ghost use Rattle.blob_files.specs.Downloads.{to_come, IsWhole, IsFault, IsShortAt};

    /// Nothing was given yet of so many bytes of the file.
    pub fn new(reader: R, size: u64) -> Download<R>
        ensures reader { result.reader ≡ reader }
        ensures size { result.size ≡ size }
        ensures given { result.given ≡ 0 }
    {
        Download {
            reader,
            size,
            given: 0,
        }
    }

    /// Gives the next bytes into the front of `buf`, and says how many: at least one before the asset's size, where `buf` has
    /// room, and 0 at that size. It takes no memory.
    pub fn read(&mut self, buf: &mut [u8]) -> Result<usize, DownloadErr>
        ensures within { IfOk result (λ n. n ≤ length buf.old) }
        ensures end { IfOk result (λ n. (n ≡ 0) ↔ ((length buf.old ≡ 0) ⊎ (self.old.given ≡ self.old.size))) }
        ensures given { IfOk result (λ n. self.new.given ≡ self.old.given + n) }
        ensures refused { OnErr result (self.new.given ≡ self.old.given) }
        ensures size { self.new.size ≡ self.old.size }
        // The file's bytes in their order, where it tells them.
        ensures bytes { R.told → IfOk result (λ n. (buf.new ≡ take n (to_come R.left self.old) ++ drop n buf.old) × (to_come R.left self.new ≡ drop n (to_come R.left self.old))) }
        ensures whole { R.told → IsWhole R.left self.old → IsWhole R.left self.new }
        // Short only where the reader ended before the size, which a file that tells its bytes and has them all never does.
        ensures short { IfErr result (IsShortAt (R.ended self.new.reader) self.old.given self.old.size) }
        ensures never_short { R.told → IsWhole R.left self.old → IfErr result IsFault }
        ensures cause { HasCauseWhere IsFault (R.faults self.old.reader) (R.faults self.new.reader) result }
        ensures quiet { ¬ (IsErrOf result refused.DiskFault) → R.faults self.new.reader ≡ R.faults self.old.reader }
    {
        let left = self.size - self.given;
        if left == 0 || buf.is_empty() {
            return Ok(0);
        }
        let room = (buf.len() as u64).min(left) as usize;
        match self.reader.read(&mut buf[..room]) {
            Ok(0) => Err(DownloadErr::Short { at: self.given }),
            Ok(count) => {
                self.given += count as u64;
                Ok(count)
            }
            Err(_) => Err(DownloadErr::DiskFault),
        }
    }

    /// The reader, for the disk to take back.
    pub fn into_reader(self) -> R
        ensures { result ≡ self.reader }
    {
        let Download {
            reader,
            size: _,
            given: _,
        } = self;
        reader
    }
}
