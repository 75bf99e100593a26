ghost use Rattle.std.specs.Prelude.{◌≡◌, ◌<◌, ◌+◌, ◌≤◌, ◌⊎◌, ◌↔◌, ℕ, List, [], ◌++◌, length, true, false, Some, None, IsSome, IfOk, IfErr, OnOk, IsErrOf};
ghost use Rattle.nx_io.specs.Causes.{HasCauseWhere};
ghost use Rattle.repo_model.specs.declared.transfer.UploadErr.TheVariants as refused;

use crate::ready::Ready;
use crate::taken::Taken;
use disk_model::{DiskErr, Writer};
use nx_base::StoreName;
use repo_model::{Begin, UploadErr};
use std::mem;

/// For what, and into which store, an upload is.
#[derive(Drop)]
pub struct Target {
    pub begin: Begin,
    pub store: StoreName,
}

/// A content on its way into a temporary file of its own. After a fault of the disk it is dead: each later call says so. It
/// can't be dropped, since it owns its writer: `into_writer` gives it for the disk to take back, and `abort` ends it.
pub struct Upload<W> {
    /// None once it was sealed.
    target: Option<Target>,
    writer: W,
    taken: Taken,
    dead: bool,
}

impl<W: Writer> Upload<W> {
    ghost use Rattle.blob_files.specs.Uploads.{HasTaken, IsReady, IsFault};

    /// Nothing was taken into the file yet.
    pub fn new(begin: Begin, store: StoreName, writer: W) -> Upload<W>
        ensures target { result.target ≡ Some (record { begin = begin; store = store }) }
        ensures writer { result.writer ≡ writer }
        ensures alive { result.dead ≡ false }
        ensures taken { (W.told → W.written writer ≡ []) → HasTaken W.told W.written result [] }
    {
        let target = Target { begin, store };
        Upload {
            target: Some(target),
            writer,
            taken: Taken::new(),
            dead: false,
        }
    }

    /// Appends a part. The content may have 1,073,741,824 bytes: a part beyond is refused, and nothing is taken of it.
    pub fn write(&mut self, part: &[u8]) -> Result<(), UploadErr>
        requires open { IsSome self.old.target }
        // All parts that were accepted, and no others.
        ensures taken { OnOk result ((bytes : List ℕ) → HasTaken W.told W.written self.old bytes → HasTaken W.told W.written self.new (bytes ++ part.now)) }
        // Dead exactly after an earlier fault, and too large exactly where the content would pass the limit.
        ensures dead { IsErrOf result refused.Dead ↔ (self.old.dead ≡ true) }
        ensures too_large { IsErrOf result refused.BodyTooLarge ↔ ((self.old.dead ≡ false) × (1073741824 < self.old.taken.size + length part.now)) }
        ensures unchanged { (IsErrOf result refused.Dead ⊎ IsErrOf result refused.BodyTooLarge) → self.new ≡ self.old }
        // Want of memory leaves what was taken.
        ensures no_memory { IsErrOf result refused.NoMemory → (bytes : List ℕ) → HasTaken W.told W.written self.old bytes → HasTaken W.told W.written self.new bytes }
        ensures cause { HasCauseWhere IsFault (W.faults self.old.writer) (W.faults self.new.writer) result }
        ensures quiet { ¬ (IsErrOf result refused.DiskFault) → W.faults self.new.writer ≡ W.faults self.old.writer }
        ensures died { (self.new.dead ≡ true) ↔ ((self.old.dead ≡ true) ⊎ IsErrOf result refused.DiskFault) }
        ensures target { self.new.target ≡ self.old.target }
    {
        if self.dead {
            return Err(UploadErr::Dead);
        }
        if part.len() as u64 > self.taken.room() {
            return Err(UploadErr::BodyTooLarge);
        }
        match self.writer.write(part) {
            Ok(()) => {
                self.taken.add(part);
                Ok(())
            }
            Err(DiskErr::Failed) => {
                self.dead = true;
                Err(UploadErr::DiskFault)
            }
            Err(DiskErr::NoMemory) => Err(UploadErr::NoMemory),
        }
    }

    /// Seals the file. Then it is ready, with the size and the SHA-1 of all parts, and takes no more.
    pub fn seal(&mut self) -> Result<Ready<W::Sealed>, UploadErr>
        requires open { IsSome self.old.target }
        ensures ready { IfOk result (λ ready. (bytes : List ℕ) → HasTaken W.told W.written self.old bytes → IsReady W.told W.content ready bytes) }
        ensures target { IfOk result (λ ready. self.old.target ≡ Some (record { begin = ready.begin; store = ready.store })) }
        // At most the limit.
        ensures small { IfOk result (λ ready. ready.size ≤ 1073741824) }
        ensures closed { OnOk result (self.new.target ≡ None) }
        ensures dead { IsErrOf result refused.Dead ↔ (self.old.dead ≡ true) }
        ensures unchanged { IsErrOf result refused.Dead → self.new ≡ self.old }
        ensures fits { ¬ (IsErrOf result refused.BodyTooLarge) }
        ensures no_memory { IsErrOf result refused.NoMemory → (bytes : List ℕ) → HasTaken W.told W.written self.old bytes → HasTaken W.told W.written self.new bytes }
        ensures cause { HasCauseWhere IsFault (W.faults self.old.writer) (W.faults self.new.writer) result }
        ensures quiet { ¬ (IsErrOf result refused.DiskFault) → W.faults self.new.writer ≡ W.faults self.old.writer }
        ensures died { (self.new.dead ≡ true) ↔ ((self.old.dead ≡ true) ⊎ IsErrOf result refused.DiskFault) }
        ensures open { IfErr result (λ why. self.new.target ≡ self.old.target) }
    {
        if self.dead {
            return Err(UploadErr::Dead);
        }
        let file = match self.writer.seal() {
            Ok(file) => file,
            Err(DiskErr::Failed) => {
                self.dead = true;
                return Err(UploadErr::DiskFault);
            }
            Err(DiskErr::NoMemory) => return Err(UploadErr::NoMemory),
        };
        let Some(target) = self.target.take() else {
            unreachable!();
        };
        let taken = mem::replace(&mut self.taken, Taken::new());
        Ok(Ready {
            file,
            begin: target.begin,
            store: target.store,
            size: taken.size(),
            sha1: taken.digest(),
        })
    }

    /// The writer, for the disk to take back.
    pub fn into_writer(self) -> W
        ensures { result ≡ self.writer }
    {
        let Upload {
            target: _,
            writer,
            taken: _,
            dead: _,
        } = self;
        writer
    }

    /// Ends its writer without the disk: of an upload whose file is sealed, or that nobody wants any more.
    pub fn abort(self) {
        self.into_writer().abort();
    }
}
