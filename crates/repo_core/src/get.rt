ghost use Rattle.std.specs.Prelude.{◌≡◌, ◌≢◌, ℕ, length, slice_get, Err, IfOk, IfErr, IsSome, Option, Some, None};
ghost use Rattle.repo_model.specs.State.{State};
ghost use Rattle.repo_model.specs.Plain.{config_of};
ghost use Rattle.repo_model.specs.declared.call.Look.TheVariants as looks;
ghost use Rattle.repo_model.specs.declared.reply.Refusal.TheVariants as refusal;
ghost use Rattle.repo_core.specs.Asks.{looks_at};
ghost use Rattle.repo_core.specs.Called.{Called};
ghost use Rattle.repo_core.specs.Devices.{devices};
ghost use Rattle.repo_core.specs.Parts.{IsQuiet};
ghost use Rattle.repo_core.specs.Standing.{Tracks};
ghost use Rattle.repo_core.specs.Survives.{Survives};
ghost use Rattle.repo_core.specs.Got.{IsGotFor, GotOpened, GotFile, GotContent};
ghost use Rattle.repo_core.specs.Looking.{HoldsAfter};
ghost use Rattle.repo_core.specs.Why.{WhyNotGiven};

use crate::end::{answer_of, cause_of};
use crate::entries::refused;
use crate::getting::give;
use crate::repository::Core;
use crate::telling::{Told, look_entry, tell};
use asset_keeper::Keeper;
use blob_files::Download;
use disk_model::Disk;
use nx_base::{Key, Moment};
use repo_model::{GotOf, Look, Refusal};

/// What a look gave: the asset, and with it the bytes on their way out where they are wanted.
pub type Got<R> = GotOf<Download<R>>;

impl<D: Disk, T: Keeper> Core<D, T> {
    /// Gives the content of a key of a hosted repository: for a HEAD what is known of it, and for a GET its bytes too. Then the
    /// download is noted in the row, and the caller holds the blob until [`Core::end_get`].
    pub fn get(
        &mut self,
        caller: u32,
        key: Key,
        look: Look,
        moment: Moment,
    ) -> Result<Got<D::Reader>, Refusal>
        // The caller holds nothing yet.
        requires caller { slice_get self.old.holds caller ≡ Some None }
        ensures called { Called (devices D.Disk T.Keeper) (looks_at caller key look moment) self.old self.new result }
        ensures survives { Survives (devices D.Disk T.Keeper) (looks_at caller key look moment) self.old self.new result }
        // Nothing can be seen of it in the files, and its own parts stay.
        ensures quiet { IsQuiet (devices D.Disk T.Keeper) self.old.disk self.new.disk }
        ensures own { self.new.own ≡ self.old.own }
        // After a Hit the caller holds its blob, by the number of this entry. All other holds stay.
        ensures holds { HoldsAfter (length self.old.journal.entries) caller self.old.holds self.new.holds result }
        ensures callers { length self.new.holds ≡ length self.old.holds }
        // A GET gives the bytes, and a HEAD, which doesn't call the disk, what is known.
        ensures kind { IfOk result (IsGotFor look) }
        ensures head { look ≡ looks.Head → self.new.disk ≡ self.old.disk }
        // The bytes are those of the blob's file, as many as the asset has, and those of the content.
        ensures opened { IfOk result (GotOpened D.Reader.size D.Reader.faults) }
        ensures file { D.told → IfOk result (GotFile D.Reader.left (D.tree self.old.disk)) }
        ensures content { D.told → IsSome (T.table self.new.table) → (s : State) → Tracks D.tree T.table self.old s → IfOk result (GotContent D.Reader.left) }
        // Each refusal comes in its place, told or not, and damage is never told of files that agree.
        ensures why { IfErr result (WhyNotGiven (config_of self.old.config) key look (T.found self.new.table) (D.last_look self.new.disk)) }
        ensures whole { D.told → IsSome (T.table self.new.table) → (s : State) → Tracks D.tree T.table self.old s → (size : ℕ) (found : Option ℕ) → result ≢ Err (refusal.Damaged size found) }
    {
        if let Some(why) = self.barred() {
            self.turn_away(look_entry(caller, key, look, moment, refused(&why)));
            return Err(why);
        }
        let number = self.journal.len();
        let done = give(
            self.alloc,
            &mut self.disk,
            &mut self.table,
            &self.config,
            &key,
            look,
            &moment,
        );
        let cause = cause_of(number, &done);
        let Told { reply, answer } = tell(&mut self.holds, caller, number, answer_of(done));
        self.note(look_entry(caller, key, look, moment, reply), cause);
        answer
    }
}
