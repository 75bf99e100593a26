ghost use Rattle.std.specs.Prelude.{◌≢◌, ◌≡◌, ℕ, codes, Option, Some, Err, IfErr, OnOk, IsSome};
ghost use Rattle.nx_base.specs.declared.asset.Asset.{Asset};
ghost use Rattle.repo_model.specs.State.{State, row_of};
ghost use Rattle.repo_model.specs.Timestamps.{time_of};
ghost use Rattle.repo_model.specs.Plain.{config_of};
ghost use Rattle.repo_model.specs.declared.reply.Refusal.TheVariants as refusal;
ghost use Rattle.repo_core.specs.Asks.{deletes};
ghost use Rattle.repo_core.specs.Called.{Called};
ghost use Rattle.repo_core.specs.Devices.{devices};
ghost use Rattle.repo_core.specs.Marks.{HasMark};
ghost use Rattle.repo_core.specs.Standing.{Tracks};
ghost use Rattle.repo_core.specs.Survives.{Survives};
ghost use Rattle.repo_core.specs.Why.{WhyNotDeleted};

use crate::deleting::give_up_row;
use crate::end::{answer_of, cause_of};
use crate::entries::deletion;
use crate::repository::Core;
use asset_keeper::Keeper;
use disk_model::Disk;
use nx_base::{Key, Moment};
use repo_model::Refusal;

impl<D: Disk, T: Keeper> Core<D, T> {
    /// Takes the content of a key away: marks its blob with the reason `Deleted by request`, and then removes the row. The files
    /// stay until the trash is emptied.
    pub fn delete(&mut self, caller: u32, key: Key, moment: Moment) -> Result<(), Refusal>
        ensures called { Called (devices D.Disk T.Keeper) (deletes caller key moment) self.old self.new result }
        ensures survives { Survives (devices D.Disk T.Keeper) (deletes caller key moment) self.old self.new result }
        ensures holds { self.new.holds ≡ self.old.holds }
        // The properties of the blob say when and why it was deleted, and else what they said.
        ensures marked { D.told → IsSome (T.table self.new.table) → (s : State) (asset : Asset) → Tracks D.tree T.table self.old s → row_of s key ≡ Some asset
            → OnOk result (HasMark (D.tree self.old.disk) (D.tree self.new.disk) asset.blob (codes "Deleted by request") (time_of moment.now)) }
        // Each refusal comes in its place, told or not, and damage is never told of files that agree.
        ensures why { IfErr result (WhyNotDeleted (config_of self.old.config) key (T.found self.new.table)) }
        ensures whole { D.told → IsSome (T.table self.new.table) → (s : State) → Tracks D.tree T.table self.old s → (size : ℕ) (found : Option ℕ) → result ≢ Err (refusal.Damaged size found) }
    {
        if let Some(why) = self.barred() {
            let said = Err(why);
            self.turn_away(deletion(caller, key, moment.now, &said));
            return said;
        }
        let done = give_up_row(
            self.alloc,
            &mut self.disk,
            &mut self.table,
            &self.config,
            &mut self.own,
            &key,
            moment.now,
        );
        let cause = cause_of(self.journal.len(), &done);
        let said = answer_of(done);
        self.note(deletion(caller, key, moment.now, &said), cause);
        said
    }
}
