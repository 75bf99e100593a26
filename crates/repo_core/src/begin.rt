ghost use Rattle.std.specs.Prelude.{◌≡◌, [], IfOk, IfErr};
ghost use Rattle.blob_files.specs.Uploads.{HasTaken};
ghost use Rattle.repo_model.specs.Plain.{config_of};
ghost use Rattle.repo_model.specs.declared.call.Kind.TheVariants as kinds;
ghost use Rattle.repo_core.specs.Asks.{begins};
ghost use Rattle.repo_core.specs.Begun.{IsBegunFor};
ghost use Rattle.repo_core.specs.Called.{Called, parts_of};
ghost use Rattle.repo_core.specs.Devices.{devices};
ghost use Rattle.repo_core.specs.Parts.{IsUnseen};
ghost use Rattle.repo_core.specs.Survives.{Survives};
ghost use Rattle.repo_core.specs.Why.{WhyNotBegun};

use crate::beginning::begin_upload;
use crate::entries::{beginning, begun, refused};
use crate::repository::Core;
use asset_keeper::Keeper;
use blob_files::Upload;
use disk_model::Disk;
use repo_model::{Begin, Refusal};

impl<D: Disk, T: Keeper> Core<D, T> {
    /// Begins an upload that a client sends: chooses the store that it goes into, and counts it there.
    pub fn begin(&mut self, caller: u32, begin: Begin) -> Result<Upload<D::Writer>, Refusal>
        // Fetches from the remotes of proxies are not begun yet.
        requires kind { begin.kind ≡ kinds.Put }
        ensures called { Called (devices D.Disk T.Keeper) (begins (config_of self.old.config) caller begin) self.old self.new result }
        ensures survives { Survives (devices D.Disk T.Keeper) (begins (config_of self.old.config) caller begin) self.old self.new result }
        // It breaks nothing, and nothing can be seen of it in files or rows.
        ensures sound { self.new.broken ≡ self.old.broken }
        ensures unseen { IsUnseen (devices D.Disk T.Keeper) (parts_of self.old) (parts_of self.new) }
        ensures holds { self.new.holds ≡ self.old.holds }
        // The upload is of this begin, and nothing was taken into it yet.
        ensures begun { IfOk result (IsBegunFor D.Writer.faults (config_of self.old.config) begin) }
        ensures taken { D.told → IfOk result (λ upload. HasTaken D.Writer.told D.Writer.written upload []) }
        // Each refusal comes in its place, told or not.
        ensures why { IfErr result (WhyNotBegun (config_of self.old.config) self.old.own.counts begin.key (T.found self.new.table)) }
    {
        if let Some(why) = self.barred() {
            self.turn_away(beginning(caller, begin, refused(&why)));
            return Err(why);
        }
        let done = begin_upload(
            self.alloc,
            &mut self.disk,
            &mut self.table,
            &self.config,
            &mut self.own,
            &begin,
        );
        let (reply, answer) = begun(done);
        self.note(beginning(caller, begin, reply), None);
        answer
    }
}
