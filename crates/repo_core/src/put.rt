ghost use Rattle.std.specs.Prelude.{◌≡◌, ◌<◌, ◌^◌, codes, IfOk, IfErr, OnOk, IsSome, Some};
ghost use Rattle.nx_base.specs.declared.asset.Asset.{Asset};
ghost use Rattle.repo_model.specs.State.{State, row_of};
ghost use Rattle.repo_model.specs.Timestamps.{time_of};
ghost use Rattle.tree_content.specs.Blobs.{bytes_name};
ghost use Rattle.repo_model.specs.Plain.{config_of};
ghost use Rattle.repo_core.specs.Asks.{puts};
ghost use Rattle.repo_core.specs.Called.{Called};
ghost use Rattle.repo_core.specs.Devices.{devices};
ghost use Rattle.repo_core.specs.Marks.{HasMark, HasProps};
ghost use Rattle.repo_core.specs.Puts.{MayGo, AreBytes, props_of, upload_of};
ghost use Rattle.repo_core.specs.Standing.{Tracks};
ghost use Rattle.repo_core.specs.Survives.{Survives};
ghost use Rattle.repo_core.specs.Why.{WhyNotPut};

use crate::end::{answer_of, cause_of};
use crate::entries::{put, refused, stored};
use crate::putting::put_content;
use crate::repository::Core;
use asset_keeper::Keeper;
use blob_files::Ready;
use disk_model::Disk;
use nx_base::{Asset, Moment};
use repo_model::{Refusal, Upload};

impl<D: Disk, T: Keeper> Core<D, T> {
    /// Makes an upload that is ready the content of its key: makes its blob, sets the row, and marks the blob that the key had with the
    /// reason `Replaced`. A file that doesn't become a blob is given up.
    pub fn commit_put(
        &mut self,
        caller: u32,
        ready: Ready<D::Sealed>,
        moment: Moment,
    ) -> Result<Asset, Refusal>
        requires size { ready.size < 2 ^ 63 }
        ensures called { Called (devices D.Disk T.Keeper) (puts (devices D.Disk T.Keeper) D.Writer.content (config_of self.old.config) caller ready moment) self.old self.new result }
        ensures survives { Survives (devices D.Disk T.Keeper) (puts (devices D.Disk T.Keeper) D.Writer.content (config_of self.old.config) caller ready moment) self.old self.new result }
        ensures holds { self.new.holds ≡ self.old.holds }
        // The blob stands in the store of the upload, and its bytes are those of the file.
        ensures store { IfOk result (λ asset. asset.blob.store ≡ ready.store) }
        ensures made { D.told → IfOk result (λ asset. D.tree self.new.disk (bytes_name asset.blob) ≡ Some (D.Writer.content ready.file)) }
        // Its properties say what was put, and those of the blob that the key had, when and why it was replaced, and else what they said.
        ensures says { D.told → IfOk result (λ asset. HasProps (D.tree self.new.disk) asset.blob (props_of (upload_of ready) asset.blob.timestamp)) }
        ensures marked { D.told → IsSome (T.table self.new.table) → MayGo (config_of self.old.config) ready.begin.key ready.store → AreBytes (upload_of ready) (D.Writer.content ready.file)
            → (s : State) (old : Asset) → Tracks D.tree T.table self.old s → row_of s ready.begin.key ≡ Some old
            → OnOk result (HasMark (D.tree self.old.disk) (D.tree self.new.disk) old.blob (codes "Replaced") (time_of moment.now)) }
        // Each refusal comes in its place, told or not.
        ensures why { IfErr result (WhyNotPut (config_of self.old.config) self.old.own.last ready.begin.key moment (T.found self.new.table) (D.last_look self.new.disk)) }
    {
        let Ready {
            file,
            begin,
            store,
            size,
            sha1,
        } = ready;
        let upload = Upload {
            key: begin.key,
            content_type: begin.content_type,
            size,
            sha1,
        };
        if let Some(why) = self.barred() {
            self.drop_file(file);
            self.turn_away(put(caller, upload, moment, refused(&why)));
            return Err(why);
        }
        let done = put_content(
            self.alloc,
            &mut self.disk,
            &mut self.table,
            &self.config,
            &mut self.own,
            file,
            &upload,
            &store,
            &moment,
        );
        let cause = cause_of(self.journal.len(), &done);
        let (reply, answer) = stored(answer_of(done));
        self.note(put(caller, upload, moment, reply), cause);
        answer
    }
}
