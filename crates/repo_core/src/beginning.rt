ghost use Rattle.std.specs.Prelude.{◌≡◌, ◌+◌, ◌%◌, ◌^◌, [], IfOk, IfErr, OnErr, OnOk, IsSome, Some, false};
ghost use Rattle.std.specs.FinMap as map;
ghost use Rattle.nx_io.specs.Causes.{HasCauseWhere};
ghost use Rattle.disk_model.specs.Disk.{Same};
ghost use Rattle.disk_model.specs.Moments.{During};
ghost use Rattle.asset_keeper.specs.Told.{Tells, Lasts};
ghost use Rattle.blob_files.specs.Uploads.{HasTaken};
ghost use Rattle.repo_model.specs.State.{State};
ghost use Rattle.repo_model.specs.Plain.{config_of};
ghost use Rattle.repo_model.specs.declared.call.Kind.TheVariants as kinds;
ghost use Rattle.repo_core.specs.Rows.{rows_in};
ghost use Rattle.repo_core.specs.Agree.{Agrees};
ghost use Rattle.repo_core.specs.Faults.{IsDisk, IsKeeper, DeniedBy, refusal_for};
ghost use Rattle.repo_core.specs.Asks.{Counts};
ghost use Rattle.repo_core.specs.Begun.{EndsBegin};
ghost use Rattle.repo_core.specs.Puts.{MayGo};
ghost use Rattle.repo_core.specs.Why.{WhyNotBegun};

use crate::choosing::{Chosen, choose_store, may_replace};
use crate::denial::{Denial, disk_fault};
use crate::own::Own;
use asset_keeper::Keeper;
use blob_files::Upload;
use disk_model::Disk;
use nx_base::{NoMemory, StoreName};
use repo_model::plain::PlainConfig;
use repo_model::{Begin, Fault};
use std::alloc::Global;

/// An upload that is begun, and a copy of its store's name for the journal.
pub(crate) struct Begun<W> {
    pub(crate) upload: Upload<W>,
    pub(crate) store: StoreName,
}

/// A copy.
fn copy_begin(alloc: Global, begin: &Begin) -> Result<Begin, NoMemory>
    ensures { IfOk result (λ copy. copy ≡ begin.now) }
{
    let key = begin.key.try_clone(alloc)?;
    let content_type = begin.content_type.try_clone(alloc)?;
    Ok(Begin {
        key,
        content_type,
        kind: begin.kind,
    })
}

/// Counts one upload more in that store or group, from the greatest number to 0.
fn count_upload(own: &mut Own, group: StoreName, count: u64) -> Result<(), NoMemory>
    ensures ok { OnOk result (own.new ≡ record own.old { counts = map.insert own.old.counts group ((count + 1) % 2 ^ 64) }) }
    ensures err { OnErr result (own.new ≡ own.old) }
{
    own.counts.insert(group, count.wrapping_add(1))
}

/// Begins an upload that a client sends: last it takes a writer of the disk, and counts the upload.
pub(crate) fn begin_upload<D: Disk, T: Keeper>(
    alloc: Global,
    disk: &mut D,
    table: &mut T,
    config: &PlainConfig,
    own: &mut Own,
    begin: &Begin,
) -> Result<Begun<D::Writer>, Denial>
    requires { begin.now.kind ≡ kinds.Put }
    // What it comes to is what the step says.
    ensures ends { D.told → IsSome (T.table table.new) → (s : State) → Agrees (config_of config.now) (D.tree disk.old) (rows_in (T.table table.old)) own.old s
        → EndsBegin (config_of config.now) s begin.now (Agrees (config_of config.now) (D.tree disk.new) (rows_in (T.table table.new)) own.new) result }
    ensures target { IfOk result (λ begun. begun.upload.target ≡ Some (record { begin = begin.now; store = begun.store })) }
    ensures may_go { IfOk result (λ begun. MayGo (config_of config.now) begin.now.key begun.store) }
    ensures sound { IfOk result (λ begun. D.Writer.faults begun.upload.writer ≡ 0) }
    ensures alive { IfOk result (λ begun. begun.upload.dead ≡ false) }
    ensures taken { D.told → IfOk result (λ begun. HasTaken D.Writer.told D.Writer.written begun.upload []) }
    ensures tree { D.told → Same (D.tree disk.old) (D.tree disk.new) }
    ensures any_moment { D.told → During D.clock D.lists disk.old disk.new (Same (D.lists disk.old (D.clock disk.old))) }
    ensures shown { D.shown disk.new ≡ D.shown disk.old }
    ensures rows { Tells (T.table table.old) (T.table table.new) (λ s t. t ≡ s) }
    ensures changes { T.changes table.new ≡ T.changes table.old }
    ensures lasting { Lasts T.lasts (T.table table.old) (T.table table.new) }
    ensures counts { own.new ≡ record own.old { counts = own.new.counts } }
    ensures clean { OnErr result (own.new ≡ own.old) }
    ensures counted { OnOk result (Counts (config_of config.now) begin.now.key own.old own.new) }
    ensures why { IfErr result (λ why. WhyNotBegun (config_of config.now) own.old.counts begin.now.key (T.found table.new) (refusal_for why)) }
    ensures disk_cause { HasCauseWhere (DeniedBy IsDisk) (D.faults disk.old) (D.faults disk.new) result }
    ensures keeper_cause { HasCauseWhere (DeniedBy IsKeeper) (T.faults table.old) (T.faults table.new) result }
{
    let chosen = match choose_store(alloc, config, own, begin) {
        Ok(chosen) => chosen,
        Err(why) => return Err(why),
    };
    if let Err(why) = may_replace(table, chosen.policy, &begin.key) {
        return Err(why);
    }
    let Ok(copy) = copy_begin(alloc, begin) else {
        return Err(Denial::Failed(Fault::Memory));
    };
    let writer = match disk.temp() {
        Ok(writer) => writer,
        Err(refusal) => return Err(Denial::Failed(disk_fault(refusal))),
    };
    if count_upload(own, chosen.group, chosen.count).is_err() {
        disk.give_up(writer);
        return Err(Denial::Failed(Fault::Memory));
    }
    Ok(Begun {
        upload: Upload::new(copy, chosen.store, writer),
        store: chosen.copy,
    })
}
