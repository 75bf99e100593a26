ghost use Rattle.std.specs.Prelude.{◌≡◌, ◌≢◌, ◌⊎◌, ◌<◌, ◌^◌, [], ℕ, Option, Some, None, true, false, IfOk, IfErr, OnOk, IsErrOf, IsSome, IsTrue};
ghost use Rattle.std.specs.FinMap as map;
ghost use Rattle.nx_io.specs.Causes.{Rose, HasCauseWhere};
ghost use Rattle.disk_model.specs.Disk.{Same};
ghost use Rattle.disk_model.specs.Moments.{During};
ghost use Rattle.asset_keeper.specs.Told.{Tells, Lasts};
ghost use Rattle.asset_keeper.specs.Ranges.{in_range};
ghost use Rattle.tree_content.specs.Blobs.{bytes_name};
ghost use Rattle.repo_model.specs.State.{State};
ghost use Rattle.repo_model.specs.Plain.{config_of};
ghost use Rattle.repo_model.specs.Serving.{downloaded};
ghost use Rattle.repo_model.specs.declared.call.Call.TheVariants as call;
ghost use Rattle.repo_model.specs.declared.call.Look.{Look};
ghost use Rattle.repo_model.specs.declared.call.Look.TheVariants as looks;
ghost use Rattle.repo_model.specs.declared.call.RemoteSaid.TheVariants as remote;
ghost use Rattle.repo_model.specs.declared.reply.Reply.TheVariants as reply;
ghost use Rattle.nx_base.specs.declared.moment.Moment.{Moment};
ghost use Rattle.repo_core.specs.declared.denial.Denial.TheVariants as denial;
ghost use Rattle.repo_core.specs.declared.own.Own.{Own};
ghost use Rattle.repo_core.specs.declared.stop.Stop.TheVariants as stop;
ghost use Rattle.repo_core.specs.Rows.{rows_in};
ghost use Rattle.repo_core.specs.Agree.{Agrees};
ghost use Rattle.repo_config.specs.Hosted.{AllHosted};
ghost use Rattle.repo_core.specs.Faults.{IsDisk, IsKeeper, DeniedBy, StoppedBy, refusal_for, refusal_of_stop};
ghost use Rattle.repo_core.specs.Answers.{is_denied, is_broke};
ghost use Rattle.repo_core.specs.Asks.{SetsRow};
ghost use Rattle.repo_core.specs.Ends.{Ends};
ghost use Rattle.repo_core.specs.Standing.{BeforeOrAfter};
ghost use Rattle.repo_core.specs.Got.{IsGotFor, GotOpened, GotFile, GotContent};
ghost use Rattle.repo_core.specs.Looking.{MayGet, NotOpened, IfDenied, got_given};
ghost use Rattle.repo_core.specs.Why.{WhyNotGiven};
ghost use Rattle.repo_model.specs.Config.{repo_of};

use crate::denial::{Denial, keeper_fault};
use crate::given::{Given, Opened, known};
use crate::measuring::open_measured;
use crate::noting::{note_download, save};
use crate::stop::Stop;
use asset_keeper::Keeper;
use blob_files::Download;
use disk_model::Disk;
use nx_base::{Asset, Key, Moment};
use repo_model::plain::{PlainConfig, find_repo, time};
use repo_model::{Fault, Look};
use std::alloc::Global;

/// The row that a look finds.
fn row_to_give<T: Keeper>(table: &mut T, config: &PlainConfig, key: &Key) -> Result<Asset, Denial>
    requires hosted { AllHosted (config_of config.now) }
    ensures same { Tells (T.table table.old) (T.table table.new) (λ s t. t ≡ s) }
    ensures changes { T.changes table.new ≡ T.changes table.old }
    ensures lasting { Lasts T.lasts (T.table table.old) (T.table table.new) }
    ensures range { IfOk result (λ asset. IsTrue (in_range asset)) }
    ensures cause { HasCauseWhere (DeniedBy IsKeeper) (T.faults table.old) (T.faults table.new) result }
    ensures keeper_alone { IfErr result (λ why. ¬ DeniedBy IsDisk why) }
    ensures why { (look : Look) (looked : Option ℕ) → IfErr result (λ why. WhyNotGiven (config_of config.now) key.now look (T.found table.new) looked (refusal_for why)) }
    ensures opens { OnOk result (IsSome (repo_of (config_of config.now) key.now.repo) × (T.found table.new ≡ true)) }
    ensures undamaged { (size : ℕ) (found : Option ℕ) → IsErrOf result (denial.Damaged size found) → ⊥ }
    ensures row { IsSome (T.table table.new) → (s : State) (l : Look) (moment : Moment) → s.broken ≡ None → rows_in (T.table table.old) ≡ s.rows → MayGet (config_of config.now) s key.now l moment result }
{
    let Some(_repo) = find_repo(&config.repos, &key.repo) else {
        return Err(Denial::UnknownRepo);
    };
    match table.get(key) {
        Ok(Some(asset)) => Ok(asset),
        Ok(None) => Err(Denial::NotFound),
        Err(refusal) => Err(Denial::Failed(keeper_fault(refusal))),
    }
}

/// Gives the bytes of a content, and last notes the download in its row.
fn serve<D: Disk, T: Keeper>(
    alloc: Global,
    disk: &mut D,
    table: &mut T,
    key: &Key,
    asset: Asset,
    at: u64,
) -> Result<Given<D::Reader>, Stop>
    requires time { at < 2 ^ 48 }
    requires range { IsTrue (in_range asset) }
    ensures given { IfOk result (λ given. given.asset ≡ downloaded asset at) }
    ensures kind { IfOk result (λ given. IsGotFor looks.Get (got_given given)) }
    ensures opened { IfOk result (λ given. GotOpened D.Reader.size D.Reader.faults (got_given given)) }
    ensures file { D.told → IfOk result (λ given. GotFile D.Reader.left (D.tree disk.old) (got_given given)) }
    ensures denied { IfDenied result (NotOpened D.told (D.tree disk.old) asset (D.last_look disk.new)) }
    ensures rows { Tells (T.table table.old) (T.table table.new) (λ s t. OnOk result (map.get s.rows key.now ≡ Some asset → t.rows ≡ map.insert s.rows key.now (downloaded asset at))) }
    ensures table { Tells (T.table table.old) (T.table table.new) (λ s t. (t ≡ s) ⊎ SetsRow key.now s t) }
    ensures between { Tells (T.table table.old) (T.table table.new) (λ s t. (t ≡ s) ⊎ (map.get s.rows key.now ≡ Some asset → t.rows ≡ map.insert s.rows key.now (downloaded asset at))) }
    ensures clean_rows { Tells (T.table table.old) (T.table table.new) (λ s t. is_denied result ≡ true → t ≡ s) }
    ensures changed { is_broke result ≡ true → Rose (T.changes table.old) (T.changes table.new) }
    ensures unchanged { is_denied result ≡ true → T.changes table.new ≡ T.changes table.old }
    ensures lasting { Lasts T.lasts (T.table table.old) (T.table table.new) }
    ensures found { T.found table.new ≡ T.found table.old }
    ensures tree { D.told → D.tree disk.new ≡ D.tree disk.old }
    ensures any_moment { D.told → During D.clock D.lists disk.old disk.new (Same (D.lists disk.old (D.clock disk.old))) }
    ensures shown { D.shown disk.new ≡ D.shown disk.old }
    ensures disk_cause { HasCauseWhere (StoppedBy IsDisk) (D.faults disk.old) (D.faults disk.new) result }
    ensures keeper_cause { HasCauseWhere (StoppedBy IsKeeper) (T.faults table.old) (T.faults table.new) result }
{
    let size = asset.size;
    let Ok(note) = note_download(alloc, key, asset, at) else {
        return Err(Stop::Denied(Denial::Failed(Fault::Memory)));
    };
    let reader = match open_measured(alloc, disk, &note.asset) {
        Ok(reader) => reader,
        Err(why) => return Err(Stop::Denied(why)),
    };
    if let Err(fault) = save(table, &note.change) {
        disk.end_reader(reader);
        return Err(Stop::Broke(fault));
    }
    Ok(Given {
        asset: note.asset,
        copy: note.copy,
        opened: Some(Opened {
            download: Download::new(reader, size),
            blob: note.blob,
        }),
    })
}

/// The content of a key, or what is known of it.
pub(crate) fn give<D: Disk, T: Keeper>(
    alloc: Global,
    disk: &mut D,
    table: &mut T,
    config: &PlainConfig,
    key: &Key,
    look: Look,
    moment: &Moment,
) -> Result<Given<D::Reader>, Stop>
    requires hosted { AllHosted (config_of config.now) }
    // What it comes to is what the step says.
    ensures ends { D.told → IsSome (T.table table.new) → (own : Own) (s : State) → Agrees (config_of config.now) (D.tree disk.old) (rows_in (T.table table.old)) own s
        → Ends (config_of config.now) s (call.Get key.now look moment.entry.now remote.NotAsked) (λ given. reply.Found given.copy) (Agrees (config_of config.now) (D.tree disk.new) (rows_in (T.table table.new)) own) result }
    // Stopped halfway, it leaves the rows as before or after.
    ensures halfway { D.told → IsSome (T.table table.new) → (own : Own) (s : State) → Agrees (config_of config.now) (D.tree disk.old) (rows_in (T.table table.old)) own s
        → is_broke result ≡ true → BeforeOrAfter (config_of config.now) s [] (call.Get key.now look moment.entry.now remote.NotAsked) (λ t. rows_in (T.table table.new) ≡ t.rows) }
    // The files stay.
    ensures tree { D.told → D.tree disk.new ≡ D.tree disk.old }
    ensures any_moment { D.told → During D.clock D.lists disk.old disk.new (Same (D.lists disk.old (D.clock disk.old))) }
    ensures shown { D.shown disk.new ≡ D.shown disk.old }
    ensures table { Tells (T.table table.old) (T.table table.new) (λ s t. (t ≡ s) ⊎ SetsRow key.now s t) }
    ensures clean_rows { Tells (T.table table.old) (T.table table.new) (λ s t. is_denied result ≡ true → t ≡ s) }
    ensures changed { is_broke result ≡ true → Rose (T.changes table.old) (T.changes table.new) }
    ensures unchanged { is_denied result ≡ true → T.changes table.new ≡ T.changes table.old }
    ensures lasting { Lasts T.lasts (T.table table.old) (T.table table.new) }
    // A HEAD doesn't call the disk.
    ensures head { look ≡ looks.Head → disk.new ≡ disk.old }
    ensures kind { IfOk result (λ given. IsGotFor look (got_given given)) }
    // The bytes are those of the blob's file, and of the content.
    ensures opened { IfOk result (λ given. GotOpened D.Reader.size D.Reader.faults (got_given given)) }
    ensures file { D.told → IfOk result (λ given. GotFile D.Reader.left (D.tree disk.old) (got_given given)) }
    ensures content { D.told → IsSome (T.table table.new) → (own : Own) (s : State) → Agrees (config_of config.now) (D.tree disk.old) (rows_in (T.table table.old)) own s → IfOk result (λ given. GotContent D.Reader.left (got_given given)) }
    ensures why { IfErr result (λ e. WhyNotGiven (config_of config.now) key.now look (T.found table.new) (D.last_look disk.new) (refusal_of_stop e)) }
    ensures whole { D.told → IsSome (T.table table.new) → (own : Own) (s : State) → Agrees (config_of config.now) (D.tree disk.old) (rows_in (T.table table.old)) own s
        → (size : ℕ) (found : Option ℕ) → IsErrOf result (stop.Denied (denial.Damaged size found)) → ⊥ }
    ensures disk_cause { HasCauseWhere (StoppedBy IsDisk) (D.faults disk.old) (D.faults disk.new) result }
    ensures keeper_cause { HasCauseWhere (StoppedBy IsKeeper) (T.faults table.old) (T.faults table.new) result }
{
    let asset = match row_to_give(table, config, key) {
        Ok(asset) => asset,
        Err(why) => return Err(Stop::Denied(why)),
    };
    match look {
        Look::Get => serve(alloc, disk, table, key, asset, time(moment.now)),
        Look::Head => match known(alloc, asset) {
            Ok(given) => Ok(given),
            Err(_) => Err(Stop::Denied(Denial::Failed(Fault::Memory))),
        },
    }
}
