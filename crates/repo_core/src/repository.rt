use crate::hold::Hold;
use crate::own::Own;
use asset_keeper::Keeper;
use disk_model::Disk;
use repo_model::plain::PlainConfig;
use repo_model::{Cause, Entry, Journal, Refusal};
use std::alloc::Global;
use std::marker::Model;

/// The repository over a disk and a keeper of rows.
#[derive(Drop)]
pub struct Core<D: Disk, T: Keeper> {
    pub(crate) alloc: Global,
    pub(crate) disk: D,
    pub(crate) table: T,
    pub(crate) config: PlainConfig,
    pub(crate) journal: Journal,
    pub(crate) own: Own,
    pub(crate) holds: Vec<Option<Hold>>,
    pub(crate) broken: Option<Cause>,
}

impl<D: Disk, T: Keeper> Model for Core<D, T> {
    ghost use Rattle.std.specs.Coded.{codes, coded_ℕ, coded_list};
    ghost use Rattle.std.specs.FinMap as map;
    ghost use Rattle.nx_base.specs.Codes.{coded_key};
    ghost use Rattle.nx_base.specs.Order.{key_cmp, name_cmp, age_cmp};
    ghost use Rattle.repo_model.specs.Spots.{coded_blob};
    ghost use Rattle.repo_model.specs.declared.deletion.Deletion.{Deletion};
    ghost use Rattle.repo_model.specs.Plain.{config_of};
    ghost use Rattle.repo_config.specs.Hosted.{AllHosted};
    ghost use Rattle.repo_core.specs.View.{CoreView};

    ghost Value = { CoreView D T };

    ghost coded = { Prim.hlevel (codes, D.code, T.code, map.code {X = Deletion} {R = age_cmp} coded_blob (Prim.hlevel codes), map.code {R = key_cmp} coded_key coded_ℕ, map.code {R = name_cmp} (coded_list coded_ℕ) coded_ℕ) };

    ghost view = { λ c. record { disk = c.disk; table = c.table; config = c.config; journal = c.journal; own = c.own; holds = c.holds.items; broken = c.broken } };

    ghost invariant = { λ c. AllHosted (config_of c.config) };
}

impl<D: Disk, T: Keeper> Core<D, T> {
    ghost use Rattle.std.specs.Prelude.{◌≡◌};
    ghost use Rattle.repo_core.specs.Answers.{IsFull, HasRoom, with_entry};
    ghost use Rattle.repo_core.specs.Asks.{TookBack};
    ghost use Rattle.repo_core.specs.Devices.{devices};
    ghost use Rattle.repo_core.specs.Barred.{BarredBy};

    /// What broke the repository, if it is broken.
    pub fn broken(&self) -> Option<Cause>
        ensures { result ≡ self.now.broken }
    {
        self.broken
    }

    /// The entries of the calls so far.
    pub fn journal(&self) -> &Journal
        ensures { result.now ≡ self.now.journal }
    {
        &self.journal
    }

    /// Why no call is made: the journal is full, or the repository is broken.
    pub(crate) fn barred(&self) -> Option<Refusal>
        ensures { BarredBy self.now result }
    {
        if self.journal.is_full() {
            return Some(Refusal::JournalFull);
        }
        match self.broken {
            Some(cause) => Some(Refusal::Broken { cause }),
            None => None,
        }
    }

    /// The entry of a call that wasn't made joins the journal, unless that is full.
    pub(crate) fn turn_away(&mut self, entry: Entry)
        ensures full { IsFull self.old.journal → self.new ≡ self.old }
        ensures entry { HasRoom self.old.journal → self.new ≡ record self.old { journal = with_entry self.old.journal entry } }
    {
        if !self.journal.is_full() {
            self.journal.push(entry);
        }
    }

    /// The entry of a call that was made joins the journal, and this is what the repository is broken by behind it.
    pub(crate) fn note(&mut self, entry: Entry, cause: Option<Cause>)
        requires { HasRoom self.old.journal }
        ensures { self.new ≡ record self.old { journal = with_entry self.old.journal entry; broken = cause } }
    {
        self.journal.push(entry);
        self.broken = cause;
    }

    /// A sealed file is given up to the disk.
    pub(crate) fn drop_file(&mut self, file: D::Sealed)
        ensures rest { self.new ≡ record self.old { disk = self.new.disk } }
        ensures back { TookBack (devices D.Disk T.Keeper) self.old.disk self.new.disk }
    {
        self.disk.discard(file);
    }
}
