//! The opening of a folder.
ghost use Rattle.std.specs.Prelude.{◌≡◌, ◌≤◌, [], replicate, None, IfOk, IfErr};
ghost use Rattle.std.specs.FinMap as map;
ghost use Rattle.repo_model.specs.State.{empty_state};
ghost use Rattle.repo_model.specs.Plain.{config_of};
ghost use Rattle.repo_config.specs.Hosted.{AllHosted};
ghost use Rattle.repo_config.specs.Model.{model_of};
ghost use Rattle.repo_core.specs.declared.opening.OpenErr.TheVariants as open_err;
ghost use Rattle.repo_core.specs.Rows.{rows_in};
ghost use Rattle.repo_core.specs.Fresh.{HasNoBlob, fresh_core};
ghost use Rattle.repo_core.specs.Standing.{Tracks};

use crate::hold::Hold;
use crate::opening::{NotOpen, OpenErr, Opening};
use crate::own::Own;
use crate::repository::Core;
use asset_keeper::Keeper;
use disk_model::Disk;
use nx_base::NoMemory;
use repo_model::Journal;
use repo_model::plain::PlainConfig;
use std::alloc::Global;

/// Of so many callers, of whom nobody reads.
fn no_holds(alloc: Global, callers: u32) -> Result<Vec<Option<Hold>>, NoMemory>
    ensures { IfOk result (λ holds. holds.items ≡ replicate callers None) }
{
    let mut holds = Vec::new(alloc);
    for _ in 0..callers {
        if holds.push(None).is_err() {
            return Err(NoMemory);
        }
    }
    Ok(holds)
}

/// What a core has beside its devices before its first call.
#[derive(Drop)]
struct Parts {
    config: PlainConfig,
    journal: Journal,
    holds: Vec<Option<Hold>>,
}

fn parts_of(alloc: Global, opening: &Opening) -> Result<Parts, NoMemory>
    ensures config { IfOk result (λ parts. config_of parts.config ≡ model_of opening.now.config) }
    ensures hosted { IfOk result (λ parts. AllHosted (config_of parts.config)) }
    ensures journal { IfOk result (λ parts. parts.journal ≡ record { entries = []; room = opening.now.config.journal }) }
    ensures holds { IfOk result (λ parts. parts.holds.items ≡ replicate opening.now.passes None) }
{
    Ok(Parts {
        config: opening.config.plain(alloc)?,
        journal: Journal::new(alloc, opening.config.journal())?,
        holds: no_holds(alloc, opening.passes)?,
    })
}

/// Opens a folder in which no blob stands, with a table that has no rows. It calls neither device, and is refused only where
/// memory is.
pub fn open_folder<D: Disk, T: Keeper>(
    alloc: Global,
    disk: D,
    table: T,
    opening: Opening,
) -> Result<Core<D, T>, NotOpen<D, T>>
    requires passes { (1 ≤ opening.passes) × (opening.passes ≤ 64) }
    // Nothing is kept, nobody reads, nothing is broken, and the journal is empty, with room for as many entries as the configuration says.
    ensures made { IfOk result (λ core. core ≡ fresh_core disk table core.config opening.passes opening.config.journal) }
    ensures config { IfOk result (λ core. config_of core.config ≡ model_of opening.config) }
    ensures back { IfErr result (λ refused. refused ≡ record { why = open_err.NoMemory; disk = disk; table = table }) }
    // Over a disk without blobs and a table without rows it stands for the repository in which nothing was stored.
    ensures stands { HasNoBlob (D.tree disk) → rows_in (T.table table) ≡ map.empty → IfOk result (λ core. Tracks D.tree T.table core empty_state) }
{
    let Ok(parts) = parts_of(alloc, &opening) else {
        return Err(NotOpen {
            why: OpenErr::NoMemory,
            disk,
            table,
        });
    };
    Ok(Core {
        alloc,
        disk,
        table,
        config: parts.config,
        journal: parts.journal,
        own: Own::empty(alloc),
        holds: parts.holds,
        broken: None,
    })
}
