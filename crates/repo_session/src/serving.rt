//! A session over a core.
ghost use Rattle.std.specs.Prelude.{◌≡◌, Bool, List, Some, None, slice_get};
ghost use Rattle.http_front.specs.Sessions.{EndsAs, HasEndCause};
ghost use Rattle.nx_base.specs.declared.moment.Moment.{Moment};
ghost use Rattle.repo_core.specs.Devices.{devices};
ghost use Rattle.repo_session.specs.Drawing.{HasDrawn};
ghost use Rattle.repo_session.specs.Serving.{HasTurns, HasTurnsPast};
ghost use Rattle.repo_session.specs.Turned.{DownloadFails};

use crate::answering::Answering;
use crate::downloads::let_go;
use crate::draws::Draws;
use crate::puts::stop_open;
use asset_keeper::Keeper;
use disk_model::Disk;
use http_front::End;
use nx_io::{Sink, Source};
use repo_core::Core;
use session_driver::run_session;
use std::alloc::Global;

/// Answers the requests of the input over a core, as its caller 0, up to the first that ends the session. The core is given back.
pub fn serve<D: Disk, T: Keeper, S: Source, K: Sink>(
    alloc: Global,
    core: Core<D, T>,
    draws: Draws,
    input: &mut S,
    output: &mut K,
) -> (End, Core<D, T>)
    requires free { slice_get core.holds 0 ≡ Some None }
    ensures session { (moments : List Moment) → HasDrawn draws moments 0 → (over : Bool) × EndsAs (HasTurns (devices D.Disk T.Keeper) core result.1 over moments) (HasTurnsPast (devices D.Disk T.Keeper) core moments) (DownloadFails (devices D.Disk T.Keeper) core result.1) over result.0 (S.left input.old) (S.left input.new) (S.ended input.new) (K.taken output.old) (K.taken output.new) }
    ensures cause { HasEndCause result.0 (S.faults input.old) (S.faults input.new) (K.faults output.old) (K.faults output.new) }
    // Nothing is read any more.
    ensures free { slice_get result.1.holds 0 ≡ Some None }
{
    let mut answering = Answering {
        alloc,
        core,
        draws,
        upload: None,
        found: None,
    };
    let end = run_session(alloc, &mut answering, input, output);
    let Answering {
        alloc: _,
        core,
        draws: _,
        upload,
        found,
    } = answering;
    let mut core = core;
    stop_open(&mut core, upload);
    let_go(&mut core, found);
    (end, core)
}
