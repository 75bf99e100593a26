ghost use Rattle.std.specs.Prelude.{◌≡◌, ℕ, IfOk, OnOk};
ghost use Rattle.repo_model.specs.Notes.{oldest_key, noted};
ghost use Rattle.repo_model.specs.Plain.{state_of};

use crate::plain::key_map::KeyMap;
use crate::plain::state::PlainState;
use nx_base::{Key, NoMemory};
use std::alloc::Global;

/// The greatest number of notes.
const NOTES_LIMIT: u64 = 10_000;

/// The key of the oldest note: the one with the least moment, and of several the least.
fn oldest_note(alloc: Global, notes: &KeyMap<u64>) -> Result<Option<Key>, NoMemory>
    ensures { IfOk result (λ key. key ≡ oldest_key notes.now) }
{
    let mut best: Option<(&Key, u64)> = None;
    for (key, at) in notes.iter() {
        match best {
            Some((_, least)) if least <= *at => {}
            _ => best = Some((key, *at)),
        }
    }
    match best {
        Some((key, _)) => Ok(Some(key.try_clone(alloc)?)),
        None => Ok(None),
    }
}

/// Notes that the remote has nothing of the key. Where there are too many notes then, the oldest
/// goes.
pub(crate) fn note(
    alloc: Global,
    state: &mut PlainState,
    key: &Key,
    now: u64,
) -> Result<(), NoMemory>
    ensures { OnOk result (state_of state.new ≡ noted (state_of state.old) key.now now) }
{
    state.notes.insert(key.try_clone(alloc)?, now)?;
    if state.notes.len() <= NOTES_LIMIT {
        return Ok(());
    }
    if let Some(oldest) = oldest_note(alloc, &state.notes)? {
        state.notes.remove(&oldest);
    }
    Ok(())
}
