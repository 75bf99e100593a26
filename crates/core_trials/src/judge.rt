//! One run of the script, and whether each answer of it is one that may come.

use crate::caller::Caller;
use crate::devices::{Failing, fresh_caller};
use crate::said::{Answer, Said};
use crate::script::{BEHIND, Contents, SCRIPT, Step};
use crate::stop::Stop;
use disk_model::MemDisk;
use repo_model::Cause;
use std::alloc::Global;

/// The time of the first request, in milliseconds.
const NOW: u64 = 1_700_000_000_000;

/// What the answers of a run told so far.
#[derive(Clone, Copy)]
pub struct Judged {
    failing: Failing,
    /// The contents that the answers tell.
    pub contents: Contents,
    /// How often a device's fault was told.
    pub faults: u64,
    /// What the core keeps as its cause, and the contents behind the call that broke it.
    pub broken: Option<(Cause, Contents)>,
    pub is_right: bool,
}

impl Judged {
    fn start(failing: Failing) -> Judged {
        Judged {
            failing,
            contents: Contents::NONE,
            faults: 0,
            broken: None,
            is_right: true,
        }
    }

    /// Judges the answer to a request, behind which the core keeps this cause, and the journal has so many entries.
    fn judge(&mut self, step: &Step, said: Said, cause: Option<Cause>, entries: u64) {
        let is_right = match self.broken {
            Some((kept, _)) => said == Said::Broken(kept) && cause == Some(kept),
            None if said == step.usual(self.contents) => {
                self.contents = step.after(self.contents);
                cause.is_none()
            }
            None => self.judge_fault(step, said, cause, entries),
        };
        self.is_right = self.is_right && is_right;
    }

    /// The same of an answer that isn't the usual one.
    fn judge_fault(&mut self, step: &Step, said: Said, cause: Option<Cause>, entries: u64) -> bool {
        let fault = self.failing.fault();
        self.faults = self.faults.saturating_add(1);
        let is_fault = said == Said::Failed(fault) && self.faults <= self.failing.most_faults();
        let Some(cause) = cause else {
            return is_fault;
        };
        self.broken = Some((cause, step.after(self.contents)));
        is_fault && cause.fault == fault && entries.checked_sub(1) == Some(cause.entry)
    }
}

/// A run that has ended: what its answers told, and the disk behind it.
#[derive(Drop)]
pub struct Ran {
    pub judged: Judged,
    pub entries: u64,
    pub disk: MemDisk,
}

/// Whether the journal has an entry more for each call, and the last one tells its answer.
fn is_noted(caller: &Caller, before: u64, answer: &Answer) -> bool {
    caller.entries().checked_sub(before) == Some(answer.calls)
        && caller.last_noted() == Some(answer.noted)
}

/// How many faults the disk has counted where so many were told of that device.
fn disk_faults(failing: Failing, told: u64) -> u64 {
    match failing {
        Failing::Keeper { .. } => 0,
        _ => told,
    }
}

/// Makes the requests one after another, and judges their answers.
fn ask_all(
    alloc: Global,
    caller: &mut Caller,
    steps: &[Step],
    judged: &mut Judged,
) -> Result<(), Stop> {
    let mut now = NOW;
    for step in steps {
        let before = caller.entries();
        let answer = caller.ask(alloc, step, now)?;
        judged.judge(step, answer.said, caller.broken(), caller.entries());
        judged.is_right = judged.is_right && is_noted(caller, before, &answer);
        now = now.saturating_add(1);
    }
    Ok(())
}

/// Runs the script. A core that broke is then asked once more, by a request of each kind.
pub fn run(alloc: Global, failing: Failing) -> Result<Ran, Stop> {
    let mut caller = fresh_caller(alloc, failing)?;
    let mut judged = Judged::start(failing);
    ask_all(alloc, &mut caller, &SCRIPT, &mut judged)?;
    if judged.broken.is_some() {
        ask_all(alloc, &mut caller, &BEHIND, &mut judged)?;
    }
    let entries = caller.entries();
    let disk = caller.into_disk();
    let counted = disk.faults() == disk_faults(failing, judged.faults);
    judged.is_right = judged.is_right && counted;
    Ok(Ran {
        judged,
        entries,
        disk,
    })
}
