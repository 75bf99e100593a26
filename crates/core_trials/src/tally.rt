//! Counts of what was tried.

use crate::judge::Judged;
use crate::script::Contents;
use std::fmt;

/// How many runs were as usual, how many told a fault, and in how many of these the core broke; and how many images had the contents
/// that the answers tell, and of broken cores those before or after the call that broke them.
#[derive(Clone, Copy)]
pub struct Tally {
    usual: u64,
    fault: u64,
    broken: u64,
    wrong: u64,
    told: u64,
    before: u64,
    after: u64,
    wrong_images: u64,
}

fn raise(count: &mut u64) {
    *count = count.saturating_add(1);
}

impl Tally {
    /// Nothing was tried.
    pub const NONE: Tally = Tally {
        usual: 0,
        fault: 0,
        broken: 0,
        wrong: 0,
        told: 0,
        before: 0,
        after: 0,
        wrong_images: 0,
    };

    /// One run more.
    pub fn see_run(&mut self, judged: &Judged) {
        if !judged.is_right {
            raise(&mut self.wrong);
        } else if judged.faults == 0 {
            raise(&mut self.usual);
        } else {
            raise(&mut self.fault);
            if judged.broken.is_some() {
                raise(&mut self.broken);
            }
        }
    }

    /// One image more, with these contents.
    pub fn see_image(&mut self, judged: &Judged, found: Option<Contents>) {
        let count = match (found, judged.broken) {
            (Some(found), None) if found == judged.contents => &mut self.told,
            (Some(found), Some(_)) if found == judged.contents => &mut self.before,
            (Some(found), Some((_, after))) if found == after => &mut self.after,
            _ => &mut self.wrong_images,
        };
        raise(count);
    }
}

impl fmt::Display for Tally {
    fn fmt<W: fmt::Write>(&self, f: &mut fmt::Formatter<W>) -> fmt::Result {
        let runs = self
            .usual
            .saturating_add(self.fault)
            .saturating_add(self.wrong);
        let (usual, fault, broken, wrong) = (self.usual, self.fault, self.broken, self.wrong);
        write!(
            f,
            "{runs}: usual {usual} fault {fault} broken {broken} wrong {wrong}; "
        )?;
        let images = self
            .told
            .saturating_add(self.before)
            .saturating_add(self.after)
            .saturating_add(self.wrong_images);
        let (told, before, after, wrong) = (self.told, self.before, self.after, self.wrong_images);
        write!(
            f,
            "images {images}: told {told} before {before} after {after} wrong {wrong}"
        )
    }
}
