//! What comes next between requests: a head, which is asked for, or one that is refused.
ghost use Rattle.std.specs.Prelude.{◌≡◌, ◌≤◌, ◌<◌, ℕ, List, [], true, false, length, take, drop, IsTrue, ◌↔◌};
ghost use Rattle.http_heads.specs.Cut.{drop_blank, HasNoHead, head_limit};
ghost use Rattle.http_front.specs.Looks.{IsLook};
ghost use Rattle.http_front.specs.declared.look.Look.TheVariants as looks;
ghost use Rattle.session_history.specs.Asking.{ask_of};
ghost use Rattle.session_history.specs.Phases.{between};
ghost use Rattle.http_session.specs.declared.place.Place.TheVariants as places;
ghost use Rattle.http_session.specs.Taken.{Past, Took, phase_of};
ghost use Rattle.http_session.specs.Steps.{Gives, Progresses};

use crate::place::Place;
use crate::session::Session;
use crate::step::Step;
use http_front::{End, Look, look_at};
use http_heads::{Head, HeadErr, Method, RefusalWords};
use repo_model::{Begin, Kind, Look as Asked};
use session_history::Ask;

/// The first call of a head.
fn ask_of(head: Head) -> Ask
    ensures { result ≡ ask_of head head.method }
{
    match head.method {
        Method::Get => Ask::Look {
            key: head.key,
            look: Asked::Get,
        },
        Method::Head => Ask::Look {
            key: head.key,
            look: Asked::Head,
        },
        Method::Delete => Ask::Delete { key: head.key },
        Method::Put => Ask::Begin(Begin {
            key: head.key,
            content_type: head.content_type,
            kind: Kind::Put,
        }),
    }
}

impl Session {
    /// Takes an accepted head of that length, and asks for its first call.
    fn ask(&mut self, head: Head, length: usize) -> Step
        requires none { self.old.borrowed ≡ [] }
        requires quiet { self.old.out ≡ [] }
        requires place { self.old.place ≡ places.Between }
        requires still { drop_blank self.old.held ≡ self.old.held }
        requires head { IsLook self.old.held (looks.Head head length) }
        ensures gives { (fed : List ℕ) (past : Past) → Took self.old fed past → Gives fed past self.new result }
        ensures progresses { Progresses self.old self.new result }
    {
        self.take(length);
        let place = Place::of(&head);
        self.stand_at(place);
        Step::Ask(ask_of(head))
    }

    /// Refuses the head in front.
    fn refuse(&mut self, refusal: HeadErr, bare: bool) -> Step
        requires none { self.old.borrowed ≡ [] }
        requires quiet { self.old.out ≡ [] }
        requires place { self.old.place ≡ places.Between }
        requires still { drop_blank self.old.held ≡ self.old.held }
        requires head { IsLook self.old.held (looks.Refused refusal bare) }
        ensures gives { (fed : List ℕ) (past : Past) → Took self.old fed past → Gives fed past self.new result }
        ensures progresses { Progresses self.old self.new result }
    {
        let (status, word) = refusal.answer();
        self.end_with(status, &RefusalWords::new(word), bare);
        Step::Say
    }

    /// What comes next where no whole head is there.
    fn wait_for_head(&mut self) -> Step
        requires none { self.old.borrowed ≡ [] }
        requires place { self.old.place ≡ places.Between }
        requires still { drop_blank self.old.held ≡ self.old.held }
        requires head { IsLook self.old.held looks.Open }
        requires quiet { self.old.out ≡ [] }
        ensures gives { (fed : List ℕ) (past : Past) → Took self.old fed past → Gives fed past self.new result }
        ensures progresses { Progresses self.old self.new result }
    {
        self.note_scanned();
        let inside = self.has_held();
        self.wait(inside)
    }

    /// What comes next between requests.
    pub(crate) fn next_head(&mut self) -> Step
        requires none { self.old.borrowed ≡ [] }
        requires place { self.old.place ≡ places.Between }
        requires quiet { self.old.out ≡ [] }
        ensures gives { (fed : List ℕ) (past : Past) → Took self.old fed past → Gives fed past self.new result }
        ensures progresses { Progresses self.old self.new result }
    {
        self.skip_blank();
        match look_at(self.alloc, self.held(), self.scanned()) {
            Look::Head { head, length } => self.ask(head, length),
            Look::Refused { why, bare } => self.refuse(why, bare),
            Look::Open => self.wait_for_head(),
            Look::NoMemory => Step::Done(End::NoMemory),
        }
    }
}
