//! The next step of a session.
ghost use Rattle.std.specs.Prelude.{◌≡◌, ◌≤◌, ℕ, List, [], true, false, length, take, drop};
ghost use Rattle.http_heads.specs.Response.{refused_with, why_body};
ghost use Rattle.session_history.specs.declared.ask.Ask.TheVariants as asks;
ghost use Rattle.http_session.specs.declared.step.Step.TheVariants as steps;
ghost use Rattle.http_session.specs.declared.place.Place.TheVariants as places;
ghost use Rattle.http_session.specs.Views.{awaits_at};
ghost use Rattle.http_session.specs.Taken.{Past, Took};
ghost use Rattle.http_session.specs.Steps.{Gives, Progresses, wait_step};

use crate::body::{Body, BodyStep};
use crate::place::Place;
use crate::session::Session;
use crate::step::Step;
use http_front::End;
use http_heads::BodyErr;
use session_history::Ask;

impl Session {
    /// What comes next where the bytes decide nothing: more of them, or an end, inside a request or not.
    pub(crate) fn wait(&self, inside: bool) -> Step
        ensures { result ≡ wait_step self.now.longer self.now.ended inside }
    {
        if self.longer {
            return Step::Done(End::InputTooLong);
        }
        if !self.ended {
            return Step::Need;
        }
        if inside {
            Step::Done(End::Cut)
        } else {
            Step::Done(End::Clean)
        }
    }

    /// Refuses the content that is read: its upload is to be ended first.
    fn spoil(&mut self, refusal: BodyErr) -> Step
        requires { self.old.borrowed ≡ [] }
        ensures step { result ≡ steps.Ask asks.Abort }
        ensures new { self.new ≡ record self.old { held = []; place = places.Over; out = refused_with false true (why_body refusal) } }
    {
        let (status, words) = refusal.answer();
        self.end_with(status, &words, false);
        Step::Ask(Ask::Abort)
    }

    /// Takes framing, behind which the content stands at that place.
    fn take_framing(&mut self, body: Body, closes: bool, count: usize)
        requires none { self.old.borrowed ≡ [] }
        requires within { count ≤ length self.old.held }
        ensures { self.new ≡ record self.old { held = drop count self.old.held; place = places.Inside body closes } }
    {
        self.take(count);
        self.place = Place::Inside { body, closes };
    }

    /// Lends content, behind which it stands at that place.
    fn lend_content(&mut self, body: Body, closes: bool, count: usize) -> Step
        requires none { self.old.borrowed ≡ [] }
        requires within { count ≤ length self.old.held }
        ensures step { result ≡ steps.Body count }
        ensures new { self.new ≡ record self.old { borrowed = take count self.old.held; held = drop count self.old.held; place = places.Inside body closes } }
    {
        self.lend(count);
        self.place = Place::Inside { body, closes };
        Step::Body { length: count }
    }

    /// What comes next in a content.
    fn next_content(&mut self, body: Body, closes: bool) -> Step
        requires none { self.old.borrowed ≡ [] }
        requires quiet { self.old.out ≡ [] }
        requires place { self.old.place ≡ places.Inside body closes }
        ensures gives { (fed : List ℕ) (past : Past) → Took self.old fed past → Gives fed past self.new result }
        ensures progresses { Progresses self.old self.new result }
    {
        let mut body = body;
        'pieces: loop {
            match body.next(self.held()) {
                BodyStep::Framing { length } => self.take_framing(body, closes, length),
                BodyStep::Content { length } => return self.lend_content(body, closes, length),
                BodyStep::Need => return self.wait(true),
                BodyStep::Whole => {
                    self.stand_at(Place::Putting { closes });
                    return Step::Ask(Ask::Commit);
                }
                BodyStep::Bad(refusal) => return self.spoil(refusal),
            }
        }
    }

    /// What to do next. No answer may be due.
    pub fn next(&mut self) -> Step
        requires { awaits_at self.old.place ≡ false }
        ensures gives { (fed : List ℕ) (past : Past) → Took self.old fed past → Gives fed past self.new result }
        ensures progresses { Progresses self.old self.new result }
    {
        if self.out_len > 0 {
            return Step::Say;
        }
        if self.borrowed > 0 {
            return Step::Body {
                length: self.borrowed,
            };
        }
        match self.place {
            Place::Between => self.next_head(),
            Place::Inside { body, closes } => self.next_content(body, closes),
            Place::Over => Step::Done(End::Closed),
            Place::Asked { .. } | Place::Beginning { .. } | Place::Putting { .. } => unreachable!(),
        }
    }
}
