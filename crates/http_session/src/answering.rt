//! The answers that a session is given.
ghost use Rattle.std.specs.Prelude.{◌≡◌, ◌||◌, not, ◌++◌, ℕ, List, [], true, false, if◌then◌else◌};
ghost use Rattle.http_heads.specs.Response.{refused_with};
ghost use Rattle.http_front.specs.Entries.{is_begun};
ghost use Rattle.http_front.specs.Asking.{is_empty};
ghost use Rattle.http_front.specs.Responses.{replied_with};
ghost use Rattle.session_history.specs.Marks.{replied, failed, broke};
ghost use Rattle.session_history.specs.Saying.{why_upload};
ghost use Rattle.http_session.specs.declared.body.Body.{Body};
ghost use Rattle.http_session.specs.declared.place.Place.TheVariants as places;
ghost use Rattle.http_session.specs.Bodies.{IsReading};
ghost use Rattle.http_session.specs.Views.{awaits_at, takes_failure, place_behind, continue_if, KeepsInput, KeepsCount};
ghost use Rattle.http_session.specs.Taken.{Past, Took, phase_of, with_mark, awaits, is_inside};

use crate::body::Body;
use crate::place::Place;
use crate::response::{upload_answer, write_continue, write_reply};
use crate::session::Session;
use http_heads::{Framing, refusal_response};
use repo_model::{Reply, UploadErr};

/// Whether a content of no bytes is announced.
fn is_empty(framing: Framing) -> bool
    ensures { result ≡ is_empty framing }
{
    match framing {
        Framing::None => true,
        Framing::Length(size) => size == 0,
        Framing::Chunked => false,
    }
}

/// Whether the session ends behind an upload whose beginning is refused: its content isn't read.
fn ends_unread(framing: Framing, closes: bool) -> bool
    ensures { result ≡ (closes || not (is_empty framing)) }
{
    closes || !is_empty(framing)
}

impl Session {
    /// Says the response of a reply, and stands behind it.
    fn say_reply(&mut self, reply: &Reply, bare: bool, closes: bool)
        ensures { self.new ≡ record self.old { place = place_behind closes; out = replied_with bare closes [] reply.now } }
    {
        self.out_len = write_reply(reply, bare, closes, &mut self.out);
        self.place = Place::behind(closes);
    }

    /// An upload was begun: its content comes next.
    fn go_on(&mut self, framing: Framing, expects: bool, closes: bool)
        ensures { (body : Body) × IsReading framing body [] [] × (self.new ≡ record self.old { place = places.Inside body closes; out = continue_if expects }) }
    {
        self.out_len = write_continue(expects, &mut self.out);
        self.place = Place::Inside {
            body: Body::new(framing),
            closes,
        };
    }

    /// Says that an upload failed, or that memory was refused, and ends.
    fn fail(&mut self, why: UploadErr, bare: bool)
        ensures { self.new ≡ record self.old { borrowed = []; held = self.old.borrowed ++ self.old.held; place = places.Over; out = refused_with bare true (why_upload why) } }
    {
        let (status, words) = upload_answer(why);
        self.out_len = refusal_response(status, words.as_bytes(), bare, true, &mut self.out);
        self.place = Place::Over;
        self.borrowed = 0;
    }

    /// The reply to what was asked. Where no answer is due nothing changes.
    pub fn answer(&mut self, reply: &Reply)
        ensures answered { (fed : List ℕ) (past : Past) → Took self.old fed past → awaits (phase_of past) ≡ true → Took self.new fed (with_mark (replied reply.now) past) }
        ensures none_due { awaits_at self.old.place ≡ false → self.new ≡ self.old }
        ensures kept { KeepsInput self.old self.new }
        ensures none_borrowed { (fed : List ℕ) (past : Past) → Took self.old fed past → awaits (phase_of past) ≡ true → self.new.borrowed ≡ [] }
    {
        match self.place {
            Place::Asked { bare, closes } => self.say_reply(reply, bare, closes),
            Place::Putting { closes } => self.say_reply(reply, false, closes),
            Place::Beginning {
                framing,
                expects,
                closes,
            } => match reply {
                Reply::Begun { store: _ } => self.go_on(framing, expects, closes),
                _ => {
                    let ends = ends_unread(framing, closes);
                    self.say_reply(reply, false, ends);
                }
            },
            Place::Between | Place::Inside { .. } | Place::Over => {}
        }
    }

    /// In the place of a reply: an upload couldn't be sealed, or memory was refused. In a content whose upload was told to go on: its
    /// upload failed. Elsewhere, and where something is still to be said, nothing changes.
    pub fn local(&mut self, why: UploadErr)
        ensures failed { (fed : List ℕ) (past : Past) → Took self.old fed past → awaits (phase_of past) ≡ true → Took self.new fed (with_mark (failed why) past) }
        ensures broke { (fed : List ℕ) (past : Past) → Took self.old fed past → is_inside (phase_of past) ≡ true → self.old.out ≡ [] → Took self.new fed (with_mark (broke why) past) }
        ensures ignored { takes_failure self.old ≡ false → self.new ≡ self.old }
        ensures kept { KeepsCount self.old self.new }
    {
        match self.place {
            Place::Asked { bare, closes: _ } => self.fail(why, bare),
            Place::Beginning { .. } => self.fail(why, false),
            Place::Putting { .. } => self.fail(why, false),
            Place::Inside { .. } => {
                if self.out_len == 0 {
                    self.fail(why, false);
                }
            }
            Place::Between | Place::Over => {}
        }
    }
}
