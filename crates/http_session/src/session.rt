ghost use Rattle.std.specs.Prelude.{◌≡◌, ◌≤◌, ◌<◌, ◌+◌, ◌-◌, ◌^◌, ◌++◌, min, not, ℕ, List, [], true, false, length, take, drop, IfOk};
ghost use Rattle.http_heads.specs.Cut.{drop_blank, HasNoHead};
ghost use Rattle.http_heads.specs.Response.{why, refused_with};
ghost use Rattle.http_heads.specs.declared.head.Head.{Head};
ghost use Rattle.http_front.specs.Asking.{is_empty};
ghost use Rattle.session_history.specs.Phases.{inside};
ghost use Rattle.http_session.specs.declared.place.Place.TheVariants as places;
ghost use Rattle.http_session.specs.Views.{room_in, awaits_at};
ghost use Rattle.http_session.specs.Taken.{Past, no_past, Took, phase_of};

use crate::buffer::Buffer;
use crate::place::Place;
use http_heads::{RefusalWords, blank_len, refusal_response};
use nx_base::NoMemory;
use std::alloc::Global;
use std::marker::Model;

/// How many bytes a session reads at most.
pub(crate) const INPUT_LIMIT: u64 = 0x100_0000_0000;

/// A session.
#[derive(Drop)]
pub struct Session {
    pub(crate) alloc: Global,
    pub(crate) buffer: Buffer,
    /// The first bytes, in which no head stands.
    pub(crate) scanned: usize,
    /// How many of the first bytes are borrowed.
    pub(crate) borrowed: usize,
    pub(crate) place: Place,
    /// What there is to say, in the first bytes.
    pub(crate) out: [u8; 1024],
    pub(crate) out_len: usize,
    pub(crate) total: u64,
    pub(crate) ended: bool,
    pub(crate) longer: bool,
}

impl Model for Session {
    ghost use Rattle.std.specs.Prelude.{◌≡◌, ◌≤◌, ◌^◌, length, take, drop, true};
    ghost use Rattle.http_heads.specs.Cut.{HasNoHead};
    ghost use Rattle.http_session.specs.Views.{SessionView, awaits_at};

    ghost Value = { SessionView };

    ghost view = { λ s. record { borrowed = take s.borrowed s.buffer; held = drop s.borrowed s.buffer; place = s.place; out = take s.out_len s.out; total = s.total; ended = s.ended; longer = s.longer } };

    ghost invariant = { λ s. (s.borrowed ≤ length s.buffer) × (s.scanned ≤ length s.buffer) × HasNoHead (take s.scanned s.buffer) × (s.out_len ≤ 1024) × (s.total ≤ 2 ^ 40) × (awaits_at s.place ≡ true → s.out_len ≡ 0) };
}

impl Session {
    /// A session that was fed nothing.
    pub fn new(alloc: Global) -> Result<Session, NoMemory>
        ensures { IfOk result (λ s. Took s [] no_past × (s.ended ≡ false)) }
    {
        let buffer = Buffer::new(alloc)?;
        Ok(Session {
            alloc,
            buffer,
            scanned: 0,
            borrowed: 0,
            place: Place::Between,
            out: [0; 1024],
            out_len: 0,
            total: 0,
            ended: false,
            longer: false,
        })
    }

    /// Takes as many of the bytes as fit, and answers how many. A session takes 2^40 bytes, and knows where there are more.
    pub fn feed(&mut self, bytes: &[u8]) -> usize
        ensures count { result ≡ min (length bytes.now) (room_in self.old) }
        ensures taken { (fed : List ℕ) (past : Past) → Took self.old fed past → Took self.new (fed ++ take result bytes.now) past }
        ensures longer { self.old.total ≡ 2 ^ 40 → 0 < length bytes.now → self.new.longer ≡ true }
        ensures no_longer { self.old.total < 2 ^ 40 → self.new.longer ≡ self.old.longer }
        ensures ended { self.new.ended ≡ self.old.ended }
    {
        let room = INPUT_LIMIT - self.total;
        if room == 0 && !bytes.is_empty() {
            self.longer = true;
            return 0;
        }
        let most = room.min(bytes.len() as u64) as usize;
        self.keep(&bytes[..most])
    }

    /// Puts as many of the bytes behind as fit.
    fn keep(&mut self, bytes: &[u8]) -> usize
        requires { self.old.total + length bytes.now ≤ 2 ^ 40 }
        ensures count { result ≡ min (length bytes.now) (32768 - (length self.old.borrowed + length self.old.held)) }
        ensures new { self.new ≡ record self.old { held = self.old.held ++ take result bytes.now; total = self.old.total + result } }
    {
        let count = self.buffer.feed(bytes);
        self.total += count as u64;
        count
    }

    /// No more bytes will come.
    pub fn end_of_input(&mut self)
        ensures { self.new ≡ record self.old { ended = true } }
    {
        self.ended = true;
    }

    /// Whether an answer is due.
    pub fn awaits_answer(&self) -> bool
        ensures { result ≡ awaits_at self.now.place }
    {
        match self.place {
            Place::Asked { .. } | Place::Beginning { .. } | Place::Putting { .. } => true,
            Place::Between | Place::Inside { .. } | Place::Over => false,
        }
    }

    /// Whether content may come, where it reads one of which nothing was taken yet: whether it isn't known to be empty.
    pub fn expects_content(&self) -> bool
        ensures { (fed : List ℕ) (past : Past) (head : Head) → Took self.now fed past → phase_of past ≡ inside head → past.came ≡ [] → self.now.borrowed ≡ [] → result ≡ not (is_empty head.framing) }
    {
        match self.place {
            Place::Inside { body, closes: _ } => body.expects(),
            _ => false,
        }
    }

    /// The content that is borrowed.
    pub fn body(&self) -> &[u8]
        ensures { result.now ≡ self.now.borrowed }
    {
        &self.buffer.held()[..self.borrowed]
    }

    /// The content that is borrowed was taken.
    pub fn body_taken(&mut self)
        ensures new { self.new ≡ record self.old { borrowed = [] } }
        ensures taken { (fed : List ℕ) (past : Past) → Took self.old fed past → Took self.new fed (record past { came = past.came ++ self.old.borrowed }) }
    {
        self.drop_borrowed();
    }

    /// Takes what is borrowed.
    fn drop_borrowed(&mut self)
        ensures { self.new ≡ record self.old { borrowed = [] } }
    {
        self.buffer.take(self.borrowed);
        self.borrowed = 0;
        self.scanned = 0;
    }

    /// The bytes that are held, where none are borrowed.
    pub(crate) fn held(&self) -> &[u8]
        requires { self.now.borrowed ≡ [] }
        ensures held { result.now ≡ self.now.held }
        ensures short { length result.now ≤ 32768 }
    {
        self.buffer.held()
    }

    /// What there is to say.
    pub fn out(&self) -> &[u8]
        ensures { result.now ≡ self.now.out }
    {
        &self.out[..self.out_len]
    }

    /// What there was to say was said.
    pub fn said(&mut self)
        ensures new { self.new ≡ record self.old { out = [] } }
        ensures taken { (fed : List ℕ) (past : Past) → Took self.old fed past → Took self.new fed (record past { said = past.said ++ self.old.out }) }
    {
        self.out_len = 0;
    }

    /// Takes bytes from the front.
    pub(crate) fn take(&mut self, count: usize)
        requires none { self.old.borrowed ≡ [] }
        requires within { count ≤ length self.old.held }
        ensures { self.new ≡ record self.old { held = drop count self.old.held } }
    {
        self.buffer.take(count);
        self.borrowed = 0;
        if count > 0 {
            self.scanned = 0;
        }
    }

    /// Lends the first bytes.
    pub(crate) fn lend(&mut self, count: usize)
        requires none { self.old.borrowed ≡ [] }
        requires within { count ≤ length self.old.held }
        ensures { self.new ≡ record self.old { borrowed = take count self.old.held; held = drop count self.old.held } }
    {
        self.borrowed = count;
    }

    /// Takes all bytes, refuses what they ask, and ends the session.
    pub(crate) fn end_with(&mut self, status: u16, words: &RefusalWords, bare: bool)
        requires { self.old.borrowed ≡ [] }
        ensures { self.new ≡ record self.old { held = []; place = places.Over; out = refused_with bare true (why status words.now) } }
    {
        let count = self.held().len();
        self.take(count);
        self.out_len = refusal_response(status, words.as_bytes(), bare, true, &mut self.out);
        self.place = Place::Over;
    }

    /// Stands at a place, where nothing is left to say.
    pub(crate) fn stand_at(&mut self, place: Place)
        requires { self.old.out ≡ [] }
        ensures { self.new ≡ record self.old { place = place } }
    {
        self.place = place;
    }

    /// How many of the first bytes are known to hold no head.
    pub(crate) fn scanned(&self) -> usize
        requires { self.now.borrowed ≡ [] }
        ensures within { result ≤ length self.now.held }
        ensures none { HasNoHead (take result self.now.held) }
    {
        self.scanned
    }

    /// Whether bytes are held, where none are borrowed.
    pub(crate) fn has_held(&self) -> bool
        requires { self.now.borrowed ≡ [] }
        ensures some { result ≡ true → 0 < length self.now.held }
        ensures none { result ≡ false → self.now.held ≡ [] }
    {
        !self.held().is_empty()
    }

    /// Notes that the bytes hold no head, so that none of them is looked at again for one.
    pub(crate) fn note_scanned(&mut self)
        requires none { self.old.borrowed ≡ [] }
        requires no_head { HasNoHead self.old.held }
        ensures { self.new ≡ self.old }
    {
        self.scanned = self.held().len();
    }

    /// Takes the line ends in front.
    pub(crate) fn skip_blank(&mut self)
        requires { self.old.borrowed ≡ [] }
        ensures { self.new ≡ record self.old { held = drop_blank self.old.held } }
    {
        let count = blank_len(self.held());
        self.take(count);
    }
}
