//! Where a session stands, as its driver sees it.
ghost use Rattle.std.specs.Prelude.{◌≡◌};
ghost use Rattle.http_session.specs.Views.{is_over_at, is_reading_at};

use crate::place::Place;
use crate::session::Session;

impl Session {
    /// Whether it reads a content.
    pub fn is_inside(&self) -> bool
        ensures { result ≡ is_reading_at self.now.place }
    {
        match self.place {
            Place::Inside { .. } => true,
            Place::Between
            | Place::Asked { .. }
            | Place::Beginning { .. }
            | Place::Putting { .. }
            | Place::Over => false,
        }
    }

    /// Whether it has ended.
    pub fn is_over(&self) -> bool
        ensures { result ≡ is_over_at self.now.place }
    {
        match self.place {
            Place::Over => true,
            Place::Between
            | Place::Asked { .. }
            | Place::Beginning { .. }
            | Place::Inside { .. }
            | Place::Putting { .. } => false,
        }
    }
}
