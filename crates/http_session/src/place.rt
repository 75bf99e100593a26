ghost use Rattle.std.specs.Prelude.{◌≡◌};
ghost use Rattle.http_session.specs.Views.{place_of, place_behind};

use crate::body::Body;
use http_heads::{Framing, Head, Method};

/// Where a session stands, with what it has to know of the request that it is in.
#[derive(Clone, Copy, Debug, PartialEq, Eq)]
pub enum Place {
    /// Between requests.
    Between,
    /// It asked for a content, or to delete one. `bare`: the response has no body.
    Asked {
        bare: bool,
        closes: bool,
    },
    /// It asked to begin an upload.
    Beginning {
        framing: Framing,
        expects: bool,
        closes: bool,
    },
    /// It reads a content.
    Inside {
        body: Body,
        closes: bool,
    },
    /// It asked to put one.
    Putting {
        closes: bool,
    },
    /// It has ended.
    Over,
}

impl Place {
    /// Where a session stands that asked for the first call of a head.
    pub(crate) fn of(head: &Head) -> Place
        ensures { result ≡ place_of head.now head.now.method }
    {
        let closes = head.closes;
        match head.method {
            Method::Get | Method::Delete => Place::Asked {
                bare: false,
                closes,
            },
            Method::Head => Place::Asked { bare: true, closes },
            Method::Put => Place::Beginning {
                framing: head.framing,
                expects: head.expects,
                closes,
            },
        }
    }

    /// Where a session stands behind an answer.
    pub(crate) fn behind(ends: bool) -> Place
        ensures { result ≡ place_behind ends }
    {
        if ends { Place::Over } else { Place::Between }
    }
}
