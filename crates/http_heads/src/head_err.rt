ghost use Rattle.std.specs.Prelude.{◌≡◌};
ghost use Rattle.http_heads.specs.declared.head_err.HeadErr.TheVariants.{NoMemory};

use nx_base::NoMemory;

/// Why a head is refused: the first of these that holds.
#[derive(Clone, Copy, Debug, PartialEq, Eq, Hash)]
pub enum HeadErr {
    /// No head lies within the first 16,384 bytes.
    HeadTooLarge,
    /// `httparse`, with room for 64 fields, finds too many.
    TooManyHeaders,
    /// `httparse` doesn't read exactly these bytes as a head.
    BadHead,
    /// The method is none of GET, HEAD, PUT and DELETE.
    BadMethod,
    /// The target isn't `/repository/`, a name, `/` and a path.
    BadPath,
    /// Content-Length and Transfer-Encoding are both there.
    BothFramings,
    /// Transfer-Encoding is there in HTTP/1.0, more than once, or with another value than `chunked`.
    BadCoding,
    /// Content-Length is there more than once, or isn't 1 to 19 digits; or a method other than PUT has a content.
    BadLength,
    /// A PUT says nothing of its content's length.
    LengthRequired,
    /// The content has more than 1,073,741,824 bytes.
    BodyTooLarge,
    /// Memory ran out.
    NoMemory,
}

impl From<NoMemory> for HeadErr {
    ghost from_gives = { λ _ e. e ≡ NoMemory };

    fn from(_: NoMemory) -> Self {
        HeadErr::NoMemory
    }
}
