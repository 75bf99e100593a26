ghost use Rattle.std.specs.Prelude.{◌≡◌, ◌≤◌, length};
ghost use Rattle.http_heads.specs.Response.{why, why_head, why_body};

use crate::body_err::BodyErr;
use crate::head_err::HeadErr;
use crate::refusal_words::RefusalWords;

impl HeadErr {
    /// The status and the word of a refused head.
    pub fn answer(self) -> (u16, &'static str)
        ensures why { why result.0 result.1.now ≡ why_head self }
        ensures short { length result.1.now ≤ 64 }
    {
        match self {
            HeadErr::HeadTooLarge => (431, "HeadTooLarge"),
            HeadErr::TooManyHeaders => (431, "TooManyHeaders"),
            HeadErr::BadHead => (400, "BadHead"),
            HeadErr::BadMethod => (405, "BadMethod"),
            HeadErr::BadPath => (400, "BadPath"),
            HeadErr::BothFramings => (400, "BothFramings"),
            HeadErr::BadCoding => (400, "BadCoding"),
            HeadErr::BadLength => (400, "BadLength"),
            HeadErr::LengthRequired => (411, "LengthRequired"),
            HeadErr::BodyTooLarge => (413, "BodyTooLarge"),
            HeadErr::NoMemory => (507, "NoMemory"),
        }
    }
}

impl BodyErr {
    /// The status and the words of a refused content.
    pub fn answer(self) -> (u16, RefusalWords)
        ensures why { why result.0 result.1 ≡ why_body self }
    {
        match self {
            BodyErr::BadChunk { at } => (400, RefusalWords::new("BadChunk ").and_number(at)),
            BodyErr::BodyTooLarge => (413, RefusalWords::new("BodyTooLarge")),
        }
    }
}
