/// What one call draws from the outside: a time in milliseconds since 1970, and ten random bytes.
#[derive(Clone, Copy, Debug, PartialEq, Eq)]
pub struct Moment {
    pub now: u64,
    pub random: [u8; 10],
}
