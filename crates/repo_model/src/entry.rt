use crate::call::Call;
use crate::reply::Reply;

/// A call, with the number of its caller and what it was answered.
#[derive(Drop)]
pub struct Entry {
    pub caller: u32,
    pub call: Call,
    pub reply: Reply,
}
