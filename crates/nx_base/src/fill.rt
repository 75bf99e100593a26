/// How uploads are spread over the writable members of a group of stores.
#[derive(Clone, Copy, Debug, PartialEq, Eq)]
pub enum Fill {
    /// The first writable member takes each upload.
    First,
    /// The writable members take uploads in turn, by the count of uploads so far.
    RoundRobin,
}
