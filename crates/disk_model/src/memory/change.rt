use nx_base::Name;

/// A call that changed the list of a name.
#[derive(Debug, Drop)]
pub struct Change {
    /// The clock when it was called.
    pub at: u64,
    pub name: Name,
    /// The value that it gives the name. A call that settles the name gives none.
    pub value: Option<Vec<u8>>,
    /// Whether it took effect: it didn't where it failed.
    pub done: bool,
    /// Whether it leaves the present value alone in the list, in place of adding a value to it.
    pub settles: bool,
}
