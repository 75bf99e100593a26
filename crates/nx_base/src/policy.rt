/// What a hosted repository lets be written.
#[derive(Clone, Copy, Debug, PartialEq, Eq)]
pub enum Policy {
    /// Everything.
    Redeploy,
    /// Keys that have no content yet.
    NoRedeploy,
    /// Nothing.
    ReadOnly,
}
