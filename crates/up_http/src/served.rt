//! What a run that ended answered.

/// What a run that ended answered.
#[derive(Clone, Copy, Debug, PartialEq, Eq, Drop)]
pub struct Served {
    /// How many requests were answered.
    pub requests: u32,
}
