//! The outcome of serving.

/// The outcome of a call of `World::serve` or `LiveWorld::serve`.
#[derive(Clone, Copy)]
pub struct Served {
    /// The number of events that changed something.
    pub steps: u64,
    /// True if another event would change something.
    pub more: bool,
}
