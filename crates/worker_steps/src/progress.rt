//! The progress of a worker.

/// The outcome of a step, or of a round of them. The calls that serve a seat or its queues answer it.
#[derive(Clone, Copy, PartialEq, Eq)]
pub enum Progress {
    /// There was nothing to do.
    Idle,
    /// Something was done; or memory was refused for it, and it is to be tried again.
    Made,
}

impl Progress {
    /// Returns `Made` if a call did something.
    pub(crate) fn of(did: bool) -> Progress {
        if did { Progress::Made } else { Progress::Idle }
    }

    /// Returns `Made` if this or the other is. Joins what several steps of a round came to.
    pub fn and(self, other: Progress) -> Progress {
        match self {
            Progress::Made => Progress::Made,
            Progress::Idle => other,
        }
    }

    /// Returns true if idle. A refused allocation does not count as idle. A worker asks at the end of a round.
    pub fn is_idle(self) -> bool {
        match self {
            Progress::Idle => true,
            Progress::Made => false,
        }
    }
}
