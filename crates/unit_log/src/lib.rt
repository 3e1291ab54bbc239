//! The log of a logical unit's steps, and the last ticket of each queue that came.
//!
//! # Proved
//!
//! `StepLog`: its steps are those that were added, and proofs see each whole. The code keeps the kinds of the latest and folds the
//! oldest. Of folded steps it keeps which tasks an Abort or a Reset met, until that is forgotten, and, where replies are kept, which
//! are Commits. What it tells of a place is so by the steps. A Commit is found exactly where it stands, with its reply where both
//! have one. Counts (modulo 2^64) are the steps'. Room is made before a step is added, and to add it takes no memory. After want of
//! memory the steps are as before.
//!
//! `LastTickets`: a ticket is stale exactly where it isn't above the last of its queue.
#![tactic(auto)]

mod commits;
mod counted;
mod folding;
mod kept_replies;
mod kind;
mod last_tickets;
mod log;
mod recorded;
mod ring;
mod runs;

pub use kind::StepKind;
pub use last_tickets::LastTickets;
pub use log::{LATEST_KEPT, LONGEST_KEPT, StepLog};
pub use recorded::{RecordedEntry, RecordedReply, RecordedStep};
