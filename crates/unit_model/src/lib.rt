//! The history of a logical unit, and what follows from it: its task set, its blocks, what it has pending,
//! the replies to its commands, and which steps may come next.
//!
//! A history is a list of steps, newest first: what stands behind a step is its past.
//!
//! # Proved
//!
//! Laws of histories, without code: its edits are of definitions, which a law or a lemma refuses. Living tasks have
//! distinct tickets, are at most 64, and never are all blocked. A marked task never runs, one that ran isn't
//! marked, and one that left with no Commit and no Busy was marked. Only a command that ran with GOOD changes
//! blocks.
#![tactic(auto)]

mod counts;
pub mod laws;
mod reason;
mod rule;

pub use counts::Counts;
pub use reason::Reason;
pub use rule::Rule;
