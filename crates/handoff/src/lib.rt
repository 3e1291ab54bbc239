//! Jobs handed from seat to seat through bounded queues, one for each seat, under a rule over what every seat put and
//! took.
//!
//! # Proved
//!
//! A put is refused only where the seat's own queue was full, and gives the job back. A take finds nothing only
//! where each queue was empty at some moment of the call. Neither takes memory. The very jobs that came out went
//! in, those of a seat in order (`gather`).
#![tactic(auto)]

mod lane;
mod queue;
mod rule;
mod seat;

pub use queue::Handoff;
pub use seat::{Seat, Taken};
