//! Serves the device as one seat of a host: the job in its hand, the jobs that may run, and those of the hand-off. A
//! worker's seat also serves the request queues that it owns, and the first worker's the control queue and the event
//! queue. Each phase runs in a hold of the lock of what it works on.
//!
//! # Proved
//!
//! Before and after each call, as many receipts were counted for a seat as it kept and its hand is to give. One
//! that says that it lost a receipt is let off; then `close` gives no report. Room for what a job leaves was made
//! before its answer. No clause says that a call does anything.
#![tactic(auto)]

mod bell;
mod control;
mod in_a_row;
mod post;
mod progress;
mod requests;
mod shared;

pub use bell::Bell;
pub use control::{fetch_event, manage, raise};
pub use post::{Post, drain, finish, serve_handed_off};
pub use progress::Progress;
pub use requests::serve_queue;
pub use shared::{Parts, Shared};
