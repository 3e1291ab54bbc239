//! Keeps what the seats of a host answered, and tells whether the report of a closed host adds up. Then each chain is
//! used, each request is answered once, and each answer is that of its command in a unit's history.
//!
//! # Proved
//!
//! A report is given back as it was exactly where nothing in it is amiss, unless memory was refused.
#![tactic(auto)]

mod belonging;
mod closing;
mod confirming;
mod examining;
mod fault;
mod kept;
mod least;
mod reading;
mod replies;
mod report;
mod tables;
mod tally;

pub use closing::{ClosedQueues, report_closed};
pub use examining::examine;
pub use fault::CloseFault;
pub use kept::Kept;
pub use report::Report;
