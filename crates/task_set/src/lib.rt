//! The tasks of a logical unit that are alive, and the jobs that are handed out.
//!
//! # Proved
//!
//! At most 64 tasks, the oldest first, each with its job exactly as long as it waits; the next one is refused. A
//! mark meets what its rule says and isn't done, and keeps the first reason. Jobs that wait no longer come back by
//! order of entry. Only to make a list of jobs takes memory.
#![tactic(auto)]

mod blocking;
mod job;
mod set;
mod shared;
mod task;
mod walks;

pub use job::{Arrival, Job, JobList};
pub use set::{Full, MOST_TASKS, TaskSet};
pub use shared::SharedRequest;
pub use task::Task;
