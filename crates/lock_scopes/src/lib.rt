//! Lends the phases what they work on, where threads share a device: a unit, or a queue with the memory, each under a
//! lock. Beside this stand functions that run a phase, or a few that follow one another, in one hold of what they
//! work on.
//!
//! # Proved
//!
//! What a lock lends is lawful, memory has at most 2^28 bytes, and so they come back. No clause says that it is the
//! one that the lock held before. Whenever a unit's lock is free, its history has all Commits that were counted for it.
//! The acts of the operator in it weigh what was weighed for it, at its address and by any weighing: so they are those
//! that were made of it. Phases that share a hold do each their part on what the one before left.
//!
//! Whenever a queue's lock is free, each request that it accepted has one fetch, and each note Direct that it has is of
//! a request whose fetch decided its answer. Nothing but a fetch and the answer in its hold adds to either: that rests
//! on visibility.
#![tactic(auto)]

mod acting;
mod acts;
mod at_memory;
mod at_queues;
mod at_units;
mod counted;
mod gate;
mod holding;
mod joined_queue;
mod joined_unit;
mod kept_queue;
mod lend;
mod locked;
mod part;
mod weighing;

pub use acting::{hard_on, resize_on};
pub use acts::{Act, Acts};
pub use at_memory::{peek_on, poke_on};
pub use at_queues::{
    answer_on, answer_tmf_on, direct_on, fetch_control_on, fetch_event_on, raise_on,
};
pub use at_units::{check_on, commit_on, enter_on, leave_on, mark_on, prepare_on};
pub use counted::CountedUnit;
pub use gate::{Gate, Open, Point};
pub use holding::hold;
pub use joined_queue::{answer_take_on, take_on};
pub use joined_unit::{NextJob, leave_enter_commit_on, leave_enter_on};
pub use kept_queue::{KeptQueue, NextChain};
pub use lend::{QueueLender, UnitLender};
pub use locked::{LockedQueues, LockedUnits};
pub use part::Part;
pub use weighing::Weighing;
