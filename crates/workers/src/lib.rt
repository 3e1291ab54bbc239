//! The device served by threads: the same phases as of one thread, each on what one lock lends, and a hand-off of jobs
//! between the threads. Crate `worker_steps` has what a thread does with its post and its queues.
//!
//! # Proved
//!
//! A host starts with as many workers as it is told, or is refused as a device with so many is. It has as many
//! units and queues as its configuration. Each seat but the last begins a thread, which brings it back.
//! `docs/THREADS.md` has what is promised of a host.
//!
//! `operator` and `resize` add one act of their kind, at the address of that index, exactly where they answer `Ok`
//! at a unit. An act is weighed in the hold in which that unit's history goes on by it; by visibility, only
//! `hard_on` and `resize_on` of `lock_scopes` add one. The hard resets and resizes in a report weigh what the acts
//! weigh, by any weighing. So each unit has as many hard resets, and as many resizes to each capacity, as were made
//! of it (`as_many_acts_as_were_made`). A function never makes a hard reset.
//!
//! The notes Direct of a report are exactly those of the requests for which their own fetch decided the answer. So
//! none is of a request that was to enter its unit.
#![tactic(auto)]

mod alone;
mod crew;
mod gathering;
mod hired;
mod host;
mod laws;
mod opening;
mod operating;
mod tallied;
mod worker;

pub use close_audit::{CloseFault, Report};
pub use config::{Config, StartFault};
pub use host::{Host, Seen};
pub use laws::as_many_acts_as_were_made;
pub use lock_scopes::{Gate, Open, Point, QueueLender, UnitLender, Weighing};
pub use logical_unit::Receipt;
pub use phases::{
    Cause, Note, ResetFault, ResizeFault, phase_answer, phase_answer_tmf, phase_check,
    phase_commit, phase_direct, phase_enter, phase_fetch, phase_fetch_control, phase_fetch_event,
    phase_hard, phase_leave, phase_mark, phase_prepare, phase_raise, phase_resize,
    phase_start_pages,
};
