//! A logical unit: its history, with what follows from it: its blocks, what it has pending, and its task set.
//!
//! # Proved
//!
//! `UnitState`: a history is lawful whatever a call is given. A call is one step or none, its answer exact by
//! cause. A request enters only the unit whose address it names, above the last ticket of its queue. Each job is
//! handed out once. A command runs whole, with the reply that its history gives; or its task was marked, or memory
//! was refused, and nothing changed. A Leave wants the proof that the chain was completed (`Answered`). A command that
//! needs pages which aren't in memory waits, with nothing changed (`commit_ready`). Where there is no room for them,
//! others go, and no block changes. SYNCHRONIZE CACHE waits, too: it ends with GOOD only where a crash of the host leaves
//! each block that it names as the block was once it might run, or later.
//!
//! A host reads and writes the pages of a disk that come and go, with one premise: it hands in what its storage kept, as the
//! unit's ledger says. It is given each page as the unit's blocks are then, and no page that it hands in, gives up or wrote
//! changes a block, a step or a task.
//!
//! Blocks, capacity, attentions and counts (modulo 2^64) are the history's, over disks that are given and given
//! back. Blocks outside the changes that it tells are unchanged since a place; it may always tell of its latest
//! place alone. What is served in one call has the same steps. A receipt is confirmed exactly where its Commit
//! stands at its place, with its reply where the unit still has that (`docs/DECISIONS.md`, "Memory").
#![tactic(auto)]

mod answering;
mod changes;
mod execution;
mod failing;
mod flushing;
mod making_room;
mod outcomes;
mod pages;
mod paging;
mod performing;
mod serving;
mod turn;
mod unit;
mod views;
mod withholding;

pub use answering::Answering;
pub use changes::{Changes, Range};
pub use outcomes::{BareReceipt, Entered, Outcome, Receipt, ResizeFault, Unknown};
pub use pages::{PreparedWrite, StartedWrite};
pub use task_set::{Arrival, Job, JobList};
pub use unit::{Place, UnitState, is_capacity};
pub use unit_log::{LATEST_KEPT, LONGEST_KEPT, StepKind};
