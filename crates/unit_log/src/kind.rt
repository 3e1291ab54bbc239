//! The kinds of steps.

use ring_core::Ticket;
use unit_model::Rule;

/// A step of a unit's history: its kind, and of which chain it is. A Reset's code, a Resize's capacity and a Commit's
/// reply aren't told.
#[derive(Clone, Copy, PartialEq, Eq)]
pub enum StepKind {
    /// A task entered the task set (SAM-5 §8.1).
    Enter(Ticket),
    /// A request was refused with TASK SET FULL (SAM-5 §5.3.1).
    Full(Ticket),
    /// A command ran whole.
    Commit(Ticket),
    /// A command was refused memory and answered BUSY (SAM-5 §5.3.1).
    Busy(Ticket),
    /// Tasks were aborted (SAM-5 §7.2, §7.3, §7.5).
    Abort(Rule),
    /// The unit was reset (SAM-5 §7.6, §7.7).
    Reset,
    /// The unit was given another capacity (SBC-3 §4.5).
    Resize,
    /// A task left, once it was answered.
    Leave(Ticket),
}
