//! The counts of what a unit did.

/// The counts of what a unit did since it opened. A number that passes 2^64 - 1 begins again at 0.
#[derive(Clone, Copy, Debug, PartialEq, Eq)]
pub struct Counts {
    /// The tasks that were answered and left, whatever became of them.
    pub left: u64,
    /// The requests that were refused with TASK SET FULL (SAM-5 §5.3.1).
    pub full: u64,
    /// The commands that ran and were answered GOOD.
    pub good: u64,
    /// The commands that ran and were answered CHECK CONDITION.
    pub check_conditions: u64,
    /// The commands that were refused memory and answered BUSY.
    pub busy: u64,
    /// The bytes that commands took from the driver.
    pub data_out: u64,
    /// The bytes that commands gave to the driver.
    pub data_in: u64,
}
