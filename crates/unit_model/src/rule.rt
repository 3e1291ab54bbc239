//! The rules by which an abort meets tasks.

/// The tasks of a task set that an abort meets (SAM-5 §7.2, §7.3, §7.5).
#[derive(Clone, Copy, PartialEq, Eq)]
pub enum Rule {
    /// Those with this identifier, of 64 bits, as the driver chose it (ABORT TASK).
    Id(u64),
    /// All of them (ABORT TASK SET, CLEAR TASK SET).
    All,
}
