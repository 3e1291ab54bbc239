//! Defines what a SCSI command is answered (SPC-4, SAM-5, SBC-3): status, sense and data of each command of the
//! profile, and what each leaves in the blocks. Answers commands for a LUN that a target lacks.
//!
//! # Proved
//!
//! What is answered for a LUN that a target lacks is the definitions' (`docs/COMMANDS.md`).
#![tactic(auto)]

mod absent;
mod identity;
pub mod laws;
mod opcodes;
mod reply;
mod standard;

pub use absent::{ABSENT_BYTES, AbsentReply, exec_absent};
pub use identity::{Identity, SERIAL_BYTES};
pub use opcodes::{INQUIRY, REQUEST_SENSE};
pub use reply::{BUSY, CHECK_CONDITION, GOOD, Reply, TASK_SET_FULL};
pub use standard::standard_data;
