//! Reads scripts, and prints what their lines ask for, whatever serves their device. It has the device that a header
//! asks for, the names that lines may use, their faults, the guest's own lines, and the lines that print.
//!
//! # Proved
//!
//! Reading and printing are safe for every script, reader and writer. `check` ends.
#![tactic(auto)]

mod checker;
mod device;
mod guest;
mod header;
mod kind;
mod known;
mod printing;
mod runs;
mod script;
mod show;
mod wrong;

pub use checker::check;
pub use device::{Device, Hosted};
pub use guest::run_guest_line;
pub use header::{Wanted, stop_of};
pub use known::Known;
pub use printing::print;
pub use runs::written;
pub use script::{Script, command_of, line_number, read_whole};
