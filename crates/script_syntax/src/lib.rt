//! The language of scripts as text: a script's lines, a line's words, and what the words say. Nothing
//! here runs a script.
//!
//! # Proved
//!
//! Words are taken exactly where they are numbers, capacities, names or units.
#![tactic(auto)]

mod command;
mod fault;
mod guest_line;
mod header;
mod host_line;
mod lines;
mod naming;
mod positions;
mod print_line;
mod ring_place;
mod send;
mod step;
mod values;

pub use command::Command;
pub use fault::{LineFault, ScriptFault, Stop};
pub use guest_line::{GuestLine, Race};
pub use header::{Disk, Features, HeaderLine, Memory, Queues, Start};
pub use host_line::HostLine;
pub use lines::{LineText, lines_of, text_of};
pub use positions::first_wrong;
pub use print_line::PrintLine;
pub use ring_place::RingPlace;
pub use send::{Send, TaskManagement};
pub use step::Step;
pub use values::{Bytes, Item};
