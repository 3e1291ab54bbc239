//! Opens the parts of a device that is wanted, for a host of one thread and for one of several.
//!
//! # Proved
//!
//! A configuration opens its own queues, inventory and units: each queue of its layout and number, with nothing fetched, and
//! each unit as it is specified, with the LUNs of its target, and of which no step was taken. Units keep the replies of
//! their Commits exactly where the host asks for it.
#![tactic(auto)]

mod opening;

pub use opening::{Opened, open_parts, open_port};
