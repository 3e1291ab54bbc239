//! The devices of one thread that scripts play on, each with its guest's memory: one that has it to itself, the same over disks on
//! storages of its host, and one on a memory that its guest changes between two reads.
//!
//! # Proved
//!
//! A device's memory is read and written where a script says, for every script: `read` and `write` of `GuestMemory` fail exactly
//! where bytes lie outside. No clause of `Machine` says which step a device takes: each calls the device's own.
#![tactic(auto)]

mod live_machine;
mod machine;
mod own_machine;
mod racing_bus;
mod stored_machine;

pub use live_machine::LiveMachine;
pub use machine::Machine;
pub use own_machine::OwnMachine;
pub use stored_machine::StoredMachine;
