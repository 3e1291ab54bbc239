//! The event queue's port: the buffers that the device holds, what each gets, and the events that wait.
//!
//! # Proved
//!
//! Buffers are given in the order in which they came, each with the next event, or with the news that events were
//! missed, once. A held buffer is its chain narrowed to 16 writable bytes. Only a new port takes memory.
#![tactic(auto)]

mod buffer;
pub mod laws;
mod port;
mod waiting;

pub use buffer::EventBuffer;
pub use port::EventPort;
pub use waiting::WaitingEvents;
