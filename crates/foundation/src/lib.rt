//! The lowest crate: the refusal of memory, and histories that only proofs read. These take no memory, and their calls do
//! nothing at run time.
//!
//! # Proved
//!
//! A record takes no memory, and no program can read it. It is what its calls were given, as that was then.
#![tactic(auto)]

mod fault;
mod record;

pub use fault::NoMemory;
pub use record::Record;
