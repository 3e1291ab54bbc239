//! The memory of a guest that runs: it is read and written where it stands, over a bus, and may change at any moment.
//!
//! # Proved
//!
//! The same of memory that its guest changes at any moment: no byte of a decision is fetched twice. Each byte is
//! the first that the bus gave for its address in this phase (`reads_what_the_bus_gave`). A read asks once, or for
//! nothing where the phase read each of its bytes before. A write is stored at once, whole, behind all stores before;
//! a phase begins with a barrier. A read that is refused memory asks the bus for nothing, and is an error. The first 64
//! short reads of a phase are never refused, as long as it claims nothing. What is claimed is read once and not kept: the phase
//! read none of it before, no two claims have an address in common, and behind the first of them it reads only these.
#![tactic(auto)]

mod bus;
mod claims;
mod kept;
mod laws;
mod live;
mod long_runs;
mod recorded;
mod scattered;
mod span;

pub use bus::Bus;
pub use laws::reads_what_the_bus_gave;
pub use live::LiveMem;
pub use recorded::RecordedBus;
