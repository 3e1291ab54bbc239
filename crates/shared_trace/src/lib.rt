//! One log of what several threads do, with no word that all of them change. The log exists in proofs alone.
//!
//! The log has events, each of one part: a value under a lock of its own. A word for each part counts its events. Who
//! holds a part's lock alone changes its word, in one atomic step for each event. So no cache line is shared by all.
//!
//! - A `Book` has the words, a `Front` is a log that was reached. A front takes no bytes, and travels with anything.
//! - A `Mark` lies beside the value of its part. It knows all events of its part, and of the other parts what fronts told
//!   it. `Mark::step` adds an event wherever what the mark knows says that it may come (`Laws::may`).
//! - `close` looks at all words, and then again. Where it answers `Some`, there is one lawful log: it has all that each
//!   mark knows, and its events of each part are exactly those of the part's mark.
//!
//! Where an act touches several parts, it is an event at each (`specs/Halves.antt`). A lawful log of these is a list of
//! whole acts, as if each happened at one moment (`proofs/Wholes.antt`). That asks for acts that are local to the parts
//! that they touch (`AreLocal`). Crate `host_trace` has the device's transitions as such acts.
//!
//! No clause says that a step succeeds, or that `close` answers `Some`: both answer no where the log has events of a
//! part that its mark doesn't know. No thread of a host uses this crate yet.
//!
//! # Proved
//!
//! Values under locks of their own, each with a mark, have one log, which exists in proofs alone. Where `close`
//! answers `Some`, some lawful log has all that each mark knows, and its events of each part are exactly those of
//! the part's mark. A step adds its event only where the part's own word counts what its mark knows, and only one
//! that may come then.
#![tactic(auto)]

mod book;
mod closing;
mod law;
mod mark;
#[cfg(test)]
mod tests;

pub use book::{Book, Front, Opened};
pub use closing::close;
pub use law::{Law, Laws, Naming, Said};
pub use mark::Mark;
