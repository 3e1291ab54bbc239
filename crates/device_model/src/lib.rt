//! Defines the device as a plain value: what may happen in it, one atomic step at a time, and in which order a device
//! that is served takes these steps. States the laws of it, in whatever order they come. It has no code: the laws hold
//! of every program whose calls are such steps.
//!
//! # Proved
//!
//! Laws of the device: `docs/PROMISE.md` has those that the promise joins, `docs/PROOFS.md` the others.
#![tactic(auto)]

mod event;
pub mod laws;
pub mod live_laws;
pub mod settling_laws;
pub mod storage_laws;
pub mod trace_laws;
pub mod waiting_laws;

pub use event::Event;
