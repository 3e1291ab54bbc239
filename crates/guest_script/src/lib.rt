//! Plays scripts of a guest, whose device one thread serves or several; or says what is wrong with a script, without a
//! device.
//!
//! # Proved
//!
//! Plays are safe for every script, reader and writer. `play` ends; `serve` may wait, closes its host
//! whatever way it ends, and prints of a report that adds up. A play takes no more steps than it may, and ends as
//! `CannotWrite` where its writer refuses something.
#![tactic(auto)]

mod allowance;
mod host_memory;
mod service;
mod session;
mod steps;
mod trace;

pub use script_semantics::check;
pub use script_syntax::{LineFault, ScriptFault};
pub use service::serve;
pub use session::{Options, play};
