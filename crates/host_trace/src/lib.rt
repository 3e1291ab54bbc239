//! The log of what threads do with the parts of a device, as one trace of that device. The log exists in proofs alone.
//!
//! Parts are what one thread can hold while others work: memory, each queue's ring, what was fetched from a queue and
//! didn't enter yet, each unit, each seat, the hand-off, the open function, the event buffers and the events that wait
//! (`specs/Parts.antt`). A transition of `device_model` reads and changes the parts that it touches alone (`parts_of`).
//! It is a share at each of them, an event of the log of crate `shared_trace`. The last share is where it happens.
//!
//! - `add_share` adds the share of one part, `pass` both shares of a transition of two parts.
//! - `a_log_of_shares_is_a_trace`: a lawful log of shares is a list of transitions that lead from the opening, each where
//!   it may happen. A part whose latest transition is done stands as that one left it.
//! - `close`: where it answers `Some`, there is one trace of the device, of which all holds that is promised of a world
//!   (`IsOneTrace`). At its end each part stands as its mark says.
//!
//! A `Host` doesn't use this crate: what its threads do together isn't proved to be such a log. Two things stand between.
//! Its locked values, jobs and receipts carry no mark and no front. And its hand-off has lists that are looked at one by
//! one, where the device's `Take` looks at all of them at one moment.
//!
//! # Proved
//!
//! A transition of the device asks of the parts that it touches, and changes these alone. So a lawful log of
//! shares, an event for each part of a transition, is a trace of the device (`a_log_of_shares_is_a_trace`).
//! Transitions that lead from an opening keep its promise (`transitions_keep_the_promise`). Where `close` answers
//! `Some`, each part stands at the end of one trace as its mark says. No thread of a host adds to such a log, so no
//! clause of a host says any of this.
#![tactic(auto)]

mod closing;
mod device;
mod pair;
mod share;
pub mod trace_laws;

pub use closing::close;
pub use device::{Device, Setup};
pub use pair::{First, Last, Passing, pass};
pub use share::{Share, add_share};
