//! Laws of what a crash leaves of a unit's disk, in every order of a device's steps. They say nothing of code: they hold of every
//! program whose calls are transitions. No other crate stands on this one.
//!
//! # Proved
//!
//! SYNCHRONIZE CACHE that ended with GOOD leaves in each later crash what it left in one at that moment, or what was written over it
//! since, whatever the host is given, says that it kept, and whatever else happens (`what_a_flush_left_stays`).
//!
//! So does a command that changed blocks, and ended with GOOD, where its unit tells of no volatile write cache, or it asked for the
//! medium, as WRITE does with FUA (`what_was_written_through_stays`). It leaves that from the moment on when its reply is to be told
//! (`an_answer_is_on_the_medium`).
#![tactic(auto)]

mod answers;
mod flushes;

pub use answers::an_answer_is_on_the_medium;
pub use flushes::{what_a_flush_left_stays, what_was_written_through_stays};
