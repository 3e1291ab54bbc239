//! The unit attention conditions that a logical unit has pending: a list of additional sense codes,
//! oldest first (SAM-5 §5.14).
//!
//! # Proved
//!
//! Pending codes are distinct, the oldest first.
#![tactic(auto)]

mod attentions;
mod code;
mod laws;

pub use attentions::Attentions;
pub use code::Code;
pub use laws::{
    codes_stay_distinct, known_codes_are_the_constants, oldest_stays_first, raised_code_is_pending,
    raising_again_changes_nothing,
};
