//! Task management functions (SAM-5 §7): what a chain of the control queue demands, and one function from its
//! beginning to its response. It holds no unit. Its caller marks and asks the units, and tells it
//! what came of that.
//!
//! # Proved
//!
//! What a control chain demands is a function of its first bytes, its lengths and the inventory. A function comes
//! to its units in turn, keeps each mark until it is clear, and answers by what it found. Deciding takes no memory.
#![tactic(auto)]

mod control;
mod demand;
mod function;
mod kind;
mod laws;

pub use control::{ControlDecision, decide_control};
pub use demand::{TaskManagement, begin};
pub use function::{Function, Mark};
pub use kind::{Kind, MarkBy};
pub use laws::{
    direct_answers, each_mark_is_waited_for, each_unit_is_asked_once, each_unit_is_marked_once,
    kinds_by_subtype, looks_are_clear, places_are_those_of_the_target, refusals_in_order,
    refused_functions_fail, responses_of_functions, units_of_functions,
};
