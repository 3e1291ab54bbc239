//! Decides of a request when it is fetched: it gets an answer that needs no unit, or goes to a unit, decoded. Makes the
//! bytes of answers.
//!
//! # Proved
//!
//! A decision is a function of the first bytes, the chain's lengths and the inventory: an answer, a unit with its
//! request, or a function. The first cause that holds decides. Deciding takes no memory.
#![tactic(auto)]

mod answer;
mod attribute;
mod decision;
mod direct;
mod inventory;
pub mod laws;
mod unit_request;

pub use answer::{ChainLengths, put_response_ok, response_ok};
pub use attribute::TaskAttribute;
pub use cdb::Profile;
pub use command_model::Identity;
pub use decision::{Decision, decide};
pub use direct::{DirectAnswer, DirectBytes, MOST_DIRECT_BYTES};
pub use inventory::{Inventory, MOST_UNITS, UnitSpec, are_rising};
pub use unit_request::UnitRequest;
