//! The function that is open.

use ring_core::Chain;
use std::marker::Model;
use task_mgmt::Function;

/// A task management function that is open, and the chain of the control queue that asked for it.
#[derive(Drop)]
pub struct OpenFunction {
    /// The chain, which has room for the response.
    pub chain: Chain,
    /// The function, which says what it does next.
    pub function: Function,
}

impl Model for OpenFunction {
    ghost use Rattle.std.specs.Prelude.{◌≤◌};
    ghost use Rattle.ring_core.specs.Parts.{writable_total};
    ghost use Rattle.device_model.specs.World.{Opened};

    ghost Value = { Opened };

    ghost view = { λ f. record { chain = f.chain; function = f.function } };

    ghost invariant = { λ f. 1 ≤ writable_total f.chain.parts };
}
