//! The parts of a ledger, each with the amount of its owner.

ghost use Rattle.std.specs.Prelude.{◌≡◌};

use std::sync::ledger::{Ledger, Share};

/// One part of a ledger, with the amount that its owner has of it. It takes no bytes.
#[derive(Drop)]
pub struct Part<L: Ledger> {
    pub share: Share<L>,
    pub ghost one: { share.parts ≡ 1 },
}

impl<L: Ledger> Part<L> {
    ghost use Rattle.std.specs.Prelude.{◌≡◌};

    /// Makes a part of a share that is one. Called once for each unit and seat of a ledger, where it is opened.
    pub fn new(share: Share<L>) -> Part<L>
        requires { share.parts ≡ 1 }
        ensures { result.share ≡ share }
    {
        Part { share }
    }
}
