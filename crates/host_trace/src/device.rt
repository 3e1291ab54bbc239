//! Which device it is.

ghost use Rattle.std.specs.Prelude.{ℕ, ◌≡◌};
ghost use Rattle.device_model.specs.World.{PlainWorld};
ghost use Rattle.host_trace.specs.Parts.{Part};

use std::marker::{Brand, PhantomData};

/// How a device was opened, and which number each of its parts has. Each call of a program picks it.
pub trait Setup {
    ghost world: { PlainWorld };

    ghost parts: { ℕ };

    ghost number: { Part → ℕ };

    ghost apart: { (p q : Part) → number p ≡ number q → p ≡ q };
}

impl Setup for Brand {
    ghost use Rattle.host_trace.specs.Inner.Numbers as numbers;

    ghost world = { numbers.bare };

    ghost parts = { 9 };

    ghost number = { numbers.number };

    ghost apart = { numbers.apart };
}

/// The laws of a log of shares in transitions of that device.
pub struct Device<S: Setup> {
    of: PhantomData<S>,
}
