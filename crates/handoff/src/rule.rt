//! The rule of a queue, and what each of its steps tells.

use crossbeam_queue::protocol::{Join, Lesson, Outcome, Protocol, Split};
use logical_unit::Job;
use std::collections::LinkedList;

/// The jobs that one seat put into a queue and took from it, in order. Only proofs speak of it: no value of it is made.
pub(crate) struct Account {
    pub seat: u64,
    pub put: LinkedList<Job>,
    pub taken: LinkedList<Job>,
}

/// The knowledge of one pass of a queue: the accounts that it has and, where it is the chief, how many seats were made.
/// Only proofs speak of it: no value of it is made.
pub(crate) struct View {
    pub accounts: LinkedList<Account>,
    pub is_chief: bool,
    pub made: u64,
}

/// The rule.
pub(crate) struct InOrder;

impl Protocol<Job, View> for InOrder {
    ghost use Rattle.handoff.specs.Inner.Rule.{Agree, opening};

    ghost holds = { λ items views. Agree items views };

    ghost first = { opening };
}

/// The chief makes a seat, and takes one in.
pub(crate) struct Seats;

impl Split<View> for Seats {
    ghost use Rattle.handoff.specs.Inner.Rule.{one_more, newcomer};

    ghost left = { λ v. one_more v };

    ghost right = { λ v. newcomer v };
}

impl Join<View> for Seats {
    ghost use Rattle.handoff.specs.Inner.Rule.{joined, spent};

    ghost both = { λ v w. joined v w };

    ghost spent = { spent };
}

/// A job goes in: one kind of step.
pub(crate) struct Puts;

impl Outcome<Job, View> for Puts {
    ghost use Rattle.std.specs.Prelude.{◌≡◌};
    ghost use Rattle.handoff.specs.Inner.Rule.{after_put};

    ghost then = { λ v job w. w ≡ after_put v job };
}

impl Lesson<Job, View> for Puts {
    ghost use Rattle.handoff.specs.Inner.Moves.{Balances};

    ghost fact = { λ v items. Balances v.accounts items };
}

/// A job comes out: the other kind of step.
pub(crate) struct Takes;

impl Outcome<Job, View> for Takes {
    ghost use Rattle.std.specs.Prelude.{◌≡◌};
    ghost use Rattle.handoff.specs.Inner.Rule.{after_take};

    ghost then = { λ v job w. w ≡ after_take v job };
}

impl Lesson<Job, View> for Takes {
    ghost use Rattle.handoff.specs.Inner.Moves.{Balances};

    ghost fact = { λ v items. Balances v.accounts items };
}

/// All accounts are with one pass.
pub(crate) struct All;

impl Lesson<Job, View> for All {
    ghost use Rattle.handoff.specs.Inner.Moves.{AreSettled};

    ghost fact = { λ v items. AreSettled v.accounts items };
}
