//! A transition that touches two parts, as a share at each.

ghost use Rattle.std.specs.Prelude.{ℕ, ◌≡◌, ⊤, MatchBool};
ghost use Rattle.shared_trace.specs.Halves.{Whole};
ghost use Rattle.device_model.specs.World.{PlainWorld};
ghost use Rattle.device_model.specs.Transitions.{Transition};
ghost use Rattle.host_trace.specs.Inner.Passing.{IsBetween, HasDone};

use crate::device::{Device, Setup};
use crate::share::{Share, add_share};
use shared_trace::{Book, Mark, Naming, Said};
use std::marker::PhantomData;

/// A transition of two parts, with the number of that where it begins. Each call of a program picks it.
pub trait Passing {
    ghost first: { ℕ };

    ghost whole: { Whole Transition PlainWorld };
}

/// Its share at the part where it begins.
pub struct First<T> {
    of: PhantomData<T>,
}

impl<T: Passing> Said<Share> for First<T> {
    ghost event = { record { part = T.first; whole = T.whole } };
}

/// Its share at the part where it is done.
pub struct Last<T> {
    of: PhantomData<T>,
}

impl<T: Passing> Said<Share> for Last<T> {
    ghost event = { record { part = T.whole.last; whole = T.whole } };
}

/// Adds the shares of both parts of a transition. Who calls it holds both. False as of `Mark::step`.
pub fn pass<S: Setup, J: Naming, T: Passing>(
    first: &mut Mark<Share, Device<S>, J>,
    last: &mut Mark<Share, Device<S>, J>,
    book: &Book<Share, Device<S>, J>,
) -> bool
    requires begins { T.first ≡ first.old.number }
    requires between { IsBetween S.number S.world first.old last.old T.whole }
    ensures { MatchBool result (HasDone T.whole first.old first.new × HasDone T.whole last.old last.new) ⊤ }
{
    if !add_share::<S, J, First<T>>(first, book) {
        return false;
    }
    last.learn(&first.known());
    if !add_share::<S, J, Last<T>>(last, book) {
        return false;
    }
    first.learn(&last.known());
    true
}
