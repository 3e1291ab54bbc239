//! The rule of a book, and the opening of one.

ghost use Rattle.std.specs.Prelude.{ℕ, List};

use logbook::{Gain, Opening, Plain, Play, Rule};
use std::marker::{Brand, PhantomData};

/// Which events there are: how many parts they are of, of which part each is, and which may come next behind a log.
pub trait Laws<E> {
    ghost parts: { ℕ };

    ghost part_of: { E → ℕ };

    ghost may: { List E → E → Type 0 };

    // Some event. Looks ask for it, and never add it.
    ghost some: { E };
}

/// The rule of a book whose words count the events of their parts.
pub struct Law<L> {
    of: PhantomData<L>,
}

impl<E, L: Laws<E>> Rule<E, u64> for Law<L> {
    ghost use Rattle.std.specs.Prelude.{[]};
    ghost use base.Fml.{ftrue};
    ghost use Rattle.shared_trace.specs.Inner.Rules.{IsKept};

    ghost holds = { λ cells log. IsKept L.parts L.part_of L.may cells log };

    ghost first = { [] };

    ghost hinted = { λ n log. Unit {0} };

    ghost shows = { λ log. [] };

    ghost keeps = { λ names log. ftrue };

    ghost moves = { λ ask before after answer. Unit {0} };
}

/// The update of callers, who trade nothing.
pub struct Nothing;

impl<E> Gain<E, u64> for Nothing {
    ghost use base.Fml.{ftrue};

    ghost after = { λ names about answer. ftrue };
}

/// A log that begins with no event.
pub struct Empty;

impl<E> Opening<(), E> for Empty {
    ghost use Rattle.std.specs.Prelude.{[]};

    ghost log = { λ count about. [] };
}

/// A step that looks.
pub struct Look<L> {
    of: PhantomData<L>,
}

impl<E, L: Laws<E>> Play<E, u64> for Look<L> {
    ghost use Rattle.shared_trace.specs.Inner.Rules.{Looks};

    ghost then = { Looks L.parts L.part_of L.may };
}

/// A step that adds an event.
pub struct Add<L> {
    of: PhantomData<L>,
}

impl<E, L: Laws<E>> Play<E, u64> for Add<L> {
    ghost use Rattle.shared_trace.specs.Inner.Rules.{Adds};

    ghost then = { Adds L.parts L.part_of L.may };
}

/// The event of a step. Each call of a program picks it.
pub trait Said<E> {
    ghost event: { E };
}

/// A step that says an event.
pub struct Saying<S> {
    of: PhantomData<S>,
}

impl<E, S: Said<E>> Plain<(), E, u64> for Saying<S> {
    ghost use Rattle.std.specs.Prelude.{None};

    ghost ask = { λ about. S.event };

    ghost state = { λ about. None };
}

/// A step that says no event.
pub struct Quiet<L> {
    of: PhantomData<L>,
}

impl<E, L: Laws<E>> Plain<(), E, u64> for Quiet<L> {
    ghost use Rattle.std.specs.Prelude.{None};

    ghost ask = { λ about. L.some };

    ghost state = { λ about. None };
}

/// Which book it is. Each call of a program picks it.
pub trait Naming {
    ghost use Rattle.logbook.specs.Pages.{Book};

    ghost book: { Book };
}

impl Naming for Brand {
    ghost book = { record { number = 0; log_name = 0; cells_name = 0 } };
}
