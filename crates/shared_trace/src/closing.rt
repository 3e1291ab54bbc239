//! The close: a look at all words, and then another.

ghost use Rattle.std.specs.Prelude.{◌≡◌, ⊤, length, IfSome, MatchBool};
ghost use Rattle.shared_trace.specs.Events.{Each};
ghost use Rattle.shared_trace.specs.Inner.Logs.{IsPast, IsCounted, Closes};

use crate::book::{Book, Front};
use crate::law::{Laws, Naming};
use crate::mark::Mark;

/// Tells whether each mark has its index, and as many events as its word counts in a log that is then seen.
fn are_counted<E, L: Laws<E>, J: Naming>(
    book: &Book<E, L, J>,
    front: &mut Front<E, L, J>,
    marks: &[Mark<E, L, J>],
) -> bool
    requires row { length marks.now ≡ L.parts }
    ensures seen { IsPast front.old front.new }
    ensures counted { MatchBool result (Each (IsCounted L.part_of front.old front.new) marks.now) ⊤ }
{
    for k in 0..marks.len() {
        let mark = &marks[k];
        if mark.number() != k {
            return false;
        }
        let found = front.count(book, k);
        if found != mark.count() {
            return false;
        }
    }
    true
}

/// Learns what each mark knows.
fn join<E, L: Laws<E>, J: Naming>(front: &mut Front<E, L, J>, marks: &[Mark<E, L, J>])
    ensures { Each (λ k m. IsPast m.known front.new) marks.now }
{
    for mark in marks {
        front.learn(&mark.known());
    }
}

/// Shows, once no thread holds a mark, the log of which the marks of all parts are the end. `None` where they aren't all,
/// or aren't in the order of their parts, or where a thread still adds events.
pub fn close<E, L: Laws<E>, J: Naming>(
    book: &Book<E, L, J>,
    front: &Front<E, L, J>,
    marks: &[Mark<E, L, J>],
) -> Option<Front<E, L, J>>
    ensures { IfSome result (λ log. Closes L.parts L.part_of L.may marks.now log) }
{
    if marks.len() != book.len() {
        return None;
    }
    let mut first = front.again();
    join(&mut first, marks);
    let mut log = first.again();
    if !are_counted(book, &mut log, marks) {
        return None;
    }
    let mut last = log.again();
    if !are_counted(book, &mut last, marks) {
        return None;
    }
    Some(log)
}
