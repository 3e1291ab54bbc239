//! What the value of one part carries: its part's number, and what it knows of the log.

ghost use Rattle.std.specs.Prelude.{◌≡◌, ◌<◌, [], List, MatchBool};
ghost use Rattle.shared_trace.specs.Events.{IsLawful, PlainMark, events_of, count_of};
ghost use Rattle.shared_trace.specs.Inner.Logs.{IsPast, AreBelow, Steps};

use crate::book::{Book, Front};
use crate::law::{Laws, Naming, Said};
use std::marker::Model;

/// The most events of a part.
const MOST: u64 = 1 << 62;

/// The mark of a part, which lies beside the part's value: nobody else adds events of that part. Clauses see the log as
/// it was with the part's latest event, `own`, and what was seen of the log since, `known`.
#[derive(Drop)]
pub struct Mark<E, L: Laws<E>, J: Naming> {
    number: usize,
    count: u64,
    own: Front<E, L, J>,
    known: Front<E, L, J>,
}

impl<E, L: Laws<E>, J: Naming> Model for Mark<E, L, J> {
    ghost use Rattle.std.specs.Prelude.{◌≡◌, ◌<◌};
    ghost use Rattle.shared_trace.specs.Events.{PlainMark, count_of};
    ghost use Rattle.shared_trace.specs.Inner.Logs.{IsPast};

    ghost Value = { PlainMark E };

    ghost view = { λ m. record { number = m.number; own = m.own; known = m.known } };

    ghost invariant = { λ m. (m.number < L.parts) × (m.count ≡ count_of L.part_of m.number m.own) × IsPast m.own m.known };
}

impl<E, L: Laws<E>, J: Naming> Mark<E, L, J> {
    /// Makes the mark of a part that has no event, given the log that has none.
    pub fn new(number: usize, front: &Front<E, L, J>) -> Mark<E, L, J>
        requires part { number < L.parts }
        requires none { front.now ≡ [] }
        ensures { result ≡ record { number = number; own = []; known = [] } }
    {
        Mark {
            number,
            count: 0,
            own: front.again(),
            known: front.again(),
        }
    }

    /// Returns the number of its part.
    pub fn number(&self) -> usize
        ensures { result ≡ self.now.number }
    {
        self.number
    }

    /// Returns what is known of the log.
    pub fn known(&self) -> Front<E, L, J>
        ensures known { result ≡ self.now.known }
        ensures later { IsPast self.now.own self.now.known }
    {
        self.known.again()
    }

    /// Learns what another front saw.
    pub fn learn(&mut self, front: &Front<E, L, J>)
        ensures number { self.new.number ≡ self.old.number }
        ensures own { self.new.own ≡ self.old.own }
        ensures this { IsPast self.old.known self.new.known }
        ensures that { IsPast front.now self.new.known }
    {
        self.known.learn(front);
    }

    /// Returns how many events of its part the log had with the latest of them.
    pub fn count(&self) -> u64
        ensures count { result ≡ count_of L.part_of self.now.number self.now.own }
        ensures later { IsPast self.now.own self.now.known }
    {
        self.count
    }

    /// Adds an event of its part. False where the log has others of the part, which who holds the part's lock never
    /// finds, or too many.
    pub fn step<S: Said<E>>(&mut self, book: &Book<E, L, J>) -> bool
        requires of { L.part_of S.event ≡ self.old.number }
        requires may { (past : List E) → IsPast self.old.known past → IsLawful L.may past → AreBelow L.part_of L.parts past
            → events_of L.part_of self.old.number past ≡ events_of L.part_of self.old.number self.old.own
            → L.may past S.event }
        ensures { MatchBool result (Steps L.part_of L.may self.old S.event self.new) (self.new ≡ self.old) }
    {
        if self.count >= MOST {
            return false;
        }
        let Some(front) = self.known.add::<S>(book, self.number, self.count) else {
            return false;
        };
        self.count += 1;
        self.own = front.again();
        self.known = front;
        true
    }
}
