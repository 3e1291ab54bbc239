//! A word for each part, and what was seen of the log.

ghost use Rattle.std.specs.Prelude.{ℕ, ◌≡◌, ◌+◌, ◌<◌, ◌≤◌, ◌^◌, ◌∷◌, List, [], length, slice_index_or, IfSome, IfOk};
ghost use Rattle.logbook.specs.Pages.{Named};
ghost use Rattle.shared_trace.specs.Events.{IsLawful, count_of};
ghost use Rattle.shared_trace.specs.Inner.Logs.{IsPast, AreBelow};
ghost use Rattle.shared_trace.specs.Inner.Rules.{word_of};

use crate::law::{Add, Empty, Law, Laws, Look, Naming, Nothing, Quiet, Said, Saying};
use logbook::{Offer, Seen, Start, Word};
use std::alloc::{AllocError, Global};
use std::marker::{Model, PhantomData};

/// A book with an empty log, which has no name yet.
#[derive(Drop)]
pub struct Opened<E, L: Laws<E>> {
    words: Vec<Word<E, u64, Law<L>>>,
    /// How many parts there are.
    pub parts: usize,
    /// What was seen of the log: its book is the one to name.
    pub seen: Seen<E, u64, Law<L>>,
    pub ghost empty: { seen.log ≡ [] },
    pub ghost row: { length words.items ≡ parts },
    pub ghost words_are: { (k : ℕ) (w : Named) → k < length words.items
        → slice_index_or words.items k w ≡ word_of k seen.book },
}

impl<E, L: Laws<E>> Opened<E, L> {
    /// Opens a book of so many parts.
    pub fn new(alloc: Global, parts: usize) -> Result<Opened<E, L>, AllocError>
        requires { parts ≡ L.parts }
        ensures { IfOk result (λ o. o.parts ≡ parts) }
    {
        let (seen, mut pens) = Seen::open_row::<(), Empty>(&(), Start::alone(), parts);
        let mut words = Vec::with_capacity(alloc, parts)?;
        for _ in 0..parts {
            let mut pen = pens.take();
            words.push(Word::tracked(0, &mut pen))?;
        }
        Ok(Opened { words, parts, seen })
    }

    /// Returns the book under its name, with the log that has no event.
    pub fn named<J: Naming>(self) -> (Book<E, L, J>, Front<E, L, J>)
        requires name { self.seen.book ≡ J.book }
        requires parts { self.parts ≡ L.parts }
        ensures { result.1 ≡ [] }
    {
        let Opened {
            words,
            parts: _,
            seen,
        } = self;
        (
            Book {
                words,
                of: PhantomData,
            },
            Front {
                seen,
                of: PhantomData,
            },
        )
    }
}

/// The words: how many events of each part stand in the log. Each is changed by who holds the lock of its part alone.
#[derive(Drop)]
pub struct Book<E, L: Laws<E>, J: Naming> {
    words: Vec<Word<E, u64, Law<L>>>,
    of: PhantomData<J>,
    ghost row: { length words.items ≡ L.parts },
    ghost words_are: { (k : ℕ) (w : Named) → k < length words.items → slice_index_or words.items k w ≡ word_of k J.book },
}

impl<E, L: Laws<E>, J: Naming> Book<E, L, J> {
    /// Returns how many parts there are.
    pub fn len(&self) -> usize
        ensures { result ≡ L.parts }
    {
        self.words.len()
    }
}

/// A log that was reached: the log of all threads goes on from it. It takes no bytes. Clauses see its events, the newest
/// first.
#[derive(Drop)]
pub struct Front<E, L: Laws<E>, J: Naming> {
    seen: Seen<E, u64, Law<L>>,
    of: PhantomData<J>,
}

impl<E, L: Laws<E>, J: Naming> Model for Front<E, L, J> {
    ghost use Rattle.std.specs.Prelude.{◌≡◌, List, reverse};
    ghost use Rattle.shared_trace.specs.Events.{IsLawful};
    ghost use Rattle.shared_trace.specs.Inner.Logs.{AreBelow};

    ghost Value = { List E };

    ghost view = { λ f. reverse f.seen.log };

    ghost invariant = { λ f. (f.seen.book ≡ J.book) × IsLawful L.may (reverse f.seen.log)
        × AreBelow L.part_of L.parts (reverse f.seen.log) };
}

impl<E, L: Laws<E>, J: Naming> Front<E, L, J> {
    /// Returns a copy.
    pub fn again(&self) -> Front<E, L, J>
        ensures same { result ≡ self.now }
        ensures lawful { IsLawful L.may self.now }
        ensures below { AreBelow L.part_of L.parts self.now }
    {
        Front {
            seen: self.seen.again(),
            of: PhantomData,
        }
    }

    /// Learns what another front saw.
    pub fn learn(&mut self, other: &Front<E, L, J>)
        ensures this { IsPast self.old self.new }
        ensures that { IsPast other.now self.new }
        ensures lawful { IsLawful L.may self.new }
        ensures below { AreBelow L.part_of L.parts self.new }
    {
        self.seen.learn(&other.seen);
    }

    /// Counts the events of a part, in a log that is then seen.
    pub fn count(&mut self, book: &Book<E, L, J>, part: usize) -> u64
        requires part { part < L.parts }
        ensures seen { IsPast self.old self.new }
        ensures count { count_of L.part_of part self.new ≡ result }
        ensures lawful { IsLawful L.may self.new }
        ensures below { AreBelow L.part_of L.parts self.new }
    {
        let mut offer: Offer<E, u64, Law<L>, Nothing> = self
            .seen
            .plain::<Nothing, (), Quiet<L>>(&());
        book.words[part].load::<Look<L>, Nothing>(&mut self.seen, &mut offer)
    }

    /// Adds an event of a part to some log that goes on from what was seen, and in which that part has so many events.
    /// `None` where it has another number, which who holds the part's lock never finds.
    pub fn add<S: Said<E>>(
        &self,
        book: &Book<E, L, J>,
        part: usize,
        count: u64,
    ) -> Option<Front<E, L, J>>
        requires room { count < 2 ^ 63 }
        requires part { part < L.parts }
        requires of { L.part_of S.event ≡ part }
        requires may { (past : List E) → IsPast self.now past → IsLawful L.may past → AreBelow L.part_of L.parts past
            → count_of L.part_of part past ≡ count → L.may past S.event }
        ensures { IfSome result (λ f. (past : List E) × IsPast self.now past × (count_of L.part_of part past ≡ count)
            × (f ≡ S.event ∷ past) × IsLawful L.may f × AreBelow L.part_of L.parts f) }
    {
        let mut seen = self.seen.again();
        let mut offer: Offer<E, u64, Law<L>, Nothing> = seen.plain::<Nothing, (), Saying<S>>(&());
        let mut pen = seen.no_pen();
        let found = book.words[part].compare_exchange::<Add<L>, Nothing>(
            count,
            count + 1,
            &mut seen,
            &mut offer,
            &mut pen,
        );
        if found != count {
            return None;
        }
        Some(Front {
            seen,
            of: PhantomData,
        })
    }
}
