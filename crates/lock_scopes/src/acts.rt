//! The operator's acts, and the book that has what they weigh.

ghost use Rattle.std.specs.Prelude.{◌≡◌};

use crate::part::Part;
use crate::weighing::Weighing;
use foundation::Record;
use scsi_codec::Address;
use std::marker::Model;
use std::sync::ledger::{Book, Ledger, Share};

/// An act of the operator.
#[derive(Clone, Copy, Debug, PartialEq, Eq)]
pub enum Act {
    /// The unit of this address was reset.
    Reset(Address),
    /// The unit of this address was given so many blocks; true if the guest is told.
    Resize(Address, u64, bool),
}

/// The acts of a host's operator, in order, with the book of the ledger in which they are weighed on the units. Its total
/// is always what these acts weigh. It takes no bytes: proofs alone read it, and to a clause it is the list of acts. Only
/// `hard_on` and `resize_on` add to it.
#[derive(Drop)]
pub struct Acts<C: Ledger + Weighing> {
    book: Book<C>,
    made: Record<Act>,
}

impl<C: Ledger + Weighing> Model for Acts<C> {
    ghost use Rattle.std.specs.Prelude.{◌≡◌, List};
    ghost use Rattle.lock_scopes.specs.Acts.{acts_weight};
    ghost use Rattle.lock_scopes.specs.declared.acts.Act.{Act};

    ghost Value = { List Act };

    ghost view = { λ a. a.made.items };

    ghost invariant = { λ a. a.book.total ≡ acts_weight C.weight a.made.items };
}

impl<C: Ledger + Weighing> Acts<C> {
    ghost use Rattle.std.specs.Prelude.{◌≡◌, ◌+◌, ◌++◌, [], ◌∷◌};
    ghost use Rattle.lock_scopes.specs.Acts.{act_weight, acts_weight};

    /// Makes the acts of an operator that did nothing yet. Called once, where the ledger is opened.
    pub fn new(book: Book<C>) -> Acts<C>
        requires { book.total ≡ 0 }
        ensures { result ≡ [] }
    {
        Acts {
            book,
            made: Record::new(),
        }
    }

    /// Adds an act, and weighs it for the unit too whose part this is. Called in the hold of that unit in which the act
    /// was done.
    pub(crate) fn add(&mut self, unit: &mut Part<C>, act: Act)
        ensures acts { self.new ≡ self.old ++ act ∷ [] }
        ensures unit { unit.new.share.amount ≡ unit.old.share.amount + act_weight C.weight act }
    {
        match act {
            Act::Reset(address) => {
                C::weigh(&mut self.book, &mut unit.share, &address, None);
            }
            Act::Resize(address, blocks, _) => {
                C::weigh(&mut self.book, &mut unit.share, &address, Some(blocks));
            }
        }
        self.made.push(&act);
    }

    /// Shows, given all parts of the ledger, that what the units have of it is what these acts weigh. Called where a host
    /// is closed.
    pub fn audit(&mut self, units: &mut Share<C>)
        requires { units.old.parts ≡ C.parts }
        ensures { units.old.amount ≡ acts_weight C.weight self.old }
    {
        self.book.audit(units);
    }
}
