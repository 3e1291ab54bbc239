//! Weighs the operator's acts in the ledger that has their sum.

ghost use Rattle.std.specs.Prelude.{◌≡◌, ◌+◌, ◌<◌, ℕ, Option};
ghost use Rattle.scsi_codec.specs.declared.lun.Address.{Address};

use scsi_codec::Address;
use std::marker::Brand;
use std::sync::ledger::{Book, Ledger, Share};

/// Weighs the acts of a host's operator, for the ledger that has their sum. All that is generic over it is proved for
/// every weighing, and what runs can't tell one from another. So two lists of acts that weigh the same whatever the
/// weighing have the same acts, each as often: as many of each kind, on each unit, to each capacity.
pub trait Weighing {
    /// Gives what an act on the unit of an address weighs: `None` is a hard reset, and `Some` a resize to so many blocks.
    ghost weight: { Address → Option ℕ → ℕ };

    /// Adds what an act weighs to a share, and to the book of its ledger. `Acts` calls, for each act.
    fn weigh<L: Ledger>(
        book: &mut Book<L>,
        share: &mut Share<L>,
        unit: &Address,
        blocks: Option<u64>,
    )
        requires part { 0 < share.old.parts }
        ensures total { book.new.total ≡ book.old.total + weight unit.now blocks }
        ensures amount { share.new.amount ≡ share.old.amount + weight unit.now blocks }
        ensures parts { share.new.parts ≡ share.old.parts };
}

impl Weighing for Brand {
    /// Each act weighs 1: they are counted.
    ghost weight = { λ unit blocks. 1 };

    fn weigh<L: Ledger>(
        book: &mut Book<L>,
        share: &mut Share<L>,
        _unit: &Address,
        _blocks: Option<u64>,
    ) {
        book.add(share, 1);
    }
}
