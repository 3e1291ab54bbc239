//! Positions run round at the end of the slots, and the wrap counters flip.

use super::super::{Made, bench, none_is};
use super::{AVAILABLE, AVAILABLE_AT_0, PLACE};
use crate::bench::Bench;
use crate::moves::{Move, NEXT};
use packed_ring::PackedRing;
use ring_core::{Layout, Ring};
use std::alloc::Global;
use std::test::Fail;

/// Returns the descriptor of four bytes that the driver writes once so many slots of seven were passed.
fn descriptor(passed: u16, id: u16, flags: u16) -> Move {
    let turn = if passed / 7 % 2 == 0 {
        AVAILABLE
    } else {
        AVAILABLE_AT_0
    };
    Move::Descriptor(passed % 7, 20000, 4, id, flags | turn)
}

/// Returns the moves that make two chains of three slots available, find them and complete them, the second one first.
/// All slots but the last have another id.
fn serving_pair(pair: u8) -> [Move; 11] {
    let passed = 6 * u16::from(pair);
    let number = 2 * u64::from(pair);
    [
        descriptor(passed, 9, NEXT),
        descriptor(passed + 1, 9, NEXT),
        descriptor(passed + 2, 1, 0),
        descriptor(passed + 3, 9, NEXT),
        descriptor(passed + 4, 9, NEXT),
        descriptor(passed + 5, 2, 0),
        Move::Found(number, 1, 3),
        Move::Found(number + 1, 2, 3),
        Move::Nothing,
        Move::Complete(108, number + 1),
        Move::Complete(108, number),
    ]
}

/// The bytes in memory after the pair of a number.
#[derive(Clone, Copy)]
struct Used {
    pair: u8,
    moves: &'static [Move],
}

/// The two used descriptors of a pair, each with the address that the driver wrote.
static USED: [Used; 3] = [
    Used {
        pair: 0,
        moves: &[
            Move::Has(0, &[32, 78, 0, 0, 0, 0, 0, 0, 108, 0, 0, 0, 2, 0, 130, 128]),
            Move::Has(
                48,
                &[32, 78, 0, 0, 0, 0, 0, 0, 108, 0, 0, 0, 1, 0, 130, 128],
            ),
        ],
    },
    Used {
        pair: 1,
        moves: &[
            Move::Has(
                96,
                &[32, 78, 0, 0, 0, 0, 0, 0, 108, 0, 0, 0, 2, 0, 130, 128],
            ),
            Move::Has(32, &[32, 78, 0, 0, 0, 0, 0, 0, 108, 0, 0, 0, 1, 0, 2, 0]),
        ],
    },
    // Behind 120 slots, the position is slot 1 and the wrap counter 0.
    Used {
        pair: 20,
        moves: &[
            Move::Has(16, &[32, 78, 0, 0, 0, 0, 0, 0, 108, 0, 0, 0, 2, 0, 2, 0]),
            Move::Has(64, &[32, 78, 0, 0, 0, 0, 0, 0, 108, 0, 0, 0, 1, 0, 2, 0]),
        ],
    },
];

/// Returns true if memory has what it should after a pair.
fn has_used<R: Ring>(bench: &mut Bench<R>, pair: u8) -> bool {
    for used in &USED {
        if used.pair == pair && bench.first_wrong(used.moves).is_some() {
            return false;
        }
    }
    true
}

/// Serves pairs, one after the other. The first that isn't served as it should.
fn first_unserved_pair<R: Made>(alloc: Global) -> Result<Option<usize>, Fail> {
    let mut bench = bench::<R>(alloc, 16, PLACE, 0)?;
    for pair in 0..21 {
        if bench.first_wrong(serving_pair(pair).as_slice()).is_some()
            || !has_used(&mut bench, pair)
        {
            return Ok(Some(usize::from(pair)));
        }
    }
    Ok(None)
}

#[test]
fn wraps_in_pairs(rt: HostRuntime) -> Result<(), Fail> {
    none_is(&rt, first_unserved_pair::<PackedRing>(rt.alloc())?);
    Ok(())
}

/// Returns the slot behind a slot in a ring of so many, and the flags by which the driver makes it available.
fn next(slot: u16, turn: u16, size: u16) -> (u16, u16) {
    let slot = slot.wrapping_add(1);
    if slot < size {
        (slot, turn)
    } else {
        (0, turn ^ (AVAILABLE | AVAILABLE_AT_0))
    }
}

/// Returns the moves that make the chain of this number available, which takes one slot, and serve it.
fn serving_one(number: u64, slot: u16, turn: u16) -> [Move; 4] {
    [
        Move::Descriptor(slot, 0, 0, 5, turn),
        Move::Found(number, 5, 1),
        Move::Complete(0, number),
        Move::Nothing,
    ]
}

/// Serves 65,537 chains, one after the other, on a queue of so many slots. The first that isn't served
/// as it should.
fn first_unserved<R: Made>(alloc: Global, size: u16) -> Result<Option<usize>, Fail> {
    let mut bench = bench::<R>(alloc, 16, Layout { size, ..PLACE }, 0)?;
    let mut position = (0, AVAILABLE);
    for number in 0..65_537 {
        let moves = serving_one(number, position.0, position.1);
        if bench.first_wrong(moves.as_slice()).is_some() {
            return Ok(Some(number as usize));
        }
        position = next(position.0, position.1, size);
    }
    Ok(None)
}

#[test]
fn takes_many_chains(rt: HostRuntime) -> Result<(), Fail> {
    for size in [1, 2, 3, 7u16] {
        none_is(&rt, first_unserved::<PackedRing>(rt.alloc(), size)?);
    }
    Ok(())
}
