//! The texts of the faults of any queue.

use super::none_is;
use ring_core::{LayoutFault, RingFault};
use std::alloc::Global;
use std::fmt::Display;
use std::test::Fail;

/// Faults of a queue, in the order of their numbers.
static RING_FAULTS: [(RingFault, &str); 10] = [
    (RingFault::IndexJump, "available index out of range"),
    (RingFault::HeadOutOfRange, "head out of range"),
    (RingFault::NextOutOfRange, "next descriptor out of range"),
    (RingFault::ChainTooLong, "chain too long"),
    (RingFault::BufferOutside, "buffer outside guest memory"),
    (
        RingFault::ReadableAfterWritable,
        "readable after writable descriptor",
    ),
    (RingFault::AlreadyOutstanding, "chain already outstanding"),
    (RingFault::BadIndirect, "bad indirect descriptor"),
    (RingFault::RingOverrun, "ring overrun"),
    (RingFault::NoMemory, "no memory"),
];

/// Faults of a layout, in the order of their numbers.
static LAYOUT_FAULTS: [(LayoutFault, &str); 5] = [
    (LayoutFault::BadSize, "bad queue size"),
    (LayoutFault::BadAlignment, "bad alignment"),
    (LayoutFault::Outside, "queue outside guest memory"),
    (LayoutFault::NoMemory, "no memory"),
    (LayoutFault::BadStart, "bad first index"),
];

/// Returns the number of the first value that isn't called as its row says, from 0.
fn first_wrong<D: Display>(alloc: Global, rows: &[(D, &str)]) -> Result<Option<usize>, Fail> {
    for number in 0..rows.len() {
        let (fault, text) = &rows[number];
        if format!(in alloc; "{fault}")?.as_str() != *text {
            return Ok(Some(number));
        }
    }
    Ok(None)
}

#[test]
fn faults_have_words(rt: HostRuntime) -> Result<(), Fail> {
    none_is(&rt, first_wrong(rt.alloc(), &RING_FAULTS)?);
    none_is(&rt, first_wrong(rt.alloc(), &LAYOUT_FAULTS)?);
    Ok(())
}
