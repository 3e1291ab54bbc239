//! The reasons for which a queue gives no chain.

use std::error::Error;
use std::fmt;

/// The cause for which a queue gives no chain. `IndexJump` to `RingOverrun` are the guest's faults: they break the
/// queue for good, and later fetches answer the same. `NoMemory` changes nothing.
#[derive(Clone, Copy, Debug, PartialEq, Eq)]
pub enum RingFault {
    /// The available index ran ahead of the accepted chains by more than the queue's size.
    IndexJump = 1,
    /// An entry of the available ring names a head outside the descriptor table.
    HeadOutOfRange = 2,
    /// A descriptor with NEXT names a next one outside its table.
    NextOutOfRange = 3,
    /// A chain goes on behind as many descriptors as the queue or its table has, or has over 2^32
    /// bytes.
    ChainTooLong = 4,
    /// A buffer that isn't empty doesn't lie in guest memory.
    BufferOutside = 5,
    /// A readable descriptor stands behind a writable one.
    ReadableAfterWritable = 6,
    /// The head or the id belongs to a chain that is outstanding.
    AlreadyOutstanding = 7,
    /// A descriptor has INDIRECT where that wasn't agreed, with NEXT or in a split table, or its table
    /// has no whole number of entries, at least one, inside guest memory.
    BadIndirect = 8,
    /// The outstanding chains would take more slots than the ring has.
    RingOverrun = 9,
    /// A growth was refused, or the log can count no more chains.
    NoMemory = 10,
}

impl fmt::Display for RingFault {
    fn fmt<W: fmt::Write>(&self, f: &mut fmt::Formatter<W>) -> fmt::Result {
        match self {
            RingFault::IndexJump => write!(f, "available index out of range"),
            RingFault::HeadOutOfRange => write!(f, "head out of range"),
            RingFault::NextOutOfRange => write!(f, "next descriptor out of range"),
            RingFault::ChainTooLong => write!(f, "chain too long"),
            RingFault::BufferOutside => write!(f, "buffer outside guest memory"),
            RingFault::ReadableAfterWritable => write!(f, "readable after writable descriptor"),
            RingFault::AlreadyOutstanding => write!(f, "chain already outstanding"),
            RingFault::BadIndirect => write!(f, "bad indirect descriptor"),
            RingFault::RingOverrun => write!(f, "ring overrun"),
            RingFault::NoMemory => write!(f, "no memory"),
        }
    }
}

impl Error for RingFault {}
