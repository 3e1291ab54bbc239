//! The rows of a test, and the moves that they consist of.

use ring_core::Layout;

/// VIRTQ_DESC_F_NEXT.
pub const NEXT: u16 = 1;

/// VIRTQ_DESC_F_WRITE.
pub const WRITE: u16 = 2;

/// VIRTQ_DESC_F_INDIRECT.
pub const INDIRECT: u16 = 4;

/// VIRTIO_F_INDIRECT_DESC (VIRTIO 1.2, 6).
pub const INDIRECT_DESC: u64 = 1 << 28;

/// VIRTIO_F_EVENT_IDX (VIRTIO 1.2, 6).
pub const EVENT_IDX: u64 = 1 << 29;

/// An act of the driver in memory or of the device with the queue, and what comes of it.
#[derive(Clone, Copy)]
pub enum Move {
    /// The driver writes bytes at an address.
    Put(u64, &'static [u8]),
    /// The driver writes a number of two bytes at an address.
    Number(u64, u16),
    /// The driver writes a descriptor of the area at 0: its number there, address, length, and its
    /// last two fields.
    Descriptor(u16, u64, u32, u16, u16),
    /// The driver writes so many descriptors of a split table at 0, each of so many bytes at 0 and
    /// linked to the next.
    Linked(u16, u32),
    /// The driver writes an entry of the table at an address: its number there, address, length, and its
    /// last two fields.
    Entry(u64, u16, u64, u32, u16, u16),
    /// The driver writes a table of a split queue at an address: so many entries, each of so many bytes at 0
    /// and all but the last linked to the next.
    SplitTable(u64, u16, u32),
    /// The driver writes a table of a packed queue at an address: so many entries, each of so many bytes at 0.
    PackedTable(u64, u16, u32),
    /// A fetch finds no chain.
    Nothing,
    /// A fetch answers the fault of this number.
    Fault(u8),
    /// A fetch finds a chain: its number in the log, its id, and how many slots it takes.
    Found(u64, u16, u16),
    /// The chain found last has so many parts, readable bytes, writable bytes, and bytes that were
    /// read when it was fetched.
    Holds(usize, u64, u64, usize),
    /// The bytes that were read of the chain found last.
    Read(&'static [u8]),
    /// Bytes are written into the chain found last, from this byte of its writable parts on.
    Scatter(u32, &'static [u8]),
    /// Completes the outstanding chain found last with this length; its number.
    Complete(u32, u64),
    /// The log has so many used chains.
    Used(usize),
    /// Guest memory has these bytes at an address.
    Has(u64, &'static [u8]),
    /// True if the driver wants a notice.
    Notice(bool),
}

/// A queue in memory, what is done with it, and what that shows.
#[derive(Clone, Copy)]
pub struct Row {
    /// The text of what the row shows.
    pub shows: &'static str,
    /// The pages of guest memory.
    pub pages: u32,
    /// Where the queue lies.
    pub layout: Layout,
    /// The features that were agreed.
    pub features: u64,
    /// The moves, one after the other.
    pub moves: &'static [Move],
}
