//! The changes that C is told of.

/// Blocks that follow one another: the header's `struct vscsi_range`.
#[repr(C)]
#[derive(Clone, Copy)]
pub struct BlockRange {
    pub first: u64,
    pub count: u64,
}

/// A place of a unit's history, and what is told of the changes since the place that stood here: the number of ranges,
/// and whether blocks outside them may have changed too.
#[repr(C)]
#[derive(Clone, Copy)]
pub struct Told {
    pub place: u64,
    pub count: u64,
    pub all: bool,
}
