//! The pages of blocks.

ghost use Rattle.std.specs.Prelude.{◌≡◌, ◌+◌, ◌/◌, ◌%◌, ◌^◌, ◌<◌, ◌≤◌};

/// The blocks of a page.
pub const PAGE_BLOCKS: u64 = 8;

/// The bytes of a page.
pub const PAGE_BYTES: usize = 4096;

/// Returns the page of a block.
#[inline(always)]
pub(crate) fn page_of(block: u64) -> u64
    ensures { result ≡ block / 8 }
{
    block / PAGE_BLOCKS
}

/// Returns the position of a block in its page.
#[inline(always)]
pub(crate) fn position_of(block: u64) -> usize
    ensures { result ≡ block % 8 }
{
    (block % PAGE_BLOCKS) as usize
}

/// Counts the pages of so many blocks, the last of which may lack blocks.
#[inline(always)]
pub(crate) fn pages_of(blocks: u64) -> u64
    requires { blocks < 2 ^ 63 }
    ensures { result ≡ (blocks + 7) / 8 }
{
    (blocks + PAGE_BLOCKS - 1) / PAGE_BLOCKS
}

/// Counts the blocks of the `count` from `first` on that lie in the page of the first.
#[inline(always)]
pub(crate) fn in_page(first: u64, count: usize) -> usize
    ensures some { 0 < count → 0 < result }
    ensures bound { result ≤ count }
    ensures fits { first % 8 + result ≤ 8 }
    ensures full { result < count → first % 8 + result ≡ 8 }
{
    let room = PAGE_BLOCKS as usize - position_of(first);
    room.min(count)
}
