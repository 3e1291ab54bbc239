//! Finds where a block stands: its page, the row of that page, and its position in both.

ghost use Rattle.std.specs.Prelude.{◌≡◌, ◌+◌, ◌-◌, ◌/◌, ◌%◌, ◌^◌, ◌<◌, ◌≤◌, ◌==◌, if◌then◌else◌};

/// The blocks of a page.
pub(crate) const PAGE_BLOCKS: usize = 8;

/// The pages of a row.
pub(crate) const ROW_PAGES: usize = 64;

/// The blocks of a row.
pub(crate) const ROW_BLOCKS: usize = 512;

/// Returns the page of a block.
pub(crate) fn page_of(block: u64) -> u64
    ensures { result ≡ block / 8 }
{
    block / PAGE_BLOCKS as u64
}

/// Returns the page behind those of so many blocks.
pub(crate) fn page_end(first: u64, count: u32) -> u64
    requires { first + count < 2 ^ 64 }
    ensures { result ≡ (if count == 0 then first / 8 else (first + count - 1) / 8 + 1) }
{
    if count == 0 {
        return page_of(first);
    }
    page_of(first + u64::from(count - 1)) + 1
}

/// Returns the first page that begins at the block or behind it.
pub(crate) fn page_from(block: u64) -> u64
    ensures { result ≡ (block + 7) / 8 }
{
    if position_of(block) == 0 {
        return page_of(block);
    }
    page_of(block) + 1
}

/// Returns the position of a block in its page.
pub(crate) fn position_of(block: u64) -> usize
    ensures { result ≡ block % 8 }
{
    (block % PAGE_BLOCKS as u64) as usize
}

/// Counts the blocks of the `count` from `first` on that lie in the page of the first.
pub(crate) fn in_page(first: u64, count: usize) -> usize
    ensures some { 0 < count → 0 < result }
    ensures bound { result ≤ count }
    ensures fits { first % 8 + result ≤ 8 }
    ensures full { result < count → first % 8 + result ≡ 8 }
{
    let room = PAGE_BLOCKS - position_of(first);
    room.min(count)
}

/// Returns the row of a block.
pub(crate) fn row_of(block: u64) -> u64
    ensures { result ≡ block / 512 }
{
    block / ROW_BLOCKS as u64
}

/// Returns the position of a block in its row.
pub(crate) fn in_row_of(block: u64) -> u64
    ensures { result ≡ block % 512 }
{
    block % ROW_BLOCKS as u64
}

/// Counts the blocks of the `count` from `first` on that lie in the row of the first.
pub(crate) fn in_row(first: u64, count: usize) -> usize
    ensures some { 0 < count → 0 < result }
    ensures bound { result ≤ count }
    ensures fits { first % 512 + result ≤ 512 }
    ensures full { result < count → first % 512 + result ≡ 512 }
{
    let room = ROW_BLOCKS - in_row_of(first) as usize;
    room.min(count)
}
