//! Stores of blocks.

ghost use Rattle.std.specs.Prelude.{◌≡◌, ◌+◌, ◌*◌, ◌≤◌, length, IfSome};

use super::none_is;
use block_store::{BLOCK_BYTES, FlatStore, PagedStore, Prepared, Readiness, Store};
use foundation::NoMemory;
use std::alloc::Global;
use std::test::Fail;

/// An act on a store.
#[derive(Clone, Copy)]
enum Act {
    /// Bytes are written over blocks from a number on.
    Write(u64, &'static [u8]),
    /// So many blocks from a number on get a byte everywhere.
    Fill(u64, u32, u8),
    /// So many blocks from a number on get zeros.
    Zero(u64, u32),
}

/// The acts on a store of five blocks of zeros, one after the other, each with the byte of which each block then
/// consists.
static ACTS: [(Act, [u8; 5]); 7] = [
    (Act::Zero(0, 0), [0, 0, 0, 0, 0]),
    (Act::Write(1, &[7; 1024]), [0, 7, 7, 0, 0]),
    (Act::Fill(2, 3, 9), [0, 7, 9, 9, 9]),
    (Act::Zero(3, 1), [0, 7, 9, 0, 9]),
    (Act::Write(5, &[]), [0, 7, 9, 0, 9]),
    (Act::Fill(5, 0, 1), [0, 7, 9, 0, 9]),
    (Act::Zero(5, 0), [0, 7, 9, 0, 9]),
];

/// Writes bytes over blocks. Returns true if the blocks are there.
fn write<S: Store>(store: &mut S, first: u64, bytes: &[u8]) -> Result<bool, NoMemory> {
    let capacity = store.capacity();
    let count = (bytes.len() / BLOCK_BYTES) as u64;
    if bytes.len() % BLOCK_BYTES != 0 || first > capacity || count > capacity - first {
        return Ok(false);
    }
    if count > u64::from(u32::MAX) {
        return Ok(false);
    }
    match store.ask_to_write(first, count as u32) {
        Readiness::Ready => store.write_blocks(first, bytes)?,
        Readiness::Asked | Readiness::Full => return Ok(false),
    }
    Ok(true)
}

/// Puts a byte into blocks everywhere. Returns true if the blocks are there.
fn fill<S: Store>(store: &mut S, first: u64, count: u32, byte: u8) -> Result<bool, NoMemory> {
    let capacity = store.capacity();
    if first > capacity || u64::from(count) > capacity - first {
        return Ok(false);
    }
    match store.ask_to_write(first, count) {
        Readiness::Ready => store.fill_blocks(first, count, &[byte; BLOCK_BYTES])?,
        Readiness::Asked | Readiness::Full => return Ok(false),
    }
    Ok(true)
}

/// Puts zeros into blocks. Returns true if the blocks are there.
fn zero<S: Store>(store: &mut S, first: u64, count: u32) -> bool {
    let capacity = store.capacity();
    if first > capacity || u64::from(count) > capacity - first {
        return false;
    }
    match store.ask_to_write(first, count) {
        Readiness::Ready => store.zero_blocks(first, count),
        Readiness::Asked | Readiness::Full => return false,
    }
    true
}

/// Appends the bytes of blocks. Returns true if the blocks, and room for their bytes, are there.
fn read<S: Store>(store: &mut S, first: u64, count: u32, into: &mut Vec<u8>) -> bool {
    let capacity = store.capacity();
    let room = into.capacity().saturating_sub(into.len()) / BLOCK_BYTES;
    if first > capacity || u64::from(count) > capacity - first || count as usize > room {
        return false;
    }
    match store.ask_to_read(first, count) {
        Readiness::Ready => store.read_blocks(first, count, into),
        Readiness::Asked | Readiness::Full => return false,
    }
    true
}

/// Returns true if bytes are five blocks, each of which consists of its byte.
fn are_made_of(bytes: &[u8], each: [u8; 5]) -> bool {
    if bytes.len() != 5 * BLOCK_BYTES {
        return false;
    }
    for index in 0..5usize {
        let start = index * BLOCK_BYTES;
        if bytes[start..start + BLOCK_BYTES] != [each[index]; BLOCK_BYTES] {
            return false;
        }
    }
    true
}

/// Returns true if a store is five blocks, each of which consists of its byte. They are read in two parts, and an empty
/// third.
fn is_made_of<S: Store>(alloc: Global, store: &mut S, each: [u8; 5]) -> Result<bool, NoMemory> {
    let Ok(mut bytes) = Vec::with_capacity(alloc, 5 * BLOCK_BYTES) else {
        return Err(NoMemory);
    };
    let is_read = read(store, 0, 2, &mut bytes)
        && read(store, 2, 3, &mut bytes)
        && read(store, 5, 0, &mut bytes);
    Ok(is_read && store.capacity() == 5 && are_made_of(bytes.as_slice(), each))
}

/// Does an act. Returns true if its blocks are there.
fn does<S: Store>(store: &mut S, act: Act) -> Result<bool, NoMemory> {
    match act {
        Act::Write(first, bytes) => write(store, first, bytes),
        Act::Fill(first, count, byte) => fill(store, first, count, byte),
        Act::Zero(first, count) => Ok(zero(store, first, count)),
    }
}

/// Does acts. The number of the first that doesn't go as it says, from 0.
fn first_wrong<S: Store>(
    alloc: Global,
    store: &mut S,
    acts: &[(Act, [u8; 5])],
) -> Result<Option<usize>, NoMemory> {
    for number in 0..acts.len() {
        let (act, each) = acts[number];
        if !does(store, act)? || !is_made_of(alloc, store, each)? {
            return Ok(Some(number));
        }
    }
    Ok(None)
}

/// Returns true if a store of so many blocks is refused.
fn is_refused(alloc: Global, blocks: u64) -> bool {
    match FlatStore::new(alloc, blocks) {
        Ok(_) => false,
        Err(NoMemory) => true,
    }
}

/// The numbers of blocks that are too many.
static TOO_MANY: [u64; 4] = [u64::MAX, 1 << 55, (1 << 55) - 1, 1 << 54];

/// Returns the number of the first of these of which a store is had, from 0.
fn first_had(alloc: Global) -> Option<usize> {
    for number in 0..TOO_MANY.len() {
        if !is_refused(alloc, TOO_MANY[number]) {
            return Some(number);
        }
    }
    None
}

#[test]
fn flat_store(rt: HostRuntime) -> Result<(), Fail> {
    let mut store = FlatStore::new(rt.alloc(), 5)?;
    none_is(&rt, first_wrong(rt.alloc(), &mut store, &ACTS)?);
    Ok(())
}

#[test]
fn too_large_a_store(rt: HostRuntime) {
    none_is(&rt, first_had(rt.alloc()));
}

#[test]
fn paged_store(rt: HostRuntime) -> Result<(), Fail> {
    let mut store = PagedStore::new(rt.alloc(), 5);
    none_is(&rt, first_wrong(rt.alloc(), &mut store, &ACTS)?);
    Ok(())
}

/// Appends the bytes of blocks of a store that holds all. Returns true if the blocks, and room for their bytes, are there.
fn read_held(store: &PagedStore, first: u64, count: u32, into: &mut Vec<u8>) -> bool {
    let capacity = store.capacity();
    let room = into.capacity().saturating_sub(into.len()) / BLOCK_BYTES;
    if first > capacity || u64::from(count) > capacity - first || count as usize > room {
        return false;
    }
    store.read_blocks(first, count, into);
    true
}

/// Returns true if so many blocks of a store consist of a byte, each.
fn consist_of(
    alloc: Global,
    store: &PagedStore,
    first: u64,
    count: u32,
    byte: u8,
) -> Result<bool, NoMemory> {
    for number in 0..count {
        let Ok(mut bytes) = Vec::with_capacity(alloc, BLOCK_BYTES) else {
            return Err(NoMemory);
        };
        if !read_held(
            store,
            first.saturating_add(u64::from(number)),
            1,
            &mut bytes,
        ) || bytes.as_slice() != [byte; BLOCK_BYTES].as_slice()
        {
            return Ok(false);
        }
    }
    Ok(true)
}

/// Writes that are prepared for a store of 32 blocks of zeros: the first block, the bytes, and those of the spare
/// pages.
static PREPARED: [(u64, &[u8], &[u8]); 5] = [
    (1, &[0xab; 512], &[]),
    (4, &[0xab; 8192], &[]),
    (4, &[0xab; 8192], &[0x5a; 12_288]),
    (8, &[0xab; 8192], &[0x5a; 4096]),
    (3, &[0xab; 512], &[0x5a; 4096]),
];

/// Returns how many blocks bytes are, where a store has these from a block on.
fn count_there(store: &PagedStore, first: u64, bytes: &[u8]) -> Option<u32>
    ensures { IfSome result (λ count. (first + count ≤ ⟦<PagedStore as Store>⟧.size store.now) × (length bytes.now ≡ 512 * count)) }
{
    let capacity = store.capacity();
    let count = bytes.len() / BLOCK_BYTES;
    if bytes.len() % BLOCK_BYTES != 0 || first > capacity || count as u64 > capacity - first {
        return None;
    }
    u32::try_from(count).ok()
}

/// Prepares the bytes over the first blocks of a store. `None` where it lacks these.
fn prepare_first(store: &PagedStore, bytes: &[u8]) -> Result<Option<Prepared>, NoMemory> {
    let Some(count) = count_there(store, 0, bytes) else {
        return Ok(None);
    };
    let pages = store.edges(0, count)?.prepare(bytes, None)?;
    Ok(Some(pages))
}

/// Returns true if the bytes of a store's blocks from `first` on are 0xab, each, and those of all others zeros.
fn are_written(
    alloc: Global,
    store: &PagedStore,
    first: u64,
    count: u32,
) -> Result<bool, NoMemory> {
    let behind = first.saturating_add(u64::from(count));
    let before = consist_of(alloc, store, 0, first.min(32) as u32, 0)?;
    let written = consist_of(alloc, store, first, count, 0xab)?;
    let after = consist_of(alloc, store, behind, 32 - behind.min(32) as u32, 0)?;
    Ok(before && written && after)
}

/// Prepares a write over spare pages, installs it, and installs the pages that come back. Returns true if its blocks
/// alone have its bytes in between, and all are zeros then.
fn is_installed(alloc: Global, first: u64, bytes: &[u8], spare: &[u8]) -> Result<bool, NoMemory> {
    let mut store = PagedStore::new(alloc, 32);
    let spare = prepare_first(&store, spare)?;
    let Some(count) = count_there(&store, first, bytes) else {
        return Ok(false);
    };
    let prepared = store.edges(first, count)?.prepare(bytes, spare)?;
    let (installed, back) = store.install(prepared)?;
    let is_there = are_written(alloc, &store, first, count)?;
    let (returned, _) = store.install(back)?;
    Ok(installed && is_there && returned && consist_of(alloc, &store, 0, 32, 0)?)
}

/// Returns the number of the first of these writes that isn't installed as it says, from 0.
fn first_not_installed(alloc: Global) -> Result<Option<usize>, NoMemory> {
    for number in 0..PREPARED.len() {
        let (first, bytes, spare) = PREPARED[number];
        if !is_installed(alloc, first, bytes, spare)? {
            return Ok(Some(number));
        }
    }
    Ok(None)
}

#[test]
fn prepared_pages(rt: HostRuntime) -> Result<(), Fail> {
    none_is(&rt, first_not_installed(rt.alloc())?);
    Ok(())
}

/// Blocks that are far from one another in a store of 2^40, and the byte that each gets everywhere.
static FAR: [(u64, u8); 9] = [
    (0, 1),
    (8, 2),
    (512, 3),
    (1 << 15, 4),
    (1 << 21, 5),
    (1 << 27, 6),
    (1 << 33, 7),
    (1 << 39, 8),
    ((1 << 40) - 1, 9),
];

/// Fills each of these blocks with its byte. Returns true if they are there.
fn fill_far(store: &mut PagedStore) -> Result<bool, NoMemory> {
    for number in 0..FAR.len() {
        let (block, byte) = FAR[number];
        if !fill(store, block, 1, byte)? {
            return Ok(false);
        }
    }
    Ok(true)
}

/// Returns the number of the first of these blocks that doesn't consist of its byte, or of zeros below `zeroed`, from
/// 0.
fn first_wrong_far(
    alloc: Global,
    store: &PagedStore,
    zeroed: usize,
) -> Result<Option<usize>, NoMemory> {
    for number in 0..FAR.len() {
        let (block, byte) = FAR[number];
        let wanted = if number < zeroed { 0 } else { byte };
        if !consist_of(alloc, store, block, 1, wanted)? {
            return Ok(Some(number));
        }
    }
    Ok(None)
}

/// Fills these blocks and zeroes the page of each, one after the other. The number of the first that is wrong
/// meanwhile.
fn first_lost(alloc: Global, store: &mut PagedStore) -> Result<Option<usize>, NoMemory> {
    if !fill_far(store)? {
        return Ok(Some(0));
    }
    for number in 0..FAR.len() {
        let wrong = first_wrong_far(alloc, store, number)?;
        if wrong.is_some() {
            return Ok(wrong);
        }
        let (block, _) = FAR[number];
        if !zero(store, block - block % 8, 8) {
            return Ok(Some(number));
        }
    }
    first_wrong_far(alloc, store, FAR.len())
}

#[test]
fn far_pages(rt: HostRuntime) -> Result<(), Fail> {
    let mut store = PagedStore::new(rt.alloc(), 1 << 40);
    none_is(&rt, first_lost(rt.alloc(), &mut store)?);
    none_is(&rt, first_lost(rt.alloc(), &mut store)?);
    Ok(())
}
