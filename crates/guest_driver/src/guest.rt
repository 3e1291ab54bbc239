//! Writes into the guest's memory, and reads from it.

ghost use Rattle.std.specs.Prelude.{◌≡◌, ◌⊎◌, List, ℕ, length, OnOk, OnErr, IfErr};
ghost use Rattle.std.specs.Int.{w16, w32, from_le_bytes};
ghost use Rattle.guest_driver.specs.Inner.Guest.{IsDescriptor};

use crate::memory::GuestMemory;
use script_syntax::{Bytes, Item, LineFault, Stop};
use std::alloc::{AllocError, Global};

/// The most bytes that are written at once, but for a longer item.
const BLOCK_BYTES: usize = 4096;

/// Where a buffer is in guest memory.
#[derive(Clone, Copy)]
pub struct Buffer {
    /// The address of its first byte.
    pub at: u64,
    /// Its length in bytes.
    pub len: u32,
}

/// Makes a descriptor of either form: an address, a length, and two numbers in the form's own order.
pub fn descriptor(buffer: Buffer, third: u16, last: u16) -> [u8; 16]
    ensures { IsDescriptor result buffer third last }
{
    let mut bytes = [0; 16];
    bytes[..8].copy_from_slice(&buffer.at.to_le_bytes());
    bytes[8..12].copy_from_slice(&buffer.len.to_le_bytes());
    bytes[12..14].copy_from_slice(&third.to_le_bytes());
    bytes[14..].copy_from_slice(&last.to_le_bytes());
    bytes
}

/// Returns two bytes as a number; 0 where the memory refuses them.
pub fn u16_at<M: GuestMemory>(memory: &M, at: u64) -> u16
    ensures { ((bytes : List ℕ) × (length bytes ≡ 2) × M.finds memory.now at bytes × (result ≡ from_le_bytes w16 bytes))
        ⊎ (M.refuses memory.now at 2 × (result ≡ 0)) }
{
    let mut bytes = [0; 2];
    match memory.read(at, &mut bytes) {
        Ok(()) => u16::from_le_bytes(bytes),
        Err(_) => 0,
    }
}

/// Returns four bytes as a number; 0 where the memory refuses them.
pub fn u32_at<M: GuestMemory>(memory: &M, at: u64) -> u32
    ensures { ((bytes : List ℕ) × (length bytes ≡ 4) × M.finds memory.now at bytes × (result ≡ from_le_bytes w32 bytes))
        ⊎ (M.refuses memory.now at 4 × (result ≡ 0)) }
{
    let mut bytes = [0; 4];
    match memory.read(at, &mut bytes) {
        Ok(()) => u32::from_le_bytes(bytes),
        Err(_) => 0,
    }
}

/// Writes bytes that are there. `NoGuestMemory`, with nothing changed, where the memory refuses them: that of a
/// device of one thread exactly where one of them would lie outside.
pub fn put<M: GuestMemory>(memory: &mut M, at: u64, bytes: &[u8]) -> Result<(), LineFault>
    ensures written { OnOk result (M.takes memory.old at bytes.now memory.new) }
    ensures refused { OnErr result (M.refuses memory.old at (length bytes.now)) }
    ensures fault { IfErr result (λ fault. fault ≡ LineFault.NoGuestMemory) }
    ensures unchanged { OnErr result (memory.new ≡ memory.old) }
{
    match memory.write(at, bytes) {
        Ok(()) => Ok(()),
        Err(_) => Err(LineFault::NoGuestMemory),
    }
}

/// Makes so many copies of an item's bytes, in a row.
fn copies_of(alloc: Global, item: &Item, copies: u32) -> Result<Vec<u8>, AllocError> {
    let mut bytes = Vec::new(alloc);
    item.append_copies(copies, &mut bytes)?;
    Ok(bytes)
}

/// Writes an item, a block of whole copies after the other.
fn put_item<M: GuestMemory>(
    alloc: Global,
    memory: &mut M,
    start: u64,
    item: &Item,
) -> Result<(), Stop> {
    let fit = BLOCK_BYTES / item.bytes.len().max(1);
    let copies = item.repeat.min(fit.max(1) as u32).max(1);
    let block = copies_of(alloc, item, copies)?;
    let mut at = start;
    for _ in 0..item.repeat / copies {
        put(memory, at, block.as_slice())?;
        at = at.saturating_add(block.len() as u64);
    }
    let rest = copies_of(alloc, item, item.repeat % copies)?;
    put(memory, at, rest.as_slice())?;
    Ok(())
}

/// Writes the bytes of a line from an address on, where the caller has found them to fit. No more than
/// a block of them is built at a time. `NoGuestMemory` where they don't fit, `NoMemory` where memory
/// runs out; what was written before stands.
pub fn put_bytes<M: GuestMemory>(
    alloc: Global,
    memory: &mut M,
    start: u64,
    bytes: &Bytes,
) -> Result<(), Stop> {
    let mut at = start;
    for item in bytes.items() {
        put_item(alloc, memory, at, item)?;
        at = at.saturating_add(item.length());
    }
    Ok(())
}
