//! Reading and writing the bytes of a chain's parts.

ghost use Rattle.std.specs.Prelude.{◌≡◌, ◌+◌, ◌≤◌, ◌<◌, ◌^◌, ◌-◌, ◌++◌, List, ℕ, length, take, min, cond, true, IfOk, OnOk};
ghost use Rattle.std.specs.List.{AllPass};
ghost use Rattle.guest_mem.specs.Memory.{with_bytes};
ghost use Rattle.guest_mem.specs.Stores.{stores_at};
ghost use Rattle.ring_core.specs.Parts.{PartsFit, inside, readable_of, readable_bytes, readable_total, writable_total};
ghost use Rattle.ring_core.specs.Writes.{Wrote, scatter_writes, stores_of};

use crate::chain::{Chain, Draft};
use crate::descriptor::Part;
use guest_mem::{Memory, WritableMemory};
use std::alloc::AllocError;

/// The most of a chain's readable bytes that are read when it is fetched: a request's 51 bytes, and the 2,048 blocks of
/// 512 bytes that a command writes at most.
pub const FIRST_BYTES: usize = 1_048_627;

/// Appends the readable bytes of a part, as far as there is room below `most`.
#[inline(always)]
fn append_part<M: Memory>(
    memory: &mut M,
    part: &Part,
    bytes: &mut Vec<u8>,
    most: usize,
) -> Result<(), AllocError>
    requires reading { M.is_open memory.old }
    requires inside { inside (M.extent memory.old) part.now ≡ true }
    requires most { most < 2 ^ 32 }
    requires room { length bytes.old.items ≤ most }
    ensures size { M.extent memory.new ≡ M.extent memory.old }
    ensures stays { (m : List ℕ) → M.may_be memory.new m → M.may_be memory.old m }
    ensures stores { M.stored memory.new ≡ M.stored memory.old }
    ensures reading { M.is_open memory.new }
    ensures few { OnOk result (length bytes.new.items ≤ most) }
    ensures read { OnOk result ((m : List ℕ) → M.may_be memory.new m →
        bytes.new.items
        ≡ bytes.old.items ++ take (most - length bytes.old.items) (readable_of m part.now)) }
{
    if part.writable || part.len == 0 {
        return Ok(());
    }
    let len = (part.len as usize).min(most - bytes.len());
    memory.append(part.addr, len, bytes)
}

/// Returns how many readable bytes a part has, as far as there is room.
#[inline(always)]
fn readable_below(part: &Part, room: usize) -> usize
    ensures { result ≡ min (cond part.now.writable 0 part.now.len) room }
{
    if part.writable {
        return 0;
    }
    (part.len as usize).min(room)
}

/// Claims the first `len` bytes of a part, and returns false where they may not be claimed. No bytes need no claim.
#[inline(always)]
fn claim_part<M: Memory>(memory: &mut M, part: &Part, len: usize) -> bool
    requires reading { M.is_open memory.old }
    requires inside { inside (M.extent memory.old) part.now ≡ true }
    requires len { len ≤ part.now.len }
    ensures size { M.extent memory.new ≡ M.extent memory.old }
    ensures stays { (m : List ℕ) → M.may_be memory.new m → M.may_be memory.old m }
    ensures stores { M.stored memory.new ≡ M.stored memory.old }
    ensures reading { M.is_open memory.new }
{
    if len == 0 {
        return true;
    }
    memory.claim(part.addr, len)
}

/// Claims the first readable bytes of the parts in order, at most `most` of them. Returns false at the first part that may not
/// be claimed.
#[inline(always)]
fn claims_parts<M: Memory>(memory: &mut M, parts: &[Part], most: usize) -> bool
    requires reading { M.is_open memory.old }
    requires inside { AllPass (inside (M.extent memory.old)) parts.now }
    ensures size { M.extent memory.new ≡ M.extent memory.old }
    ensures stays { (m : List ℕ) → M.may_be memory.new m → M.may_be memory.old m }
    ensures stores { M.stored memory.new ≡ M.stored memory.old }
    ensures reading { M.is_open memory.new }
{
    let mut room = most;
    for part in parts {
        let len = readable_below(part, room);
        if !claim_part(memory, part, len) {
            return false;
        }
        room -= len;
    }
    true
}

/// Reads the readable bytes of a part, which were claimed next, into their place from `at` on, as far as there is room below
/// `most`. Returns where they end.
#[inline(always)]
fn read_part<M: Memory>(
    memory: &mut M,
    part: &Part,
    bytes: &mut [u8],
    at: usize,
    most: usize,
) -> Result<usize, AllocError>
    requires reading { M.is_open memory.old }
    requires inside { inside (M.extent memory.old) part.now ≡ true }
    requires at { at ≤ most }
    requires room { at + min (cond part.now.writable 0 part.now.len) (most - at) ≤ length bytes.old }
    ensures size { M.extent memory.new ≡ M.extent memory.old }
    ensures stays { (m : List ℕ) → M.may_be memory.new m → M.may_be memory.old m }
    ensures stores { M.stored memory.new ≡ M.stored memory.old }
    ensures reading { M.is_open memory.new }
    ensures len { length bytes.new ≡ length bytes.old }
    ensures end { IfOk result (λ end. end ≡ at + min (cond part.now.writable 0 part.now.len) (most - at)) }
    ensures read { IfOk result (λ end. (m : List ℕ) → M.may_be memory.new m →
        take end bytes.new ≡ take at bytes.old ++ take (most - at) (readable_of m part.now)) }
{
    let len = readable_below(part, most - at);
    if len != 0 {
        memory.read_claimed(part.addr, &mut bytes[at..at + len])?;
    }
    Ok(at + len)
}

/// Reads the first readable bytes of the parts, all of which were claimed, each into its place. There is room for as many
/// as there are, at most `most`.
#[inline(always)]
fn read_parts<M: Memory>(
    memory: &mut M,
    parts: &[Part],
    bytes: &mut [u8],
    most: usize,
) -> Result<(), AllocError>
    requires reading { M.is_open memory.old }
    requires inside { AllPass (inside (M.extent memory.old)) parts.now }
    requires room { length bytes.old ≡ min (readable_total parts.now) most }
    ensures size { M.extent memory.new ≡ M.extent memory.old }
    ensures stays { (m : List ℕ) → M.may_be memory.new m → M.may_be memory.old m }
    ensures stores { M.stored memory.new ≡ M.stored memory.old }
    ensures reading { M.is_open memory.new }
    ensures len { length bytes.new ≡ length bytes.old }
    ensures read { OnOk result ((m : List ℕ) → M.may_be memory.new m → bytes.new ≡ take most (readable_bytes m parts.now)) }
{
    let mut at = 0;
    for part in parts {
        at = read_part(memory, part, bytes, at, most)?;
    }
    Ok(())
}

/// Returns the first readable bytes of a chain that was found, at most `most` of them. Bytes that may be claimed are read
/// straight into the room. For rings.
#[inline(always)]
pub fn gather<M: Memory>(
    memory: &mut M,
    draft: &mut Draft,
    most: usize,
) -> Result<Vec<u8>, AllocError>
    requires reading { M.is_open memory.old }
    requires fit { PartsFit (M.extent memory.old) draft.old }
    requires most { most < 2 ^ 32 }
    ensures size { M.extent memory.new ≡ M.extent memory.old }
    ensures stays { (m : List ℕ) → M.may_be memory.new m → M.may_be memory.old m }
    ensures stores { M.stored memory.new ≡ M.stored memory.old }
    ensures reading { M.is_open memory.new }
    ensures bytes { IfOk result (λ bytes. (m : List ℕ) → M.may_be memory.new m → bytes.items ≡ take most (readable_bytes m draft.old)) }
    ensures same { draft.new ≡ draft.old }
{
    let total = draft.readable_len().min(most as u64);
    let mut bytes = draft.take_room();
    if claims_parts(memory, draft.parts(), most) {
        bytes.resize(total as usize, 0)?;
        read_parts(memory, draft.parts(), bytes.as_mut_slice(), most)?;
        return Ok(bytes);
    }
    bytes.clear();
    bytes.reserve(total as usize)?;
    for part in draft.parts() {
        append_part(memory, part, &mut bytes, most)?;
    }
    Ok(bytes)
}

/// Writes into a writable part from its byte `skip` on, and answers how many bytes.
pub(crate) fn fill_part<M: WritableMemory>(
    memory: &mut M,
    part: &Part,
    skip: u64,
    bytes: &[u8],
) -> usize
    requires inside { part.now.addr + part.now.len ≤ M.extent memory.old }
    requires skip { skip < part.now.len }
    ensures written { result ≡ min (length bytes.now) (part.now.len - skip) }
    ensures memory { (m : List ℕ) → M.may_be memory.new m → (m₀ : List ℕ) × M.may_be memory.old m₀
        × (m ≡ with_bytes m₀ (part.now.addr + skip) (take (part.now.len - skip) bytes.now)) }
    ensures stores { M.stored memory.new
        ≡ M.storing (M.stored memory.old) (stores_at (part.now.addr + skip) (take (part.now.len - skip) bytes.now)) }
    ensures size { M.extent memory.new ≡ M.extent memory.old }
{
    let _size = memory.size();
    let here = bytes.len().min((part.len as u64 - skip) as usize);
    memory.write(part.addr + skip, &bytes[..here]);
    here
}

/// Writes `bytes` over the chain's writable parts in order, from their byte `at` on, and answers how many bytes that
/// were: all of them. Where parts overlap the later write wins. It takes no memory. Called before `Ring::complete`,
/// with a memory of the size that the chain's had, and with `at` and the bytes within the writable parts and below
/// 2^32.
pub fn scatter<M: WritableMemory>(memory: &mut M, chain: &Chain, at: u32, bytes: &[u8]) -> u32
    requires fits { M.extent memory.old ≡ chain.now.memory }
    requires room { at + length bytes.now ≤ writable_total chain.now.parts }
    requires small { at + length bytes.now < 2 ^ 32 }
    ensures written { result ≡ length bytes.now }
    ensures memory { Wrote (M.may_be memory.old) (M.may_be memory.new) (scatter_writes chain.now.parts at bytes.now) }
    ensures stores { M.stored memory.new
        ≡ M.storing (M.stored memory.old) (stores_of (scatter_writes chain.now.parts at bytes.now)) }
    ensures size { M.extent memory.new ≡ M.extent memory.old }
{
    let mut skip = at as u64;
    let mut rest = bytes;
    for part in chain.parts() {
        if part.writable {
            let len = part.len as u64;
            if skip < len {
                let here = fill_part(memory, part, skip, rest);
                rest = &rest[here..];
                skip = 0;
            } else {
                skip -= len;
            }
        }
    }
    bytes.len() as u32
}
