//! Reading and writing the slots of a packed queue.

ghost use Rattle.std.specs.Prelude.{◌≡◌, ◌+◌, ◌*◌, ◌%◌, ◌<◌, ◌≤◌, ◌^◌, ◌++◌, ◌&&◌, not, cond, List, ℕ, IfOk};
ghost use Rattle.guest_mem.specs.Memory.{bytes_at, with_bytes};
ghost use Rattle.guest_mem.specs.Stores.{stores_at};
ghost use Rattle.byteorder.specs.Endian.{little_number, little_bytes};
ghost use Rattle.ring_core.specs.Packed.{slot_at, packed_descriptor, passed_at as passed_at_index, index_at as index_after, names_one as names_one_of, wrap_counter, avail_bit, used_bit, used_flags};

use byteorder::{ByteOrder, LittleEndian};
use guest_mem::{Memory, WritableMemory};
use ring_core::{Descriptor, Layout, RingIndex};
use std::alloc::AllocError;

/// VIRTQ_DESC_F_WRITE in a used descriptor: something was written (VIRTIO 1.2, 2.8.3).
const WRITE: u16 = 2;

/// VIRTQ_DESC_F_AVAIL (VIRTIO 1.2, 2.8.1).
const AVAIL: u16 = 128;

/// VIRTQ_DESC_F_USED (VIRTIO 1.2, 2.8.1).
const USED: u16 = 32768;

/// Returns the two bytes at an address, as a number.
#[inline(always)]
pub(crate) fn number_at<M: Memory>(memory: &mut M, addr: u64) -> u16
    requires reading { M.is_open memory.old }
    requires fits { addr + 2 ≤ M.extent memory.old }
    requires room { M.has_room memory.old 1 }
    ensures size { M.extent memory.new ≡ M.extent memory.old }
    ensures stays { (m : List ℕ) → M.may_be memory.new m → M.may_be memory.old m }
    ensures stores { M.stored memory.new ≡ M.stored memory.old }
    ensures reading { M.is_open memory.new }
    ensures room { (n : ℕ) → M.has_room memory.old (n + 1) → M.has_room memory.new n }
    ensures number { (m : List ℕ) → M.may_be memory.new m → result ≡ little_number 2 (bytes_at m addr 2) }
{
    let mut bytes = [0; 2];
    memory.read(addr, &mut bytes);
    LittleEndian::read_u16(&bytes)
}

/// Returns how many slots were passed at an index, since a round began with wrap counter 1.
#[inline(always)]
pub(crate) fn passed_at(size: u16, at: RingIndex) -> u32
    ensures { result ≡ passed_at_index size at }
{
    if at.wrap {
        at.index as u32
    } else {
        at.index as u32 + size as u32
    }
}

/// Returns the slot that is reached once so many slots were passed. Counts below 2^64 are divided as such, which is far
/// cheaper.
pub(crate) fn slot_after(passed: u128, size: u16) -> u16
    requires { 0 < size }
    ensures { result ≡ passed % size }
{
    if passed < 1 << 64 {
        (passed as u64 % size as u64) as u16
    } else {
        (passed % size as u128) as u16
    }
}

/// Returns the slot behind one, round and round: a walk along the ring divides once.
pub(crate) fn slot_behind(slot: u16, size: u16) -> u16
    requires { slot < size }
    ensures { result ≡ (slot + 1) % size }
{
    let next = slot + 1;
    if next == size { 0 } else { next }
}

/// Returns where the slot lies that is reached once so many slots were passed.
pub(crate) fn slot_addr(layout: &Layout, passed: u128) -> u64
    requires some { 0 < layout.now.size }
    requires small { layout.now.desc + 16 * layout.now.size ≤ 2 ^ 52 }
    ensures address { result ≡ layout.now.desc + 16 * (passed % layout.now.size) }
    ensures inside { result + 16 ≤ layout.now.desc + 16 * layout.now.size }
{
    layout.desc + 16 * slot_after(passed, layout.size) as u64
}

/// Returns the wrap counter once so many slots were passed.
pub(crate) fn wrap_at(size: u16, passed: u128) -> bool
    requires { 0 < size }
    ensures { result ≡ wrap_counter size passed }
{
    if passed < 1 << 64 {
        passed as u64 / size as u64 % 2 == 0
    } else {
        passed / size as u128 % 2 == 0
    }
}

/// Returns the index that is reached once so many slots were passed.
pub(crate) fn index_at(size: u16, passed: u128) -> RingIndex
    requires { 0 < size }
    ensures { result ≡ index_after size passed }
{
    RingIndex {
        index: slot_after(passed, size),
        wrap: wrap_at(size, passed),
    }
}

/// Returns the descriptor that these bytes are.
#[inline(always)]
fn descriptor_of(bytes: &[u8; 16]) -> Descriptor
    ensures { result ≡ packed_descriptor bytes.now }
{
    Descriptor {
        addr: LittleEndian::read_u64(bytes),
        len: LittleEndian::read_u32(&bytes[8..]),
        flags: LittleEndian::read_u16(&bytes[14..]),
        next_or_id: LittleEndian::read_u16(&bytes[12..]),
    }
}

/// Returns the descriptor at an address, by one short read.
#[inline(always)]
fn read_descriptor<M: Memory>(memory: &mut M, addr: u64) -> Descriptor
    requires reading { M.is_open memory.old }
    requires fits { addr + 16 ≤ M.extent memory.old }
    requires room { M.has_room memory.old 1 }
    ensures size { M.extent memory.new ≡ M.extent memory.old }
    ensures stays { (m : List ℕ) → M.may_be memory.new m → M.may_be memory.old m }
    ensures stores { M.stored memory.new ≡ M.stored memory.old }
    ensures reading { M.is_open memory.new }
    ensures room { (n : ℕ) → M.has_room memory.old (n + 1) → M.has_room memory.new n }
    ensures descriptor { (m : List ℕ) → M.may_be memory.new m → result ≡ packed_descriptor (bytes_at m addr 16) }
{
    let mut bytes = [0; 16];
    memory.read(addr, &mut bytes);
    descriptor_of(&bytes)
}

/// Returns the descriptor at an address. An error where memory to keep it is refused.
#[inline(always)]
fn try_descriptor<M: Memory>(memory: &mut M, addr: u64) -> Result<Descriptor, AllocError>
    requires reading { M.is_open memory.old }
    requires fits { addr + 16 ≤ M.extent memory.old }
    ensures size { M.extent memory.new ≡ M.extent memory.old }
    ensures stays { (m : List ℕ) → M.may_be memory.new m → M.may_be memory.old m }
    ensures stores { M.stored memory.new ≡ M.stored memory.old }
    ensures reading { M.is_open memory.new }
    ensures descriptor { IfOk result (λ d. (m : List ℕ) → M.may_be memory.new m → d ≡ packed_descriptor (bytes_at m addr 16)) }
{
    let mut bytes = [0; 16];
    memory.try_read(addr, &mut bytes)?;
    Ok(descriptor_of(&bytes))
}

/// Returns the descriptor in a slot, by one short read.
#[inline(always)]
pub(crate) fn in_slot<M: Memory>(memory: &mut M, layout: &Layout, slot: u16) -> Descriptor
    requires reading { M.is_open memory.old }
    requires there { slot < layout.now.size }
    requires inside { layout.now.desc + 16 * layout.now.size ≤ M.extent memory.old }
    requires small { M.extent memory.old ≤ 2 ^ 52 }
    requires room { M.has_room memory.old 1 }
    ensures size { M.extent memory.new ≡ M.extent memory.old }
    ensures stays { (m : List ℕ) → M.may_be memory.new m → M.may_be memory.old m }
    ensures stores { M.stored memory.new ≡ M.stored memory.old }
    ensures reading { M.is_open memory.new }
    ensures room { (n : ℕ) → M.has_room memory.old (n + 1) → M.has_room memory.new n }
    ensures descriptor { (m : List ℕ) → M.may_be memory.new m → result ≡ packed_descriptor (bytes_at m (layout.now.desc + 16 * slot) 16) }
{
    read_descriptor(memory, layout.desc + 16 * slot as u64)
}

/// Returns the descriptor in a slot. An error where memory to keep it is refused.
#[inline(always)]
pub(crate) fn try_in_slot<M: Memory>(
    memory: &mut M,
    layout: &Layout,
    slot: u16,
) -> Result<Descriptor, AllocError>
    requires reading { M.is_open memory.old }
    requires there { slot < layout.now.size }
    requires inside { layout.now.desc + 16 * layout.now.size ≤ M.extent memory.old }
    requires small { M.extent memory.old ≤ 2 ^ 52 }
    ensures size { M.extent memory.new ≡ M.extent memory.old }
    ensures stays { (m : List ℕ) → M.may_be memory.new m → M.may_be memory.old m }
    ensures stores { M.stored memory.new ≡ M.stored memory.old }
    ensures reading { M.is_open memory.new }
    ensures descriptor { IfOk result (λ d. (m : List ℕ) → M.may_be memory.new m
        → d ≡ packed_descriptor (bytes_at m (layout.now.desc + 16 * slot) 16)) }
{
    try_descriptor(memory, layout.desc + 16 * slot as u64)
}

/// Returns the descriptor in the slot that is reached once so many slots were passed, by one short read.
pub(crate) fn descriptor_at<M: Memory>(memory: &mut M, layout: &Layout, passed: u128) -> Descriptor
    requires reading { M.is_open memory.old }
    requires some { 0 < layout.now.size }
    requires inside { layout.now.desc + 16 * layout.now.size ≤ M.extent memory.old }
    requires small { M.extent memory.old ≤ 2 ^ 52 }
    requires room { M.has_room memory.old 1 }
    ensures size { M.extent memory.new ≡ M.extent memory.old }
    ensures stays { (m : List ℕ) → M.may_be memory.new m → M.may_be memory.old m }
    ensures stores { M.stored memory.new ≡ M.stored memory.old }
    ensures reading { M.is_open memory.new }
    ensures room { (n : ℕ) → M.has_room memory.old (n + 1) → M.has_room memory.new n }
    ensures descriptor { (m : List ℕ) → M.may_be memory.new m → result ≡ slot_at layout.now m passed }
{
    read_descriptor(memory, slot_addr(layout, passed))
}

/// Returns the entry at a position of the table at an address. An error where memory to keep it is refused.
#[inline(always)]
pub(crate) fn try_entry_at<M: Memory>(
    memory: &mut M,
    addr: u64,
    position: u32,
) -> Result<Descriptor, AllocError>
    requires reading { M.is_open memory.old }
    requires inside { addr + 16 * position + 16 ≤ M.extent memory.old }
    requires small { M.extent memory.old ≤ 2 ^ 52 }
    ensures size { M.extent memory.new ≡ M.extent memory.old }
    ensures stays { (m : List ℕ) → M.may_be memory.new m → M.may_be memory.old m }
    ensures stores { M.stored memory.new ≡ M.stored memory.old }
    ensures reading { M.is_open memory.new }
    ensures descriptor { IfOk result (λ d. (m : List ℕ) → M.may_be memory.new m → d ≡ packed_descriptor (bytes_at m (addr + 16 * position) 16)) }
{
    try_descriptor(memory, addr + 16 * position as u64)
}

/// Returns true if one of so many slots, from where so many were passed, is the one that an offset and wrap names.
#[inline(never)]
pub(crate) fn names_one(size: u16, offset_wrap: u16, passed: u128, slots: u16) -> bool
    requires some { 0 < size }
    requires few { slots ≤ size }
    ensures { result ≡ names_one_of size offset_wrap passed slots }
{
    let offset = offset_wrap % 32768;
    let first = slot_after(passed, size);
    if offset >= size {
        return false;
    }
    if (offset_wrap / 32768 == 1) == wrap_at(size, passed) {
        offset >= first && offset - first < slots
    } else {
        offset as u32 + (size as u32) < first as u32 + slots as u32
    }
}

/// Returns true if a descriptor is available under a wrap counter of the driver.
pub(crate) fn is_available(d: &Descriptor, wrap: bool) -> bool
    ensures { result ≡ cond wrap (avail_bit d.now && not (used_bit d.now)) (not (avail_bit d.now) && used_bit d.now) }
{
    let avail = d.flags & AVAIL == AVAIL;
    let used = d.flags & USED == USED;
    if wrap { avail && !used } else { !avail && used }
}

/// Returns the flags of a used descriptor under a wrap counter of the device, with so many bytes written.
pub(crate) fn flags_of_used(wrap: bool, len: u32) -> u16
    ensures { result ≡ used_flags wrap len }
{
    let turn = if wrap { AVAIL + USED } else { 0 };
    let written = if len > 0 { WRITE } else { 0 };
    turn + written
}

/// Puts len, id and flags of a used descriptor at an address.
pub(crate) fn put_used<M: WritableMemory>(memory: &mut M, addr: u64, len: u32, id: u16, flags: u16)
    requires { addr + 8 ≤ M.extent memory.old }
    ensures memory { (m : List ℕ) → M.may_be memory.new m → (m₀ : List ℕ) × M.may_be memory.old m₀
        × (m ≡ with_bytes m₀ addr (little_bytes 4 len ++ little_bytes 2 id ++ little_bytes 2 flags)) }
    ensures stores { M.stored memory.new
        ≡ M.storing (M.stored memory.old) (stores_at addr (little_bytes 4 len ++ little_bytes 2 id ++ little_bytes 2 flags)) }
    ensures size { M.extent memory.new ≡ M.extent memory.old }
{
    let mut bytes = [0; 8];
    LittleEndian::write_u32(&mut bytes, len);
    LittleEndian::write_u16(&mut bytes[4..], id);
    LittleEndian::write_u16(&mut bytes[6..], flags);
    memory.write(addr, &bytes);
}
