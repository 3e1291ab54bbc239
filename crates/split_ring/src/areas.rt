//! Reading and writing the fields of a split queue's three areas.

ghost use Rattle.std.specs.Prelude.{◌≡◌, ◌+◌, ◌*◌, ◌≤◌, ◌^◌, ◌++◌, List, ℕ, IfOk};
ghost use Rattle.guest_mem.specs.Memory.{bytes_at, with_bytes};
ghost use Rattle.guest_mem.specs.Stores.{stores_at};
ghost use Rattle.byteorder.specs.Endian.{little_number, little_bytes};
ghost use Rattle.ring_core.specs.Split.{in_table, split_descriptor};

use byteorder::{ByteOrder, LittleEndian};
use guest_mem::{Memory, WritableMemory};
use ring_core::Descriptor;
use std::alloc::AllocError;

/// Returns the two bytes at an address, as a number.
#[inline(always)]
pub(crate) fn number_at<M: Memory>(memory: &mut M, addr: u64) -> u16
    requires reading { M.is_open memory.old }
    requires fits { addr + 2 ≤ M.extent memory.old }
    requires room { M.has_room memory.old 1 }
    ensures size { M.extent memory.new ≡ M.extent memory.old }
    ensures stays { (m : List ℕ) → M.may_be memory.new m → M.may_be memory.old m }
    ensures stores { M.stored memory.new ≡ M.stored memory.old }
    ensures reading { M.is_open memory.new }
    ensures room { (n : ℕ) → M.has_room memory.old (n + 1) → M.has_room memory.new n }
    ensures number { (m : List ℕ) → M.may_be memory.new m → result ≡ little_number 2 (bytes_at m addr 2) }
{
    let mut bytes = [0; 2];
    memory.read(addr, &mut bytes);
    LittleEndian::read_u16(&bytes)
}

/// Returns the descriptor that these bytes are.
#[inline(always)]
fn descriptor_of(bytes: &[u8; 16]) -> Descriptor
    ensures { result ≡ split_descriptor bytes.now }
{
    Descriptor {
        addr: LittleEndian::read_u64(bytes),
        len: LittleEndian::read_u32(&bytes[8..]),
        flags: LittleEndian::read_u16(&bytes[12..]),
        next_or_id: LittleEndian::read_u16(&bytes[14..]),
    }
}

/// Returns the descriptor with this number in the table at an address, by one short read.
#[inline(always)]
pub(crate) fn descriptor_at<M: Memory>(memory: &mut M, table: u64, number: u16) -> Descriptor
    requires reading { M.is_open memory.old }
    requires inside { table + 16 * number + 16 ≤ M.extent memory.old }
    requires small { M.extent memory.old ≤ 2 ^ 52 }
    requires room { M.has_room memory.old 1 }
    ensures size { M.extent memory.new ≡ M.extent memory.old }
    ensures stays { (m : List ℕ) → M.may_be memory.new m → M.may_be memory.old m }
    ensures stores { M.stored memory.new ≡ M.stored memory.old }
    ensures reading { M.is_open memory.new }
    ensures descriptor { (m : List ℕ) → M.may_be memory.new m → result ≡ in_table m table number }
{
    let mut bytes = [0; 16];
    memory.read(table + 16 * number as u64, &mut bytes);
    descriptor_of(&bytes)
}

/// Returns the descriptor with this number in the table at an address. An error where memory to keep it is refused.
#[inline(always)]
pub(crate) fn try_descriptor_at<M: Memory>(
    memory: &mut M,
    table: u64,
    number: u16,
) -> Result<Descriptor, AllocError>
    requires reading { M.is_open memory.old }
    requires inside { table + 16 * number + 16 ≤ M.extent memory.old }
    requires small { M.extent memory.old ≤ 2 ^ 52 }
    ensures size { M.extent memory.new ≡ M.extent memory.old }
    ensures stays { (m : List ℕ) → M.may_be memory.new m → M.may_be memory.old m }
    ensures stores { M.stored memory.new ≡ M.stored memory.old }
    ensures reading { M.is_open memory.new }
    ensures descriptor { IfOk result (λ d. (m : List ℕ) → M.may_be memory.new m → d ≡ in_table m table number) }
{
    let mut bytes = [0; 16];
    memory.try_read(table + 16 * number as u64, &mut bytes)?;
    Ok(descriptor_of(&bytes))
}

/// Puts a number at an address, in two bytes.
pub(crate) fn put_number<M: WritableMemory>(memory: &mut M, addr: u64, number: u16)
    requires fits { addr + 2 ≤ M.extent memory.old }
    ensures memory { (m : List ℕ) → M.may_be memory.new m → (m₀ : List ℕ) × M.may_be memory.old m₀
        × (m ≡ with_bytes m₀ addr (little_bytes 2 number)) }
    ensures stores { M.stored memory.new
        ≡ M.storing (M.stored memory.old) (stores_at addr (little_bytes 2 number)) }
    ensures size { M.extent memory.new ≡ M.extent memory.old }
{
    let mut bytes = [0; 2];
    LittleEndian::write_u16(&mut bytes, number);
    memory.write(addr, &bytes);
}

/// Puts a used element at an address: a head and a length, in four bytes each.
pub(crate) fn put_element<M: WritableMemory>(memory: &mut M, addr: u64, head: u32, len: u32)
    requires { addr + 8 ≤ M.extent memory.old }
    ensures memory { (m : List ℕ) → M.may_be memory.new m → (m₀ : List ℕ) × M.may_be memory.old m₀
        × (m ≡ with_bytes m₀ addr (little_bytes 4 head ++ little_bytes 4 len)) }
    ensures stores { M.stored memory.new
        ≡ M.storing (M.stored memory.old) (stores_at addr (little_bytes 4 head ++ little_bytes 4 len)) }
    ensures size { M.extent memory.new ≡ M.extent memory.old }
{
    let mut bytes = [0; 8];
    LittleEndian::write_u32(&mut bytes, head);
    LittleEndian::write_u32(&mut bytes[4..], len);
    memory.write(addr, &bytes);
}
