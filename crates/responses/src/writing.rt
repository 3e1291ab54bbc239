//! Writing what answers a request into its chain, in any memory.

ghost use Rattle.std.specs.Prelude.{◌≡◌, ◌+◌, ◌≤◌, ◌<◌, ◌-◌, ◌^◌, ◌++◌, List, ℕ, Some, length, IfSome};
ghost use Rattle.guest_mem.specs.Memory.{with_bytes};
ghost use Rattle.guest_mem.specs.Stores.{stores_at};
ghost use Rattle.ring_core.specs.Parts.{writable_total};
ghost use Rattle.ring_core.specs.Writes.{Wrote, scatter_writes, stores_of};
ghost use Rattle.command_model.specs.PlainReply.{plain_of};
ghost use Rattle.command_model.specs.Inner.PlainReply.{good_data};
ghost use Rattle.request_intake.specs.Answers.{answer_of_reply};
ghost use Rattle.responses.specs.Inner.FirstPart.{first_open};

use backed_store::BlocksInPlace;
use command_model::{GOOD, Reply};
use foundation::Record;
use guest_mem::WritableMemory;
use request_intake::{ChainLengths, DirectAnswer, put_response_ok};
use ring_core::{Chain, Cursor, Part, scatter};
use scsi_codec::RESPONSE_BYTES;

/// Returns the first part of these that may be written.
#[inline(always)]
fn first_writable(parts: &[Part]) -> Option<Part>
    ensures { result ≡ first_open parts.now }
{
    for part in parts {
        if part.writable {
            return Some(*part);
        }
    }
    None
}

/// Returns the first part of these that may be written, where so many bytes lie in it.
#[inline(always)]
fn whole_part(parts: &[Part], len: usize) -> Option<Part>
    ensures { IfSome result (λ p. (first_open parts.now ≡ Some p) × (len ≤ p.len)) }
{
    match first_writable(parts) {
        Some(part) => {
            if len <= part.len as usize {
                Some(part)
            } else {
                None
            }
        }
        None => None,
    }
}

/// Writes a response and its data into one part, in which both lie.
#[inline(always)]
fn write_whole<M: WritableMemory>(
    memory: &mut M,
    part: &Part,
    head: &[u8; RESPONSE_BYTES],
    payload: &[u8],
) -> u32
    requires inside { part.now.addr + part.now.len ≤ M.extent memory.old }
    requires room { RESPONSE_BYTES + length payload.now ≤ part.now.len }
    ensures written { result ≡ RESPONSE_BYTES + length payload.now }
    ensures memory { (m : List ℕ) → M.may_be memory.new m → (m₀ : List ℕ) × M.may_be memory.old m₀
        × (m ≡ with_bytes (with_bytes m₀ part.now.addr head.now) (part.now.addr + RESPONSE_BYTES) payload.now) }
    ensures stores { M.stored memory.new
        ≡ M.storing (M.stored memory.old) (stores_at part.now.addr (head.now ++ payload.now)) }
    ensures size { M.extent memory.new ≡ M.extent memory.old }
{
    let _size = memory.size();
    let _room = part.len;
    memory.write(part.addr, head.as_slice());
    // Most commands return no data.
    if payload.is_empty() {
        return RESPONSE_BYTES as u32;
    }
    memory.write(part.addr + RESPONSE_BYTES as u64, payload);
    (RESPONSE_BYTES + payload.len()) as u32
}

/// Writes a response and its data over the writable parts of a chain.
fn write_scattered<M: WritableMemory>(
    memory: &mut M,
    chain: &Chain,
    head: &[u8; RESPONSE_BYTES],
    payload: &[u8],
) -> u32
    requires fits { M.extent memory.old ≡ chain.now.memory }
    requires room { RESPONSE_BYTES + length payload.now ≤ writable_total chain.now.parts }
    requires less { RESPONSE_BYTES + length payload.now < 2 ^ 32 }
    ensures written { result ≡ RESPONSE_BYTES + length payload.now }
    ensures memory { Wrote (M.may_be memory.old) (M.may_be memory.new) (scatter_writes chain.now.parts 0 (head.now ++ payload.now)) }
    ensures stores { M.stored memory.new
        ≡ M.storing (M.stored memory.old) (stores_of (scatter_writes chain.now.parts 0 (head.now ++ payload.now))) }
    ensures size { M.extent memory.new ≡ M.extent memory.old }
{
    let _parts = chain.parts();
    let first = scatter(memory, chain, 0, head);
    first + scatter(memory, chain, first, payload)
}

/// Writes a response and its data over the writable parts of a chain: at once where both lie in the first.
#[inline(always)]
fn write_response<M: WritableMemory>(
    memory: &mut M,
    chain: &Chain,
    head: &[u8; RESPONSE_BYTES],
    payload: &[u8],
) -> u32
    requires fits { M.extent memory.old ≡ chain.now.memory }
    requires room { RESPONSE_BYTES + length payload.now ≤ writable_total chain.now.parts }
    requires less { RESPONSE_BYTES + length payload.now < 2 ^ 32 }
    ensures written { result ≡ RESPONSE_BYTES + length payload.now }
    ensures memory { Wrote (M.may_be memory.old) (M.may_be memory.new) (scatter_writes chain.now.parts 0 (head.now ++ payload.now)) }
    ensures stores { M.stored memory.new
        ≡ M.storing (M.stored memory.old) (stores_of (scatter_writes chain.now.parts 0 (head.now ++ payload.now))) }
    ensures size { M.extent memory.new ≡ M.extent memory.old }
{
    match whole_part(chain.parts(), RESPONSE_BYTES + payload.len()) {
        Some(part) => write_whole(memory, &part, head, payload),
        None => write_scattered(memory, chain, head, payload),
    }
}

/// Writes response OK with a reply (VIRTIO 1.2 §5.6.6.1) over the writable parts of a chain of these lengths, which
/// have room for both. Returns how many bytes it wrote. Called before the chain is completed. It takes no memory.
#[inline(always)]
pub fn write_reply<M: WritableMemory>(
    memory: &mut M,
    chain: &Chain,
    lengths: &ChainLengths,
    reply: &Reply,
) -> u32
    requires fits { M.extent memory.old ≡ chain.now.memory }
    requires sum { lengths.now.readable + lengths.now.writable ≤ 2 ^ 32 }
    requires whole { lengths.now.writable ≡ writable_total chain.now.parts }
    requires room { RESPONSE_BYTES ≤ lengths.now.writable }
    requires less { lengths.now.writable < 2 ^ 32 }
    requires payload { length reply.now.payload.items ≤ lengths.now.writable - RESPONSE_BYTES }
    ensures written { result ≡ length (answer_of_reply lengths.now (plain_of reply.now)) }
    ensures memory { Wrote (M.may_be memory.old) (M.may_be memory.new)
        (scatter_writes chain.now.parts 0 (answer_of_reply lengths.now (plain_of reply.now))) }
    ensures stores { M.stored memory.new
        ≡ M.storing (M.stored memory.old)
        (stores_of (scatter_writes chain.now.parts 0 (answer_of_reply lengths.now (plain_of reply.now)))) }
    ensures size { M.extent memory.new ≡ M.extent memory.old }
{
    let mut head = [0; RESPONSE_BYTES];
    put_response_ok(&mut head, lengths, reply.status, reply.sense, reply.moved);
    write_response(memory, chain, &head, reply.payload.as_slice())
}

/// Writes a response and the data of a READ over the writable parts of a chain, page after page. Returns how many bytes it
/// wrote, and the data as proofs see them.
fn write_pages<M: WritableMemory>(
    memory: &mut M,
    chain: &Chain,
    head: &[u8; RESPONSE_BYTES],
    first: &[u8],
    rest: BlocksInPlace<'_>,
) -> (u32, Record<u8>)
    requires fits { M.extent memory.old ≡ chain.now.memory }
    requires room { RESPONSE_BYTES + length (first.now ++ rest) ≤ writable_total chain.now.parts }
    requires less { RESPONSE_BYTES + length (first.now ++ rest) < 2 ^ 32 }
    ensures written { result.0 ≡ RESPONSE_BYTES + length (first.now ++ rest.entry) }
    ensures recorded { result.1.items ≡ first.now ++ rest.entry }
    ensures memory { Wrote (M.may_be memory.old) (M.may_be memory.new)
        (scatter_writes chain.now.parts 0 (head.now ++ (first.now ++ rest.entry))) }
    ensures stores { M.stored memory.new
        ≡ M.storing (M.stored memory.old) (stores_of (scatter_writes chain.now.parts 0 (head.now ++ (first.now ++ rest.entry)))) }
    ensures size { M.extent memory.new ≡ M.extent memory.old }
{
    let _parts = chain.parts();
    let len = RESPONSE_BYTES + first.len() + rest.len();
    let mut cursor = Cursor::new(chain);
    cursor.write(memory, head);
    cursor.write(memory, first);
    let mut written = Record::new().and_all(first);
    let mut left = rest;
    while !left.is_empty() {
        let page = left.take_page();
        cursor.write(memory, page);
        written.extend_from_slice(page);
    }
    (len as u32, written)
}

/// Writes response OK of a READ that is GOOD, with the data of these blocks, as [`write_reply`] does of such a reply: so data are
/// written from where they stand, with no reply made of them. Returns how many bytes it wrote, and the data as proofs see
/// them.
#[inline(always)]
pub fn write_read<M: WritableMemory>(
    memory: &mut M,
    chain: &Chain,
    lengths: &ChainLengths,
    blocks: BlocksInPlace<'_>,
) -> (u32, Record<u8>)
    requires fits { M.extent memory.old ≡ chain.now.memory }
    requires sum { lengths.now.readable + lengths.now.writable ≤ 2 ^ 32 }
    requires whole { lengths.now.writable ≡ writable_total chain.now.parts }
    requires room { RESPONSE_BYTES ≤ lengths.now.writable }
    requires less { lengths.now.writable < 2 ^ 32 }
    requires data { length blocks ≤ lengths.now.writable - RESPONSE_BYTES }
    ensures written { result.0 ≡ length (answer_of_reply lengths.now (good_data blocks.entry)) }
    ensures recorded { result.1.items ≡ blocks.entry }
    ensures memory { Wrote (M.may_be memory.old) (M.may_be memory.new)
        (scatter_writes chain.now.parts 0 (answer_of_reply lengths.now (good_data blocks.entry))) }
    ensures stores { M.stored memory.new
        ≡ M.storing (M.stored memory.old)
        (stores_of (scatter_writes chain.now.parts 0 (answer_of_reply lengths.now (good_data blocks.entry)))) }
    ensures size { M.extent memory.new ≡ M.extent memory.old }
{
    let mut head = [0; RESPONSE_BYTES];
    put_response_ok(&mut head, lengths, GOOD, None, blocks.len() as u32);
    let mut rest = blocks;
    let first = rest.take_page();
    if rest.is_empty() {
        let len = write_response(memory, chain, &head, first);
        return (len, Record::new().and_all(first));
    }
    write_pages(memory, chain, &head, first, rest)
}

/// Writes an answer that needs no unit over the writable parts of a chain, which have room for it. Returns how many
/// bytes it wrote. Called before the chain is completed. It takes no memory.
pub fn write_direct<M: WritableMemory>(memory: &mut M, chain: &Chain, answer: &DirectAnswer) -> u32
    requires fits { M.extent memory.old ≡ chain.now.memory }
    requires room { length answer.now ≤ writable_total chain.now.parts }
    ensures written { result ≡ length answer.now }
    ensures memory { Wrote (M.may_be memory.old) (M.may_be memory.new) (scatter_writes chain.now.parts 0 answer.now) }
    ensures stores { M.stored memory.new
        ≡ M.storing (M.stored memory.old) (stores_of (scatter_writes chain.now.parts 0 answer.now)) }
    ensures size { M.extent memory.new ≡ M.extent memory.old }
{
    scatter(memory, chain, 0, answer.bytes().as_slice())
}
