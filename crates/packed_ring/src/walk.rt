//! Walking along the descriptors of a chain: the slots of the ring, and the entries of a table that the last of them
//! names.

ghost use Rattle.std.specs.Prelude.{◌≡◌, ◌+◌, ◌*◌, ◌/◌, ◌<◌, ◌≤◌, ◌^◌, List, ℕ, [], MatchResult, None, Some};
ghost use Rattle.ring_core.specs.Inner.Walking.{RunFailsOrLacks};
ghost use Rattle.ring_core.specs.Packed.{entry_of, packed_wrong, packed_table};
ghost use Rattle.packed_ring.specs.Inner.Answers.{EndsInTable, IsFound, PackedFailsOrLacks};

use crate::slots::{descriptor_at, in_slot, slot_after, slot_behind, try_entry_at, try_in_slot};
use guest_mem::Memory;
use ring_core::{Before, Descriptor, Draft, Features, Layout, RingFault};

/// A chain that was found and not accepted yet.
#[derive(Drop)]
pub struct Candidate {
    pub id: u16,
    pub slots: u16,
    pub draft: Draft,
}

/// Returns the first thing wrong with a descriptor in the ring, in a memory and a ring of these sizes.
fn check_slot(
    before: &Before,
    d: &Descriptor,
    memory: u64,
    size: u16,
    features: &Features,
) -> Result<(), RingFault>
    requires bounded { before.now.total ≤ 2 ^ 32 }
    requires small { memory ≤ 2 ^ 52 }
    requires count { before.now.count < size }
    ensures { MatchResult result
        (λ _. packed_wrong features.now memory size before.now d.now ≡ None)
        (λ fault. packed_wrong features.now memory size before.now d.now ≡ Some fault) }
{
    if d.is_indirect() {
        return d.check_table(memory, features);
    }
    before.check_buffer(d, memory)?;
    if d.goes_on() && before.count + 1 >= size as u64 {
        Err(RingFault::ChainTooLong)
    } else {
        Ok(())
    }
}

/// Returns the fault where there is no room for the chain in the slots from there on: that of its first descriptor, and
/// `NoMemory` where it has none.
#[cold]
pub(crate) fn fault_without_room<M: Memory>(
    memory: &mut M,
    layout: &Layout,
    features: Features,
    passed: u128,
) -> RingFault
    requires reading { M.is_open memory.old }
    requires some { 0 < layout.now.size }
    requires inside { layout.now.desc + 16 * layout.now.size ≤ M.extent memory.old }
    requires small { M.extent memory.old ≤ 2 ^ 52 }
    requires room { M.has_room memory.old 1 }
    ensures size { M.extent memory.new ≡ M.extent memory.old }
    ensures stays { (m : List ℕ) → M.may_be memory.new m → M.may_be memory.old m }
    ensures stores { M.stored memory.new ≡ M.stored memory.old }
    ensures reading { M.is_open memory.new }
    ensures fails { (m : List ℕ) → M.may_be memory.new m → PackedFailsOrLacks features m layout.now passed result }
{
    let before = Before::nothing();
    let bytes = memory.size();
    let first = descriptor_at(memory, layout, passed);
    match check_slot(&before, &first, bytes, layout.size, &features) {
        Ok(()) => RingFault::NoMemory,
        Err(fault) => fault,
    }
}

/// Puts the buffers of the table that a descriptor names behind those in the draft, or returns the first thing wrong
/// with one of them, behind what stands before the table. Its first entry was read before. It stands apart, so that a
/// chain without a table doesn't pay for it.
#[inline(never)]
fn walk_table<M: Memory>(
    mut draft: Draft,
    memory: &mut M,
    named: Descriptor,
    entry: Descriptor,
    first: Before,
) -> Result<Draft, RingFault>
    requires reading { M.is_open memory.old }
    requires some { 0 < named.len / 16 }
    requires lies { named.addr + 16 * (named.len / 16) ≤ M.extent memory.old }
    requires small { M.extent memory.old ≤ 2 ^ 52 }
    requires total { first.total ≤ 2 ^ 32 }
    requires is { (m : List ℕ) → M.may_be memory.old m → entry ≡ entry_of m named 0 }
    ensures size { M.extent memory.new ≡ M.extent memory.old }
    ensures stays { (m : List ℕ) → M.may_be memory.new m → M.may_be memory.old m }
    ensures stores { M.stored memory.new ≡ M.stored memory.old }
    ensures reading { M.is_open memory.new }
    ensures walked { (m : List ℕ) → M.may_be memory.new m → MatchResult result
        (λ parts. EndsInTable m named first draft parts)
        (λ fault. RunFailsOrLacks (packed_table m named) first fault) }
{
    let entries = named.len / 16;
    let mut before = first.anew();
    let mut d = entry;
    'along: for position in 0..entries {
        let bytes = memory.size();
        if let Err(fault) = before.check_buffer(&d, bytes) {
            return Err(fault);
        }
        if draft.push(d.part()).is_err() {
            return Err(RingFault::NoMemory);
        }
        if before.count + 1 >= entries as u64 {
            return Ok(draft);
        }
        before = before.with(&d);
        let Ok(next) = try_entry_at(memory, named.addr, position + 1) else {
            return Err(RingFault::NoMemory);
        };
        d = next;
    }
    let _bytes = memory.size();
    unreachable!()
}

/// Returns the chain in the slots from there on, or the first thing wrong along it.
pub(crate) fn walk<M: Memory>(
    mut draft: Draft,
    memory: &mut M,
    layout: &Layout,
    features: Features,
    passed: u128,
) -> Result<Candidate, RingFault>
    requires reading { M.is_open memory.old }
    requires some { 0 < layout.now.size }
    requires inside { layout.now.desc + 16 * layout.now.size ≤ M.extent memory.old }
    requires small { M.extent memory.old ≤ 2 ^ 52 }
    requires empty { draft ≡ [] }
    requires room { M.has_room memory.old 1 }
    ensures size { M.extent memory.new ≡ M.extent memory.old }
    ensures stays { (m : List ℕ) → M.may_be memory.new m → M.may_be memory.old m }
    ensures stores { M.stored memory.new ≡ M.stored memory.old }
    ensures reading { M.is_open memory.new }
    ensures walked { (m : List ℕ) → M.may_be memory.new m → MatchResult result
        (λ found. IsFound features m layout.now passed found)
        (λ fault. PackedFailsOrLacks features m layout.now passed fault) }
{
    let mut before = Before::nothing();
    let mut slot = slot_after(passed, layout.size);
    let mut d = in_slot(memory, layout, slot);
    'along: for step in 0..layout.size {
        let bytes = memory.size();
        if let Err(fault) = check_slot(&before, &d, bytes, layout.size, &features) {
            return Err(fault);
        }
        let id = d.next_or_id;
        let slots = step + 1;
        if d.is_indirect() {
            let _bytes = memory.size();
            let Ok(entry) = try_entry_at(memory, d.addr, 0) else {
                return Err(RingFault::NoMemory);
            };
            return match walk_table(draft, memory, d, entry, before) {
                Ok(draft) => Ok(Candidate { id, slots, draft }),
                Err(fault) => Err(fault),
            };
        }
        if draft.push(d.part()).is_err() {
            return Err(RingFault::NoMemory);
        }
        if !d.goes_on() {
            return Ok(Candidate { id, slots, draft });
        }
        before = before.with(&d);
        slot = slot_behind(slot, layout.size);
        let Ok(next) = try_in_slot(memory, layout, slot) else {
            return Err(RingFault::NoMemory);
        };
        d = next;
    }
    let _bytes = memory.size();
    unreachable!()
}
