//! Walking along a chain of descriptors: those of the queue's table, and of one that the last of them names.

ghost use Rattle.std.specs.Prelude.{◌≡◌, ◌+◌, ◌*◌, ◌/◌, ◌<◌, ◌≤◌, ◌^◌, List, ℕ, [], MatchResult, None, Some};
ghost use Rattle.ring_core.specs.State.{no_features};
ghost use Rattle.ring_core.specs.Inner.Walking.{Walks, RunFailsOrLacks};
ghost use Rattle.ring_core.specs.Split.{in_table, split_wrong, SplitChain};
ghost use Rattle.split_ring.specs.Inner.Answers.{path_of, SplitFailsOrLacks};

use crate::areas::{descriptor_at, try_descriptor_at};
use guest_mem::Memory;
use ring_core::{Before, Descriptor, Draft, Features, Layout, RingFault, Run};

/// A table of descriptors, and which features its descriptors may use.
#[derive(Clone, Copy)]
pub struct Table {
    pub addr: u64,
    pub entries: u32,
    pub features: Features,
}

impl Table {
    /// Returns the queue's own.
    fn of_queue(layout: &Layout, features: Features) -> Table
        ensures { result ≡ record { addr = layout.now.desc; entries = layout.now.size; features = features } }
    {
        Table {
            addr: layout.desc,
            entries: layout.size as u32,
            features,
        }
    }

    /// Returns that which a descriptor names; none of its own names another.
    fn named_by(d: &Descriptor) -> Table
        ensures { result ≡ record { addr = d.now.addr; entries = d.now.len / 16; features = no_features } }
    {
        Table {
            addr: d.addr,
            entries: d.len / 16,
            features: Features::none(),
        }
    }
}

/// Returns the first thing wrong with a descriptor, in a memory and a table of these sizes.
fn check(before: &Before, d: &Descriptor, memory: u64, table: &Table) -> Result<(), RingFault>
    requires bounded { before.now.total ≤ 2 ^ 32 }
    requires small { memory ≤ 2 ^ 52 }
    requires count { before.now.count < table.now.entries }
    ensures { MatchResult result
        (λ _. split_wrong table.now.features memory table.now.entries before.now d.now ≡ None)
        (λ fault. split_wrong table.now.features memory table.now.entries before.now d.now ≡ Some fault) }
{
    if d.is_indirect() {
        return d.check_table(memory, &table.features);
    }
    before.check_buffer(d, memory)?;
    let entries = table.entries;
    if !d.goes_on() {
        Ok(())
    } else if d.next_or_id as u32 >= entries {
        Err(RingFault::NextOutOfRange)
    } else if before.count + 1 >= entries as u64 {
        Err(RingFault::ChainTooLong)
    } else {
        Ok(())
    }
}

/// Returns the fault where there is no room for the chain at a head: that of its first descriptor, and `NoMemory` where
/// it has none.
#[cold]
pub(crate) fn fault_without_room<M: Memory>(
    memory: &mut M,
    layout: &Layout,
    features: Features,
    head: u16,
) -> RingFault
    requires reading { M.is_open memory.old }
    requires inside { layout.now.desc + 16 * layout.now.size ≤ M.extent memory.old }
    requires small { M.extent memory.old ≤ 2 ^ 52 }
    requires head { head < layout.now.size }
    requires room { M.has_room memory.old 1 }
    ensures size { M.extent memory.new ≡ M.extent memory.old }
    ensures stays { (m : List ℕ) → M.may_be memory.new m → M.may_be memory.old m }
    ensures stores { M.stored memory.new ≡ M.stored memory.old }
    ensures reading { M.is_open memory.new }
    ensures fails { (m : List ℕ) → M.may_be memory.new m → SplitFailsOrLacks features m layout.now head result }
{
    let table = Table::of_queue(layout, features);
    let before = Before::nothing();
    let bytes = memory.size();
    let first = descriptor_at(memory, table.addr, head);
    match check(&before, &first, bytes, &table) {
        Ok(()) => RingFault::NoMemory,
        Err(fault) => fault,
    }
}

/// Returns the run from a head of a table, behind what stands before it, or the first thing wrong along it. The
/// descriptor at the head was read before. Its parts are put behind those in the draft.
#[inline(always)]
fn walk_run<M: Memory>(
    mut draft: Draft,
    memory: &mut M,
    table: &Table,
    head: u16,
    at_head: Descriptor,
    first: Before,
) -> Result<Run, RingFault>
    requires reading { M.is_open memory.old }
    requires inside { table.now.addr + 16 * table.now.entries ≤ M.extent memory.old }
    requires small { M.extent memory.old ≤ 2 ^ 52 }
    requires head { head < table.now.entries }
    requires total { first.total ≤ 2 ^ 32 }
    requires is { (m : List ℕ) → M.may_be memory.old m → at_head ≡ in_table m table.now.addr head }
    ensures size { M.extent memory.new ≡ M.extent memory.old }
    ensures stays { (m : List ℕ) → M.may_be memory.new m → M.may_be memory.old m }
    ensures stores { M.stored memory.new ≡ M.stored memory.old }
    ensures reading { M.is_open memory.new }
    ensures walked { (m : List ℕ) → M.may_be memory.new m → MatchResult result
        (λ run. Walks (path_of m table.now head) table.now.entries first draft run)
        (λ fault. RunFailsOrLacks (path_of m table.now head) first fault) }
{
    let mut before = first.anew();
    let mut d = at_head;
    'along: for _step in 0..table.entries {
        let bytes = memory.size();
        if let Err(fault) = check(&before, &d, bytes, table) {
            return Err(fault);
        }
        if !d.goes_on() {
            return Ok(Run {
                last: d,
                before,
                draft,
            });
        }
        if draft.push(d.part()).is_err() {
            return Err(RingFault::NoMemory);
        }
        before = before.with(&d);
        let Ok(next) = try_descriptor_at(memory, table.addr, d.next_or_id) else {
            return Err(RingFault::NoMemory);
        };
        d = next;
    }
    let _bytes = memory.size();
    unreachable!()
}

/// Returns the parts of the chain at a head of the queue's table, for which there is room, or the first thing wrong
/// along it.
pub(crate) fn walk<M: Memory>(
    draft: Draft,
    memory: &mut M,
    layout: &Layout,
    features: Features,
    head: u16,
) -> Result<Draft, RingFault>
    requires reading { M.is_open memory.old }
    requires inside { layout.now.desc + 16 * layout.now.size ≤ M.extent memory.old }
    requires small { M.extent memory.old ≤ 2 ^ 52 }
    requires head { head < layout.now.size }
    requires empty { draft ≡ [] }
    requires room { M.has_room memory.old 1 }
    ensures size { M.extent memory.new ≡ M.extent memory.old }
    ensures stays { (m : List ℕ) → M.may_be memory.new m → M.may_be memory.old m }
    ensures stores { M.stored memory.new ≡ M.stored memory.old }
    ensures reading { M.is_open memory.new }
    ensures walked { (m : List ℕ) → M.may_be memory.new m → MatchResult result
        (λ draft. SplitChain features m layout.now.desc layout.now.size head draft)
        (λ fault. SplitFailsOrLacks features m layout.now head fault) }
{
    let table = Table::of_queue(layout, features);
    let at_head = descriptor_at(memory, table.addr, head);
    let run = match walk_run(draft, memory, &table, head, at_head, Before::nothing()) {
        Ok(run) => run,
        Err(fault) => return Err(fault),
    };
    if !run.last.is_indirect() {
        return run.into_parts();
    }
    let Run {
        last,
        before,
        draft,
    } = run;
    let named = Table::named_by(&last);
    let _bytes = memory.size();
    let Ok(entry) = try_descriptor_at(memory, named.addr, 0) else {
        return Err(RingFault::NoMemory);
    };
    match walk_run(draft, memory, &named, 0, entry, before) {
        Ok(further) => further.into_parts(),
        Err(fault) => Err(fault),
    }
}
