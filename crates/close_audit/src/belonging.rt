//! Tells whether a report is of the host that was opened.

ghost use Rattle.std.specs.Prelude.{◌≡◌, ◌≤◌, ◌↔◌, IsTrue, length};
ghost use Rattle.close_audit.specs.Opened.{IsOpenedAs, AreOpenedAs};
ghost use Rattle.close_audit.specs.Inner.Belonging.{Misplaces, FindsForeign};

use logical_unit::UnitState;
use request_intake::UnitSpec;
use ring_core::Ticket;
use virtqueue::Queue;

/// The first ticket of all, which is one of the control queue (VIRTIO 1.2, 5.6.2).
const FIRST: Ticket = Ticket {
    queue: 0,
    number: 0,
};

/// Returns whether a unit opened with these names.
fn is_named_as(spec: &UnitSpec, unit: &UnitState) -> bool
    ensures { IsTrue result ↔ (unit.now.opening.identity ≡ spec.now.identity) }
{
    unit.identity() == spec.identity
}

/// Returns whether a unit opened with this address, capacity, profile and names, and keeps replies for receipts to be
/// compared with.
fn is_opened_as(spec: &UnitSpec, unit: &UnitState) -> bool
    ensures { IsTrue result ↔ IsOpenedAs spec.now unit.now }
{
    unit.target() == spec.target
        && unit.lun() == spec.lun
        && unit.opening_blocks() == spec.blocks
        && unit.profile() == spec.profile
        && is_named_as(spec, unit)
        && unit.keeps_replies()
}

/// Returns whether these are the units that were wanted, each at its index.
fn are_opened_as(specs: &[UnitSpec], units: &[UnitState]) -> bool
    ensures { IsTrue result ↔ AreOpenedAs specs.now units.now }
{
    if units.len() != specs.len() {
        return false;
    }
    for unit_index in 0..units.len() {
        if !is_opened_as(&specs[unit_index], &units[unit_index]) {
            return false;
        }
    }
    true
}

/// Returns the first ticket of the first index at which a queue of another number stands.
fn first_misplaced(queues: &[Queue]) -> Option<Ticket>
    requires few { length queues.now ≤ 65536 }
    ensures { Misplaces queues.now result }
{
    for (queue_index, queue) in queues.iter().enumerate() {
        if usize::from(queue.number()) != queue_index {
            return Some(Ticket {
                queue: queue_index as u16,
                number: 0,
            });
        }
    }
    None
}

/// Returns the ticket that is named where a report isn't of the host with these units. It is the first of all, if its
/// units are others; else that of the first queue that isn't at its index.
pub(crate) fn first_foreign(
    specs: &[UnitSpec],
    units: &[UnitState],
    queues: &[Queue],
) -> Option<Ticket>
    requires few { length queues.now ≤ 65536 }
    ensures { FindsForeign specs.now units.now queues.now result }
{
    if !are_opened_as(specs, units) {
        return Some(FIRST);
    }
    first_misplaced(queues)
}
