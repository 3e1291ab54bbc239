//! The step in which a request comes to its unit.

ghost use Rattle.device_model.specs.Parts as plain;
ghost use Rattle.phases.specs.Slots.{slot_of};
ghost use Rattle.phases.specs.Units.{Enters, EntersAs};
ghost use Rattle.phases.specs.DoingUnit.{HasPlaces};
ghost use Rattle.std.specs.Prelude.{IsTrue, ◌↔◌, ◌≡◌};

use crate::direct_chain::DirectChain;
use crate::refusal::Refusal;
use crate::slot::Slot;
use logical_unit::{Arrival, Entered, JobList, UnitState};
use std::mem;
use task_set::MOST_TASKS;

/// Returns true if there is room for all that a unit may hand out.
pub(crate) fn has_places(out: &JobList) -> bool
    ensures { IsTrue result ↔ HasPlaces out.now }
{
    out.len() <= out.limit() && out.limit() - out.len() >= MOST_TASKS
}

/// Brings a request to its unit, out of a slot that is empty now. It writes the slot only where the unit refused the
/// request.
fn enter(unit: &mut UnitState, arrival: Arrival, slot: &mut Slot, out: &mut JobList)
    requires places { HasPlaces out.old }
    requires empty { slot_of slot.old ≡ plain.Slot.Empty }
    ensures { EntersAs arrival unit.old out.old unit.new (slot_of slot.new) out.new }
{
    match unit.enter(arrival) {
        Entered::Run(job) => out.push(job),
        Entered::Parked => {}
        Entered::Full(job) => *slot = Slot::Direct(DirectChain::refused(job, Refusal::Full)),
        Entered::Busy(job) => *slot = Slot::Direct(DirectChain::refused(job, Refusal::Busy)),
        Entered::Stale(job) => *slot = Slot::Direct(DirectChain::refused(job, Refusal::Stale)),
    }
}

/// Brings the request that arrived to its unit, which the caller found by the slot. It enters, and its job is appended
/// to the list where nothing blocks it. Where it is refused, it stands in the slot to be answered TASK SET FULL, BUSY
/// or FAILURE. Returns true if something changed: not where no request arrived, or where the list has room for fewer
/// than 64.
pub fn phase_enter(unit: &mut UnitState, slot: &mut Slot, out: &mut JobList) -> bool
    ensures { Enters (slot_of slot.old) unit.old out.old result unit.new (slot_of slot.new) out.new }
{
    if slot.unit().is_none() || !has_places(out) {
        return false;
    }
    match mem::replace(slot, Slot::Empty) {
        Slot::Arrived(arrival) => {
            enter(unit, arrival, slot, out);
            true
        }
        Slot::Empty | Slot::Direct(_) => unreachable!(),
    }
}
