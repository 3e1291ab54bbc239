//! The operator's step.

ghost use Rattle.std.specs.Prelude.{◌≡◌};
ghost use Rattle.device_model.specs.Event.Hard.{hard_report};
ghost use Rattle.phases.specs.Resetting.{Resets};

use crate::entering::has_places;
use crate::naming::is_addressed;
use event_queue::WaitingEvents;
use foundation::NoMemory;
use logical_unit::{JobList, UnitState};
use request_intake::Inventory;
use scsi_codec::{Address, Event, TRANSPORT_RESET};
use unit_attention::Code;

/// Says why a unit isn't reset for the operator. Nothing changed.
#[derive(Clone, Copy, Debug, PartialEq, Eq)]
pub enum ResetFault {
    /// The unit isn't the one that was named.
    WrongUnit,
    /// Memory was refused.
    NoMemory,
}

/// The number of LUNs that an event may name.
pub(crate) const LUNS: u16 = 16384;

/// Makes the event that tells of a unit's reset (VIRTIO 1.2 §5.6.6.3).
fn reset_event(unit: &UnitState) -> Event
    ensures { result ≡ hard_report unit.now }
{
    Event {
        event: TRANSPORT_RESET,
        address: Some(Address {
            target: unit.target(),
            lun: unit.lun(),
        }),
        reason: 0,
    }
}

/// Resets the unit at an index of the inventory for the operator: jobs of tasks that wait there are appended to the list,
/// and the event of the reset waits. Returns true if something changed: not where the list has room for fewer than
/// 64, or no event can name the unit's LUN. `WrongUnit` where this isn't the unit that the inventory names there,
/// `NoMemory` where the event or the step was refused memory; nothing changed then.
pub fn phase_hard(
    unit: &mut UnitState,
    inventory: &Inventory,
    unit_index: usize,
    out: &mut JobList,
    waiting: &mut WaitingEvents,
) -> Result<bool, ResetFault>
    ensures { Resets inventory.now unit_index unit.old out.old waiting.old result unit.new out.new waiting.new }
{
    if !is_addressed(inventory, unit_index, unit) {
        return Err(ResetFault::WrongUnit);
    }
    if !has_places(out) || unit.lun() >= LUNS {
        return Ok(false);
    }
    let Ok(()) = waiting.push(reset_event(unit)) else {
        return Err(ResetFault::NoMemory);
    };
    match unit.reset(Code::POWER_ON_OR_RESET, out) {
        Ok(_) => Ok(true),
        Err(NoMemory) => {
            waiting.withdraw();
            Err(ResetFault::NoMemory)
        }
    }
}
