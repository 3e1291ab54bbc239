//! The operator's resize of a unit.

ghost use Rattle.std.specs.Prelude.{◌≡◌};
ghost use Rattle.device_model.specs.Event.Resize.{change_report};
ghost use Rattle.phases.specs.Resizing.{ResizesUnit};
ghost use Rattle.phases.specs.Inner.Resizing.{resize_fault_of};

use crate::naming::is_addressed;
use crate::resetting::LUNS;
use event_queue::WaitingEvents;
use logical_unit::{ResizeFault as UnitFault, UnitState, is_capacity};
use request_intake::Inventory;
use scsi_codec::{Address, Event, PARAM_CHANGE};

/// Says why a unit isn't resized for the operator. Nothing changed.
#[derive(Clone, Copy, Debug, PartialEq, Eq)]
pub enum ResizeFault {
    /// The unit isn't the one that was named.
    WrongUnit,
    /// No unit may have so many blocks: 0, or more than 2^40.
    BadCapacity,
    /// Memory was refused.
    NoMemory,
}

impl From<UnitFault> for ResizeFault {
    ghost from_gives = { λ fault it. it ≡ resize_fault_of fault };

    fn from(fault: UnitFault) -> ResizeFault {
        match fault {
            UnitFault::BadCapacity => ResizeFault::BadCapacity,
            UnitFault::NoMemory => ResizeFault::NoMemory,
        }
    }
}

/// CAPACITY DATA HAS CHANGED as the reason of an event: the ASC, 2a, and above it the ASCQ, 09 (VIRTIO 1.2 §5.6.6.3).
const CAPACITY_CHANGED: u32 = 0x092a;

/// Returns the event that tells of a unit's new capacity (VIRTIO 1.2 §5.6.6.3).
fn change_event(unit: &UnitState) -> Event
    ensures { result ≡ change_report unit.now }
{
    Event {
        event: PARAM_CHANGE,
        address: Some(Address {
            target: unit.target(),
            lun: unit.lun(),
        }),
        reason: CAPACITY_CHANGED,
    }
}

/// Gives the unit at an index of the inventory another capacity, wherever its tasks stand; the event of that waits where
/// the driver is `told`. Returns true if something changed: not where no event can name the unit's LUN. `WrongUnit`
/// where this isn't the unit that the inventory names there, `BadCapacity` where no unit may have so many blocks,
/// `NoMemory` where the event or the step was refused memory; nothing changed then.
pub fn phase_resize(
    unit: &mut UnitState,
    inventory: &Inventory,
    unit_index: usize,
    blocks: u64,
    told: bool,
    waiting: &mut WaitingEvents,
) -> Result<bool, ResizeFault>
    ensures { ResizesUnit inventory.now unit_index unit.old blocks told waiting.old result unit.new waiting.new }
{
    if !is_addressed(inventory, unit_index, unit) {
        return Err(ResizeFault::WrongUnit);
    }
    if unit.lun() >= LUNS {
        return Ok(false);
    }
    if !is_capacity(blocks) {
        return Err(ResizeFault::BadCapacity);
    }
    if !told {
        return match unit.resize(blocks) {
            Ok(_) => Ok(true),
            Err(fault) => Err(ResizeFault::from(fault)),
        };
    }
    let Ok(()) = waiting.push(change_event(unit)) else {
        return Err(ResizeFault::NoMemory);
    };
    match unit.resize(blocks) {
        Ok(_) => Ok(true),
        Err(fault) => {
            waiting.withdraw();
            Err(ResizeFault::from(fault))
        }
    }
}
