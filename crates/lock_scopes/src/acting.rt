//! The operator's acts on a unit, each in one hold of its lock. A clause is for some unit that was lent and came back.

ghost use Rattle.std.specs.Prelude.{◌≡◌, ◌<◌, length, slice_get, IfOk, OnErr, if◌then◌else◌};
ghost use Rattle.unit_model.specs.Unit.{PlainUnit, IsUnit};
ghost use Rattle.phases.specs.Resetting.{Resets};
ghost use Rattle.phases.specs.Resizing.{ResizesUnit};
ghost use Rattle.lock_scopes.specs.Acts.{acts_with, reset_of, resize_of};

use crate::acts::Acts;
use crate::counted::CountedUnit;
use crate::holding::hold;
use crate::weighing::Weighing;
use event_queue::WaitingEvents;
use logical_unit::JobList;
use phases::{ResetFault, ResizeFault};
use request_intake::Inventory;
use std::sync::ledger::Ledger;
use std::sync::{Mutex, Wait};

/// Resets the unit at an index of the inventory (`phase_hard`), in one hold of its lock, and adds that to the acts.
/// The operator calls. Returns true if something changed, or `WrongUnit` or `NoMemory` as the phase does.
pub fn hard_on<R: Wait, C: Ledger + Weighing, W: Ledger>(
    rt: &R,
    units: &[Mutex<CountedUnit<C, W>>],
    at: usize,
    inventory: &Inventory,
    acts: &mut Acts<C>,
    out: &mut JobList,
    waiting: &mut WaitingEvents,
) -> Result<bool, ResetFault>
    requires there { at < length units.now }
    ensures did { (u : PlainUnit) × (v : PlainUnit) × IsUnit u
        × Resets inventory.now at u out.old waiting.old result v out.new waiting.new × IsUnit v }
    ensures made { IfOk result (λ was. acts.new
        ≡ (if was then acts_with (reset_of (slice_get inventory.now.addresses at)) acts.old else acts.old)) }
    ensures none { OnErr result (acts.new ≡ acts.old) }
{
    let mut held = hold(rt, &units[at]);
    let unit = &mut *held;
    unit.hard(at, inventory, acts, out, waiting)
}

/// Gives the unit at an index of the inventory another capacity (`phase_resize`), in one hold of its lock, and adds that to
/// the acts. The operator calls. Answers as the phase does: `WrongUnit`, `BadCapacity` or `NoMemory`, with nothing
/// changed.
pub fn resize_on<R: Wait, C: Ledger + Weighing, W: Ledger>(
    rt: &R,
    units: &[Mutex<CountedUnit<C, W>>],
    at: usize,
    inventory: &Inventory,
    acts: &mut Acts<C>,
    blocks: u64,
    told: bool,
    waiting: &mut WaitingEvents,
) -> Result<bool, ResizeFault>
    requires there { at < length units.now }
    ensures did { (u : PlainUnit) × (v : PlainUnit) × IsUnit u
        × ResizesUnit inventory.now at u blocks told waiting.old result v waiting.new × IsUnit v }
    ensures made { IfOk result (λ was. acts.new
        ≡ (if was then acts_with (resize_of blocks told (slice_get inventory.now.addresses at)) acts.old else acts.old)) }
    ensures none { OnErr result (acts.new ≡ acts.old) }
{
    let mut held = hold(rt, &units[at]);
    let unit = &mut *held;
    unit.resize(at, inventory, acts, blocks, told, waiting)
}
