//! The opening of a device's parts.

ghost use Rattle.std.specs.Prelude.{ℕ, ◌≡◌, ◌≤◌, length, map, IfOk, true};
ghost use Rattle.std.specs.List.{list_all};
ghost use Rattle.request_intake.specs.Inventory.{address_of};
ghost use Rattle.config.specs.Config.{is_config_for, is_queue};
ghost use Rattle.ring_core.specs.State.{features_of};
ghost use Rattle.virtqueue.specs.Queue.{opening_queue};
ghost use Rattle.event_queue.specs.Port.{opening_port};
ghost use Rattle.device_opening.specs.Opening.{AreFresh, opening_unit};
ghost use Rattle.device_opening.specs.Inner.Opening.{AreKept, IsOpenedFor};

use config::{Config, MOST_DESCRIPTORS, form};
use event_queue::EventPort;
use foundation::NoMemory;
use guest_mem::Memory;
use logical_unit::UnitState;
use request_intake::{Inventory, UnitSpec};
use ring_core::{Form, Layout};
use std::alloc::Global;
use virtqueue::Queue;

/// The parts of a device of which nothing has happened yet, its queues as a host keeps them.
#[derive(Drop)]
pub struct Opened<B: Drop> {
    pub inventory: Inventory,
    pub queues: Vec<B>,
    pub units: Vec<UnitState>,
}

/// Opens the queues of these layouts, for a driver that agreed to these features, and keeps each as its host does.
fn open_queues<M: Memory, B: Drop, F: Fn(Queue) -> B>(
    alloc: Global,
    form: Form,
    features: u64,
    layouts: &[Layout],
    memory: &M,
    keep: F,
) -> Result<Vec<B>, NoMemory>
    requires few { length layouts.now ≤ 18 }
    requires placed { list_all (is_queue form (M.extent memory.now)) layouts.now ≡ true }
    requires kept { (k : ℕ) (l : _) → F.pre keep (opening_queue form (M.extent memory.now) k l (features_of features)) }
    ensures { IfOk result (λ queues.
        AreKept (F.post keep) form (M.extent memory.now) (features_of features) layouts.now queues.items) }
{
    let Ok(mut queues) = Vec::with_capacity(alloc, layouts.len()) else {
        return Err(NoMemory);
    };
    for number in 0..layouts.len() {
        let queue = Queue::new(
            alloc,
            form,
            number as u16,
            layouts[number],
            features,
            memory,
        )?;
        queues.push_reserved(keep(queue));
    }
    Ok(queues)
}

/// Makes a unit of an inventory, of which no step was taken. `NoMemory` where the list of its target's LUNs was
/// refused memory.
fn open_unit(
    alloc: Global,
    spec: &UnitSpec,
    inventory: &Inventory,
    keeps_replies: bool,
) -> Result<UnitState, NoMemory>
    ensures { IfOk result (λ unit. unit ≡ opening_unit inventory.now.addresses keeps_replies spec.now) }
{
    let luns = inventory.luns_of(alloc, spec.target)?;
    UnitState::new(alloc, spec, luns.as_slice(), keeps_replies)
}

/// Makes the units that are wanted, of which no step was taken.
fn open_units(
    alloc: Global,
    wanted: &[UnitSpec],
    inventory: &Inventory,
    keeps_replies: bool,
) -> Result<Vec<UnitState>, NoMemory>
    requires { inventory.now.addresses ≡ map address_of wanted.now }
    ensures { IfOk result (λ units. AreFresh keeps_replies wanted.now units.items) }
{
    let mut units = Vec::new(alloc);
    for number in 0..wanted.len() {
        let unit = open_unit(alloc, &wanted[number], inventory, keeps_replies)?;
        if units.push(unit).is_err() {
            return Err(NoMemory);
        }
    }
    Ok(units)
}

/// Opens the queues of a configuration that is valid on this memory, then its units. Called once for each device, where a
/// host makes it. `keep` makes of each queue what the host has of it. `keeps_replies` says whether units keep the replies
/// of their Commits, for receipts to be compared with. `NoMemory` where a growth was refused.
pub fn open_parts<M: Memory, B: Drop, F: Fn(Queue) -> B>(
    alloc: Global,
    config: &Config,
    memory: &M,
    keeps_replies: bool,
    keep: F,
) -> Result<Opened<B>, NoMemory>
    requires taken { is_config_for (M.extent memory.now) config.now ≡ true }
    requires kept { (form : _) (k : ℕ) (l : _)
        → F.pre keep (opening_queue form (M.extent memory.now) k l (features_of config.now.features)) }
    ensures { IfOk result (λ o. IsOpenedFor (F.post keep) (M.extent memory.now) config.now keeps_replies
        o.inventory o.queues.items o.units.items) }
{
    let Some(form) = form(config.features) else {
        unreachable!()
    };
    let queues = open_queues(
        alloc,
        form,
        config.features,
        config.queues.as_slice(),
        memory,
        keep,
    )?;
    let inventory = Inventory::new(config.units.as_slice());
    let units = open_units(alloc, config.units.as_slice(), &inventory, keeps_replies)?;
    Ok(Opened {
        inventory,
        queues,
        units,
    })
}

/// Makes the port of a device's event queue, which holds no buffer. Called once for each device. `NoMemory` where a growth
/// was refused.
pub fn open_port(alloc: Global) -> Result<EventPort, NoMemory>
    ensures { IfOk result (λ port. port ≡ opening_port 1025) }
{
    // Room for one more than a queue may have chains outstanding, so that a full port keeps no fault from being found.
    match EventPort::new(alloc, MOST_DESCRIPTORS as usize + 1) {
        Ok(port) => Ok(port),
        Err(_) => Err(NoMemory),
    }
}
