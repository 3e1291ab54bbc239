//! The parts of the device.

use crate::aside::JobsAside;
use crate::bay::Bay;
use crate::handed_off::HandedOff;
use crate::seat::Seat;
use event_queue::{EventPort, WaitingEvents};
use logical_unit::UnitState;
use phases::OpenFunction;
use request_intake::Inventory;
use std::marker::Model;

/// The parts of the device but memory: queues with their slots, units, seats, the jobs that wait for their disks, the hand-off,
/// the function, the event port and the events that wait for it. A host keeps it beside its memory, and lends each step
/// that memory.
#[derive(Drop)]
pub struct Device {
    pub(crate) inventory: Inventory,
    pub(crate) bays: Vec<Bay>,
    pub(crate) units: Vec<UnitState>,
    pub(crate) seats: Vec<Seat>,
    pub(crate) workers: u16,
    pub(crate) jobs_aside: JobsAside,
    pub(crate) handed_off: HandedOff,
    pub(crate) function: Option<OpenFunction>,
    pub(crate) port: EventPort,
    pub(crate) waiting: WaitingEvents,
    // True if the driver is told of capacities that change.
    pub(crate) tells_changes: bool,
}

impl Model for Device {
    ghost use Rattle.std.specs.Prelude.{map};
    ghost use Rattle.device_steps.specs.Apart.{PlainDevice};
    ghost use Rattle.device_steps.specs.Kept.{seat_of};
    ghost use Rattle.device_steps.specs.Inner.Kept.{HasLists};

    ghost Value = { PlainDevice };

    ghost view = { λ d. record {
      inventory = d.inventory;
      queues = d.bays.items;
      units = d.units.items;
      seats = map seat_of d.seats.items;
      workers = d.workers;
      aside = d.jobs_aside.aside;
      woken = d.jobs_aside.woken;
      handed_off = d.handed_off.lists;
      limit = d.handed_off.limit;
      function = d.function;
      buffers = d.port.buffers;
      missed = d.port.missed;
      waiting = d.waiting;
      tells_changes = d.tells_changes;
    } };

    ghost invariant = { λ d. HasLists d.units.items d.seats.items d.jobs_aside.limit d.port.limit };
}
