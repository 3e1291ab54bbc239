//! The calls of a device on live memory, each with its answer.

ghost use Rattle.std.specs.Prelude.{◌≡◌, length};
ghost use Rattle.std.specs.Option.{option_map};
ghost use Rattle.device_steps.specs.Views.{unit_of};
ghost use Rattle.c_calls.specs.LiveAsked.{ServesAskedPortion};
ghost use Rattle.c_calls.specs.Live.{Maps, AsksDriver, notify_of, ServesPortion, Owes, IsStatus, Breaks, number_or_unmapped, Resets, Resizes, Holds, Gives, TellsCounts, TellsChanges};

use crate::answer::Answer;
use crate::changes::put_ranges;
use crate::counts::UnitCounts;
use crate::ranges::{BlockRange, Told};
use crate::region::Region;
use crate::rings::Rings;
use crate::served::number_of_fault;
use device_model::Event;
use host_bus::HostBus;
use live_mem::LiveMem;
use logical_unit::is_capacity;
use std::alloc::Global;
use world::{LiveWorld, Notifications, Notify, RingFault};

/// The most ranges that a unit keeps apart.
const MOST_RANGES: usize = 64;

/// The number of a queue that isn't mapped.
const UNMAPPED: u32 = 11;

/// A device in the memory that its host mapped, what the host was told of it, and which of its queues are mapped.
#[derive(Drop)]
pub struct LiveServed {
    pub(crate) world: LiveWorld<LiveMem<HostBus>>,
    pub(crate) told: Notifications,
    pub(crate) rings: Rings,
}

/// Returns the number of what broke a queue, or of a queue that isn't mapped; 0 for neither.
fn number_of_state(fault: Option<RingFault>, mapped: bool) -> u32
    ensures { result ≡ number_or_unmapped fault mapped }
{
    match (fault, mapped) {
        (Some(fault), _) => number_of_fault(Some(fault)),
        (None, true) => 0,
        (None, false) => UNMAPPED,
    }
}

/// Returns what a driver is asked for.
fn wish(notify: bool) -> Notify
    ensures { result ≡ notify_of notify }
{
    if notify { Notify::Next } else { Notify::Never }
}

impl LiveServed {
    /// Notes which queues lie in the regions that C mapped.
    pub(crate) fn map(&mut self, regions: &[Region]) -> Answer
        ensures { Maps regions.now self.old result self.new }
    {
        self.rings.map(regions);
        Answer::Done
    }

    /// Asks the driver of a queue to notify the device of the next chain, or of none.
    pub(crate) fn ask(&mut self, queue: u16, notify: bool) -> Answer
        ensures { AsksDriver queue notify self.old result self.new }
    {
        if queue as usize >= self.world.queues() {
            return Answer::NoQueue;
        }
        if !self.rings.has(queue) {
            return Answer::Done;
        }
        let _asked = self.world.ask(queue, wish(notify));
        Answer::Done
    }

    /// Serves some queues, of those that are mapped, in at most so many steps, and says in how many, and whether more is left
    /// to do.
    pub(crate) fn serve(
        &mut self,
        queues: u32,
        most: u64,
        steps: &mut u64,
        more: &mut bool,
    ) -> Answer
        ensures { ServesPortion queues most steps.old more.old steps.new more.new self.old result self.new }
    {
        match self.world.serve(self.rings.among(queues), most) {
            Ok(served) => {
                *steps = served.steps;
                *more = served.more;
                Answer::Done
            }
            Err(_) => Answer::NoMemory,
        }
    }

    /// Serves as `serve` does, and asks the drivers of these queues for their next chains once nothing is left, until nothing
    /// came in between.
    pub(crate) fn serve_and_ask(
        &mut self,
        queues: u32,
        most: u64,
        steps: &mut u64,
        more: &mut bool,
    ) -> Answer
        ensures { ServesAskedPortion queues most steps.old more.old steps.new more.new self.old result self.new }
    {
        match self.world.serve_and_ask(self.rings.among(queues), most) {
            Ok(portion) => {
                *steps = portion.steps;
                *more = portion.more;
                Answer::Done
            }
            Err(_) => Answer::NoMemory,
        }
    }

    /// Tells which queues' drivers are owed a notification since this was last asked.
    pub(crate) fn owed(&mut self, queues: &mut u32) -> Answer
        ensures { Owes queues.new self.old result self.new }
    {
        *queues = self.told.owed_in(&self.world);
        Answer::Done
    }

    /// Tells the device's status.
    pub(crate) fn status(&mut self, status: &mut u8) -> Answer
        ensures { IsStatus status.new self.old result self.new }
    {
        *status = self.world.status();
        Answer::Done
    }

    /// Tells what broke a queue, or that it isn't mapped.
    pub(crate) fn broken(&mut self, queue: u16, fault: &mut u32) -> Answer
        ensures { Breaks queue fault.old fault.new self.old result self.new }
    {
        if queue as usize >= self.world.queues() {
            return Answer::NoQueue;
        }
        *fault = number_of_state(self.world.broken(queue), self.rings.has(queue));
        Answer::Done
    }

    /// Resets a unit for the operator.
    pub(crate) fn reset(&mut self, target: u8, lun: u16) -> Answer
        ensures { Resets target lun self.old result self.new }
    {
        let Some(unit_index) = self.world.unit_index(target, lun) else {
            return Answer::NoUnit;
        };
        match self.world.step(Event::Hard(unit_index)) {
            Ok(_) => Answer::Done,
            Err(_) => Answer::NoMemory,
        }
    }

    /// Resizes a unit for the operator.
    pub(crate) fn resize(&mut self, target: u8, lun: u16, blocks: u64) -> Answer
        ensures { Resizes target lun blocks self.old result self.new }
    {
        if !is_capacity(blocks) {
            return Answer::BadCapacity;
        }
        let Some(unit_index) = self.world.unit_index(target, lun) else {
            return Answer::NoUnit;
        };
        match self.world.step(Event::Resize(unit_index, blocks)) {
            Ok(_) => Answer::Done,
            Err(_) => Answer::NoMemory,
        }
    }

    /// Tells how much a unit did.
    pub(crate) fn counts(&mut self, target: u8, lun: u16, counts: &mut UnitCounts) -> Answer
        ensures { TellsCounts target lun counts.old counts.new self.old result self.new }
    {
        match self.world.unit(target, lun) {
            Some(unit) => {
                *counts = UnitCounts::of(unit.counts());
                Answer::Done
            }
            None => Answer::NoUnit,
        }
    }

    /// Tells how many blocks a unit has.
    pub(crate) fn capacity(&mut self, target: u8, lun: u16, blocks: &mut u64) -> Answer
        ensures { Holds target lun blocks.old blocks.new self.old result self.new }
    {
        match self.world.capacity(target, lun) {
            Some(capacity) => {
                *blocks = capacity;
                Answer::Done
            }
            None => Answer::NoUnit,
        }
    }

    /// Returns how many steps the history of a unit has; `None` where there is no such unit.
    fn place_of_history(&self, target: u8, lun: u16) -> Option<u64>
        ensures { result ≡ option_map (λ u. length u.steps) (unit_of self.now.world.device.units target lun) }
    {
        match self.world.unit(target, lun) {
            Some(unit) => Some(unit.steps()),
            None => None,
        }
    }

    /// Reads blocks of a unit, as its commands left them.
    pub(crate) fn blocks(
        &mut self,
        alloc: Global,
        target: u8,
        lun: u16,
        first: u64,
        count: u32,
        into: &mut [u8],
    ) -> Answer
        ensures { Gives target lun first count into.old into.new self.old result self.new }
    {
        if into.len() as u64 != count as u64 * 512 {
            return Answer::BadLength;
        }
        if self.world.capacity(target, lun).is_none() {
            return Answer::NoUnit;
        }
        let mut bytes = Vec::new(alloc);
        match self
            .world
            .read_blocks(target, lun, first, count, &mut bytes)
        {
            Ok(true) => {
                into.copy_from_slice(bytes.as_slice());
                Answer::Done
            }
            Ok(false) => Answer::Outside,
            Err(_) => Answer::NoMemory,
        }
    }

    /// Tells which blocks of a unit may have changed since a place of its history.
    pub(crate) fn changed(
        &mut self,
        target: u8,
        lun: u16,
        told: &mut Told,
        room: &mut [BlockRange],
    ) -> Answer
        ensures { TellsChanges target lun told.old room.old told.new room.new self.old result self.new }
    {
        if room.len() < MOST_RANGES {
            return Answer::BadLength;
        }
        let Some(place) = self.place_of_history(target, lun) else {
            return Answer::NoUnit;
        };
        let Some(changes) = self.world.take_changes(target, lun) else {
            return Answer::NoUnit;
        };
        put_ranges(changes.ranges(), room);
        *told = Told {
            place,
            count: changes.ranges().len() as u64,
            all: changes.since() > told.place,
        };
        Answer::Done
    }
}
