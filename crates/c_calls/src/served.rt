//! The device's calls, each with its answer.

ghost use Rattle.std.specs.Prelude.{◌≡◌, length};
ghost use Rattle.std.specs.Option.{option_map};
ghost use Rattle.device_steps.specs.Views.{unit_at};
ghost use Rattle.c_calls.specs.Calls.{Settles, ServesPortion, Pokes, Peeks, Owes, IsStatus, Breaks, Counts, Resets, Resizes, Holds, Gives, number_of};

use crate::answer::Answer;
use device_model::Event;
use logical_unit::is_capacity;
use std::alloc::Global;
use world::{Notifications, RingFault, World};

/// A device, and what its host was told of it.
#[derive(Drop)]
pub struct Served {
    pub(crate) world: World,
    pub(crate) told: Notifications,
}

/// Returns the number of what broke a queue; 0 for nothing.
pub(crate) fn number_of_fault(fault: Option<RingFault>) -> u32
    ensures { result ≡ number_of fault }
{
    match fault {
        None => 0,
        Some(RingFault::IndexJump) => 1,
        Some(RingFault::HeadOutOfRange) => 2,
        Some(RingFault::NextOutOfRange) => 3,
        Some(RingFault::ChainTooLong) => 4,
        Some(RingFault::BufferOutside) => 5,
        Some(RingFault::ReadableAfterWritable) => 6,
        Some(RingFault::AlreadyOutstanding) => 7,
        Some(RingFault::BadIndirect) => 8,
        Some(RingFault::RingOverrun) => 9,
        Some(RingFault::NoMemory) => 10,
    }
}

impl Served {
    /// Serves what there is, and says in how many steps.
    pub(crate) fn settle(&mut self, steps: &mut u64) -> Answer
        ensures { Settles steps.old steps.new self.old result self.new }
    {
        match self.world.settle() {
            Ok(count) => {
                *steps = count;
                Answer::Done
            }
            Err(_) => Answer::NoMemory,
        }
    }

    /// Serves some queues in at most so many steps, and says in how many, and whether more is left to do.
    pub(crate) fn serve(
        &mut self,
        queues: u32,
        most: u64,
        steps: &mut u64,
        more: &mut bool,
    ) -> Answer
        ensures { ServesPortion queues most steps.old more.old steps.new more.new self.old result self.new }
    {
        match self.world.serve(queues, most) {
            Ok(served) => {
                *steps = served.steps;
                *more = served.more;
                Answer::Done
            }
            Err(_) => Answer::NoMemory,
        }
    }

    /// Writes bytes as the guest.
    pub(crate) fn poke(&mut self, addr: u64, bytes: &[u8]) -> Answer
        ensures { Pokes (record { addr = addr; bytes = bytes.now }) self.old result self.new }
    {
        if self.world.poke(addr, bytes) {
            Answer::Done
        } else {
            Answer::Outside
        }
    }

    /// Reads guest memory.
    pub(crate) fn peek(&mut self, addr: u64, into: &mut [u8]) -> Answer
        ensures { Peeks addr into.old into.new self.old result self.new }
    {
        match self.world.memory().read(addr, into) {
            Ok(()) => Answer::Done,
            Err(_) => Answer::Outside,
        }
    }

    /// Tells which queues' drivers are owed a notification since this was last asked.
    pub(crate) fn owed(&mut self, queues: &mut u32) -> Answer
        ensures { Owes queues.new self.old result self.new }
    {
        *queues = self.told.owed(&self.world);
        Answer::Done
    }

    /// Tells the device's status.
    pub(crate) fn status(&mut self, status: &mut u8) -> Answer
        ensures { IsStatus status.new self.old result self.new }
    {
        *status = self.world.status();
        Answer::Done
    }

    /// Tells what broke a queue.
    pub(crate) fn broken(&mut self, queue: u16, fault: &mut u32) -> Answer
        ensures { Breaks queue fault.old fault.new self.old result self.new }
    {
        if queue as usize >= self.world.queues() {
            return Answer::NoQueue;
        }
        *fault = number_of_fault(self.world.broken(queue));
        Answer::Done
    }

    /// Tells how many chains a queue accepted, and how many of them were used.
    pub(crate) fn progress(&mut self, queue: u16, accepted: &mut u64, used: &mut u64) -> Answer
        ensures { Counts queue accepted.old used.old accepted.new used.new self.old result self.new }
    {
        match self.world.log(queue) {
            Some(log) => {
                *accepted = log.accepted();
                *used = log.used();
                Answer::Done
            }
            None => Answer::NoQueue,
        }
    }

    /// Resets a unit for the operator.
    pub(crate) fn reset(&mut self, target: u8, lun: u16) -> Answer
        ensures { Resets target lun self.old result self.new }
    {
        let Some(unit_index) = self.world.unit_index(target, lun) else {
            return Answer::NoUnit;
        };
        match self.world.step(Event::Hard(unit_index)) {
            Ok(_) => Answer::Done,
            Err(_) => Answer::NoMemory,
        }
    }

    /// Resizes a unit for the operator.
    pub(crate) fn resize(&mut self, target: u8, lun: u16, blocks: u64) -> Answer
        ensures { Resizes target lun blocks self.old result self.new }
    {
        if !is_capacity(blocks) {
            return Answer::BadCapacity;
        }
        let Some(unit_index) = self.world.unit_index(target, lun) else {
            return Answer::NoUnit;
        };
        match self.world.step(Event::Resize(unit_index, blocks)) {
            Ok(_) => Answer::Done,
            Err(_) => Answer::NoMemory,
        }
    }

    /// Tells how many blocks a unit has.
    pub(crate) fn capacity(&mut self, target: u8, lun: u16, blocks: &mut u64) -> Answer
        ensures { Holds target lun blocks.old blocks.new self.old result self.new }
    {
        match self.world.capacity(target, lun) {
            Some(capacity) => {
                *blocks = capacity;
                Answer::Done
            }
            None => Answer::NoUnit,
        }
    }

    /// Returns how many steps the history of a unit has; `None` where there is no such unit.
    pub(crate) fn place_of_history(&self, target: u8, lun: u16) -> Option<u64>
        ensures { result ≡ option_map (λ u. length u.steps) (unit_at self.now.world target lun) }
    {
        match self.world.unit(target, lun) {
            Some(unit) => Some(unit.steps()),
            None => None,
        }
    }

    /// Reads blocks of a unit, as its commands left them.
    pub(crate) fn blocks(
        &mut self,
        alloc: Global,
        target: u8,
        lun: u16,
        first: u64,
        count: u32,
        into: &mut [u8],
    ) -> Answer
        ensures { Gives target lun first count into.old into.new self.old result self.new }
    {
        if into.len() as u64 != count as u64 * 512 {
            return Answer::BadLength;
        }
        if self.world.capacity(target, lun).is_none() {
            return Answer::NoUnit;
        }
        let mut bytes = Vec::new(alloc);
        match self
            .world
            .read_blocks(target, lun, first, count, &mut bytes)
        {
            Ok(true) => {
                into.copy_from_slice(bytes.as_slice());
                Answer::Done
            }
            Ok(false) => Answer::Outside,
            Err(_) => Answer::NoMemory,
        }
    }
}
