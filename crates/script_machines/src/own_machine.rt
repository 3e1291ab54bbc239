//! A device that has its guest's memory to itself while it takes a step.

ghost use Rattle.std.specs.Prelude.{◌≡◌, length};
ghost use Rattle.guest_mem.specs.Memory.{bytes_at, with_bytes, LiesIn};

use crate::machine::Machine;
use config::Config;
use foundation::NoMemory;
use guest_driver::GuestMemory;
use guest_mem::{GuestMem, MemFault};
use logical_unit::UnitState;
use ring_core::QueueLog;
use script_semantics::{Device, Hosted, stop_of};
use script_syntax::{HostLine, LineFault, Race, Stop};
use scsi_codec::Address;
use std::alloc::Global;
use world::{Event, Notify, Served, World};

/// Each queue's bit, as `serve` takes them.
pub(crate) const EACH_QUEUE: u32 = u32::MAX;

/// A device that has its guest's memory to itself while it takes a step.
#[derive(Drop)]
pub struct OwnMachine {
    world: World,
}

impl GuestMemory for OwnMachine {
    ghost extent = { λ m. length m.world.memory };

    ghost finds = { λ m at bytes. LiesIn (length m.world.memory) at (length bytes)
        × (bytes ≡ bytes_at m.world.memory at (length bytes)) };

    ghost refuses = { λ m at n. ¬ LiesIn (length m.world.memory) at n };

    ghost takes = { λ m at bytes n. LiesIn (length m.world.memory) at (length bytes)
        × (n ≡ record m { world = record m.world { memory = with_bytes m.world.memory at bytes } }) };

    fn size(&self) -> u64 {
        self.world.memory().size()
    }

    fn read(&self, at: u64, into: &mut [u8]) -> Result<(), MemFault> {
        self.world.memory().read(at, into)
    }

    fn write(&mut self, at: u64, bytes: &[u8]) -> Result<(), MemFault> {
        if self.world.poke(at, bytes) {
            Ok(())
        } else {
            Err(MemFault::Outside)
        }
    }
}

impl Device for OwnMachine {
    fn memory(&self) -> &GuestMem {
        self.world.memory()
    }

    fn unit(&self, address: Address) -> Option<&UnitState> {
        self.world.unit(address.target, address.lun)
    }

    fn status(&self) -> u8 {
        self.world.status()
    }

    fn notices(&self, queue: u16) -> Option<u64> {
        self.world.notices(queue)
    }

    fn hosted(&self, _address: Address) -> Option<Hosted<'_>> {
        None
    }
}

impl Machine for OwnMachine {
    fn open(alloc: Global, config: &Config, _caches: &[Option<usize>]) -> Result<OwnMachine, Stop> {
        match World::new(alloc, config) {
            Ok(world) => Ok(OwnMachine { world }),
            Err(fault) => Err(stop_of(fault)),
        }
    }

    fn race(&mut self, _alloc: Global, _race: &Race) -> Result<(), Stop> {
        Err(Stop::Fault(LineFault::OutOfPlace))
    }

    fn begin(&mut self) {}

    fn end(&mut self) {}

    fn note_wanted(&mut self) -> Result<(), NoMemory> {
        Ok(())
    }

    fn host(&mut self, _unit_index: u16, _line: HostLine) -> Result<(), NoMemory> {
        Ok(())
    }

    fn step(&mut self, event: Event) -> Result<bool, NoMemory> {
        Ok(self.world.step(event)?)
    }

    fn serve(&mut self, most: u64) -> Result<Served, NoMemory> {
        Ok(self.world.serve(EACH_QUEUE, most)?)
    }

    fn settle(&mut self) -> Result<u64, NoMemory> {
        Ok(self.world.settle()?)
    }

    fn serve_and_ask(&mut self, most: u64) -> Result<Served, NoMemory> {
        Ok(self.world.serve_and_ask(EACH_QUEUE, most)?)
    }

    fn ask(&mut self, queue: u16, notify: Notify) -> bool {
        self.world.ask(queue, notify)
    }

    fn log(&self, queue: u16) -> Option<&QueueLog> {
        self.world.log(queue)
    }

    fn waiting(&self) -> usize {
        self.world.waiting()
    }

    fn is_broken(&self, queue: u16) -> bool {
        self.world.broken(queue).is_some()
    }
}
