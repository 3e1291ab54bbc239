//! A device on a memory that its guest changes between two reads.

ghost use Rattle.std.specs.Prelude.{◌≡◌, length};
ghost use Rattle.guest_mem.specs.Memory.{bytes_at, with_bytes, LiesIn};

use crate::machine::Machine;
use crate::own_machine::EACH_QUEUE;
use crate::racing_bus::{Change, RacingBus, RacingMemory};
use config::Config;
use foundation::NoMemory;
use guest_driver::GuestMemory;
use guest_mem::{GuestMem, MemFault};
use live_mem::LiveMem;
use logical_unit::UnitState;
use ring_core::QueueLog;
use script_semantics::{Device, Hosted, stop_of};
use script_syntax::{HostLine, LineFault, Race, Stop};
use scsi_codec::Address;
use std::alloc::Global;
use std::cell::RefCell;
use std::rc::Rc;
use world::{Event, LiveWorld, Notify, Served};

/// A device on a memory that its guest changes between two reads of a line, as the script says.
#[derive(Drop)]
pub struct LiveMachine {
    world: LiveWorld<LiveMem<RacingBus>>,
    /// The memory of its guest, between two lines of the device.
    memory: GuestMem,
    /// The changes that the next line of the device brings.
    changes: Vec<Change>,
    /// The memory during such a line.
    guest: Rc<RefCell<RacingMemory>>,
}

impl GuestMemory for LiveMachine {
    ghost extent = { λ m. length m.memory };

    ghost finds = { λ m at bytes. LiesIn (length m.memory) at (length bytes)
        × (bytes ≡ bytes_at m.memory at (length bytes)) };

    ghost refuses = { λ m at n. ¬ LiesIn (length m.memory) at n };

    ghost takes = { λ m at bytes n. LiesIn (length m.memory) at (length bytes)
        × (n ≡ record m { memory = with_bytes m.memory at bytes }) };

    fn size(&self) -> u64 {
        self.memory.size()
    }

    fn read(&self, at: u64, into: &mut [u8]) -> Result<(), MemFault> {
        self.memory.read(at, into)
    }

    fn write(&mut self, at: u64, bytes: &[u8]) -> Result<(), MemFault> {
        self.memory.write(at, bytes)
    }
}

impl Device for LiveMachine {
    fn memory(&self) -> &GuestMem {
        &self.memory
    }

    fn unit(&self, address: Address) -> Option<&UnitState> {
        self.world.unit(address.target, address.lun)
    }

    fn status(&self) -> u8 {
        self.world.status()
    }

    fn notices(&self, queue: u16) -> Option<u64> {
        self.world.notices(queue)
    }

    fn hosted(&self, _address: Address) -> Option<Hosted<'_>> {
        None
    }
}

impl Machine for LiveMachine {
    fn open(
        alloc: Global,
        config: &Config,
        _caches: &[Option<usize>],
    ) -> Result<LiveMachine, Stop> {
        if !config.is_valid() {
            return Err(Stop::Fault(LineFault::BadConfig));
        }
        let (Ok(memory), Ok(none)) = (GuestMem::new(alloc, config.pages), GuestMem::new(alloc, 0))
        else {
            return Err(Stop::NoMemory);
        };
        let guest = Rc::new(
            alloc,
            RefCell::new(RacingMemory::new(none, Vec::new(alloc))),
        )?;
        let bus = RacingBus {
            guest: guest.clone()?,
        };
        let live = LiveMem::new(alloc, bus, memory.size())?;
        match LiveWorld::new(alloc, config, live) {
            Ok(world) => Ok(LiveMachine {
                world,
                memory,
                changes: Vec::new(alloc),
                guest,
            }),
            Err(fault) => Err(stop_of(fault)),
        }
    }

    fn race(&mut self, alloc: Global, race: &Race) -> Result<(), Stop> {
        let mut bytes = Vec::new(alloc);
        for item in race.bytes.items() {
            item.append_copies(item.repeat, &mut bytes)?;
        }
        self.changes.push(Change {
            addr: race.addr,
            bytes,
            before: race.before,
        })?;
        Ok(())
    }

    fn begin(&mut self) {
        if let Ok(mut guest) = self.guest.try_borrow_mut() {
            guest.begin(&mut self.memory, &mut self.changes);
        }
    }

    fn end(&mut self) {
        if let Ok(mut guest) = self.guest.try_borrow_mut() {
            guest.end(&mut self.memory);
        }
    }

    fn note_wanted(&mut self) -> Result<(), NoMemory> {
        Ok(())
    }

    fn host(&mut self, _unit_index: u16, _line: HostLine) -> Result<(), NoMemory> {
        Ok(())
    }

    fn step(&mut self, event: Event) -> Result<bool, NoMemory> {
        self.world.step(event)
    }

    fn serve(&mut self, most: u64) -> Result<Served, NoMemory> {
        self.world.serve(EACH_QUEUE, most)
    }

    fn settle(&mut self) -> Result<u64, NoMemory> {
        self.world.settle()
    }

    fn serve_and_ask(&mut self, most: u64) -> Result<Served, NoMemory> {
        self.world.serve_and_ask(EACH_QUEUE, most)
    }

    fn ask(&mut self, queue: u16, notify: Notify) -> bool {
        self.world.ask(queue, notify)
    }

    fn log(&self, queue: u16) -> Option<&QueueLog> {
        self.world.log(queue)
    }

    fn waiting(&self) -> usize {
        self.world.waiting()
    }

    fn is_broken(&self, queue: u16) -> bool {
        self.world.broken(queue).is_some()
    }
}
