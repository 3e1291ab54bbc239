//! A device that has its guest's memory to itself, and disks on storages of its host.

ghost use Rattle.std.specs.Prelude.{◌≡◌, length};
ghost use Rattle.guest_mem.specs.Memory.{bytes_at, with_bytes, LiesIn};
ghost use Rattle.stored_world.specs.Inner.Device.{world_of};

use crate::machine::Machine;
use crate::own_machine::EACH_QUEUE;
use config::Config;
use foundation::NoMemory;
use guest_driver::GuestMemory;
use guest_mem::{GuestMem, MemFault};
use logical_unit::UnitState;
use ring_core::QueueLog;
use script_semantics::{Device, Hosted, stop_of};
use script_syntax::{HostLine, LineFault, Race, Stop};
use scsi_codec::Address;
use std::alloc::{AllocError, Global};
use stored_world::StoredWorld;
use world::{Event, Notify, Served};

/// A device that has its guest's memory to itself, and disks on storages of its host.
#[derive(Drop)]
pub struct StoredMachine {
    device: StoredWorld,
    /// The pages that the host has to do with, for each unit.
    tasks: Vec<HostTasks>,
}

/// The pages of a disk that a host has to do with.
#[derive(Drop)]
struct HostTasks {
    /// Those that it was asked for, the oldest first.
    wanted: Vec<u64>,
    /// Those that it is writing, the oldest first.
    given: Vec<u64>,
}

/// Takes a page out of a list. Returns true if it was there.
fn take(pages: &mut Vec<u64>, page: u64) -> bool {
    match pages.iter().position(|other| *other == page) {
        Some(index) => {
            let _page = pages.remove(index);
            true
        }
        None => false,
    }
}

/// Adds a page to a list.
fn add(pages: &mut Vec<u64>, page: u64) -> Result<(), NoMemory> {
    match pages.push(page) {
        Ok(()) => Ok(()),
        Err(_) => Err(NoMemory),
    }
}

/// Makes what a host has to do for so many units: nothing. It fails where memory runs out.
fn no_tasks(alloc: Global, units: usize) -> Result<Vec<HostTasks>, AllocError> {
    let mut tasks = Vec::new(alloc);
    for _ in 0..units {
        tasks.push(HostTasks {
            wanted: Vec::new(alloc),
            given: Vec::new(alloc),
        })?;
    }
    Ok(tasks)
}

impl GuestMemory for StoredMachine {
    ghost extent = { λ m. length (world_of m.device).memory };

    ghost finds = { λ m at bytes. LiesIn (length (world_of m.device).memory) at (length bytes)
        × (bytes ≡ bytes_at (world_of m.device).memory at (length bytes)) };

    ghost refuses = { λ m at n. ¬ LiesIn (length (world_of m.device).memory) at n };

    ghost takes = { λ m at bytes n. LiesIn (length (world_of m.device).memory) at (length bytes)
        × (world_of n.device ≡ record (world_of m.device) { memory = with_bytes (world_of m.device).memory at bytes }) };

    fn size(&self) -> u64 {
        self.device.world().memory().size()
    }

    fn read(&self, at: u64, into: &mut [u8]) -> Result<(), MemFault> {
        self.device.world().memory().read(at, into)
    }

    fn write(&mut self, at: u64, bytes: &[u8]) -> Result<(), MemFault> {
        let size = self.device.world().memory().size();
        if at > size || bytes.len() as u64 > size - at {
            return Err(MemFault::Outside);
        }
        let _written = self.device.poke(at, bytes);
        Ok(())
    }
}

impl Device for StoredMachine {
    fn memory(&self) -> &GuestMem {
        self.device.world().memory()
    }

    fn unit(&self, address: Address) -> Option<&UnitState> {
        self.device.world().unit(address.target, address.lun)
    }

    fn status(&self) -> u8 {
        self.device.world().status()
    }

    fn notices(&self, queue: u16) -> Option<u64> {
        self.device.world().notices(queue)
    }

    fn hosted(&self, address: Address) -> Option<Hosted<'_>> {
        let unit_index = self.device.world().unit_index(address.target, address.lun)?;
        let tasks = self.tasks.get(unit_index as usize)?;
        Some(Hosted {
            wanted: tasks.wanted.as_slice(),
            given: tasks.given.as_slice(),
            storage: self.device.storage(unit_index),
        })
    }
}

impl StoredMachine {
    /// Notes a page that the host was asked for, if one is left; false where none is.
    fn note_next(&mut self, unit_index: u16) -> Result<bool, NoMemory> {
        let Some(page) = self.device.next_wanted(unit_index) else {
            return Ok(false);
        };
        match self.tasks.get_mut(unit_index as usize) {
            Some(tasks) => add(&mut tasks.wanted, page)?,
            None => return Ok(false),
        }
        Ok(true)
    }

    /// Takes a page out of those that the host was asked for. Returns true if it was there.
    fn take_wanted(&mut self, unit_index: u16, page: u64) -> bool {
        match self.tasks.get_mut(unit_index as usize) {
            Some(tasks) => take(&mut tasks.wanted, page),
            None => false,
        }
    }

    /// Takes a page out of those that it is writing. Returns true if it was there.
    fn take_given(&mut self, unit_index: u16, page: u64) -> bool {
        match self.tasks.get_mut(unit_index as usize) {
            Some(tasks) => take(&mut tasks.given, page),
            None => false,
        }
    }

    /// Takes the next page that is to be written, if one is left.
    fn give(&mut self, unit_index: u16) -> Result<(), NoMemory> {
        let Some(page) = self.device.give(unit_index)? else {
            return Ok(());
        };
        match self.tasks.get_mut(unit_index as usize) {
            Some(tasks) => add(&mut tasks.given, page),
            None => Ok(()),
        }
    }

    /// Reads a page that the host was asked for, and hands it in.
    fn load(&mut self, unit_index: u16, page: u64) -> Result<(), NoMemory> {
        if self.take_wanted(unit_index, page) {
            let _loaded = self.device.load(unit_index, page)?;
        }
        Ok(())
    }

    /// Ends the write of a page, which is kept, or failed.
    fn written(&mut self, unit_index: u16, page: u64, kept: bool) -> Result<(), NoMemory> {
        if self.take_given(unit_index, page) {
            let _kept = self.device.written(unit_index, page, kept)?;
        }
        Ok(())
    }

    /// Ends the write of a page that the storage can't write.
    fn denied(&mut self, unit_index: u16, page: u64) -> Result<(), NoMemory> {
        if self.take_given(unit_index, page) {
            let _denied = self.device.denied(unit_index, page)?;
        }
        Ok(())
    }
}

impl Machine for StoredMachine {
    fn open(
        alloc: Global,
        config: &Config,
        caches: &[Option<usize>],
    ) -> Result<StoredMachine, Stop> {
        let tasks = no_tasks(alloc, caches.len())?;
        match StoredWorld::new(alloc, config, caches) {
            Ok(device) => Ok(StoredMachine { device, tasks }),
            Err(fault) => Err(stop_of(fault)),
        }
    }

    fn race(&mut self, _alloc: Global, _race: &Race) -> Result<(), Stop> {
        Err(Stop::Fault(LineFault::OutOfPlace))
    }

    fn begin(&mut self) {}

    fn end(&mut self) {}

    fn note_wanted(&mut self) -> Result<(), NoMemory> {
        for unit_index in 0..self.tasks.len() {
            let Ok(unit_index) = u16::try_from(unit_index) else {
                return Ok(());
            };
            for _ in 0..u64::MAX {
                if !self.note_next(unit_index)? {
                    break;
                }
            }
        }
        Ok(())
    }

    fn host(&mut self, unit_index: u16, line: HostLine) -> Result<(), NoMemory> {
        match line {
            HostLine::Load(_, page) => self.load(unit_index, page),
            HostLine::Refuse(_, page) => {
                if self.take_wanted(unit_index, page) {
                    let _waited = self.device.load_failed(unit_index, page);
                }
                Ok(())
            }
            HostLine::Lose(_, page) => {
                if self.take_wanted(unit_index, page) {
                    let _waited = self.device.lost(unit_index, page);
                }
                Ok(())
            }
            HostLine::Give(_) => self.give(unit_index),
            HostLine::Keep(_, page) => self.written(unit_index, page, true),
            HostLine::Fail(_, page) => self.written(unit_index, page, false),
            HostLine::Deny(_, page) => self.denied(unit_index, page),
        }
    }

    fn step(&mut self, event: Event) -> Result<bool, NoMemory> {
        Ok(self.device.step(event)?)
    }

    fn serve(&mut self, most: u64) -> Result<Served, NoMemory> {
        Ok(self.device.serve(EACH_QUEUE, most)?)
    }

    fn settle(&mut self) -> Result<u64, NoMemory> {
        Ok(self.device.settle()?)
    }

    fn serve_and_ask(&mut self, most: u64) -> Result<Served, NoMemory> {
        Ok(self.device.serve_and_ask(EACH_QUEUE, most)?)
    }

    fn ask(&mut self, queue: u16, notify: Notify) -> bool {
        self.device.ask(queue, notify)
    }

    fn log(&self, queue: u16) -> Option<&QueueLog> {
        self.device.world().log(queue)
    }

    fn waiting(&self) -> usize {
        self.device.world().waiting()
    }

    fn is_broken(&self, queue: u16) -> bool {
        self.device.world().broken(queue).is_some()
    }
}
