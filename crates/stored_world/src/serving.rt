//! The device serves its guest, and the storages stay as they are.

use crate::stored::StoredWorld;
use foundation::NoMemory;
use ring_core::Notify;
use world::{Event, Served, World};

impl StoredWorld {
    ghost use Rattle.std.specs.Prelude.{◌≡◌, Ok};
    ghost use Rattle.device_model.specs.Events.{Event as AnEvent, plain_event};
    ghost use Rattle.device_model.specs.Turns.{Turns};
    ghost use Rattle.device_steps.specs.Asking.{asking_at};
    ghost use Rattle.device_steps.specs.Settling.{asks};
    ghost use Rattle.world.specs.Asking.{Asks, AsksAsPromised};
    ghost use Rattle.world.specs.Promise.{StepsAsPromised, ServesAsPromised, SettlesAsPromised};
    ghost use Rattle.world.specs.ServingAsked.{AsksDrivers, ServesWhole, ServesAskedOrWants};
    ghost use Rattle.world.specs.Settling.{ServesSomeOrWants, ServesOrWants};
    ghost use Rattle.world.specs.Steps.{Steps};
    ghost use Rattle.stored_world.specs.Inner.Device.{world_of};

    /// Returns the device.
    pub fn world(&self) -> &World
        ensures { result.now ≡ world_of self.now }
    {
        &self.world
    }

    /// Takes one event, as [`World::step`] does. A Resize of a backed disk cuts its storage off, too.
    pub fn step(&mut self, event: Event) -> Result<bool, NoMemory>
        ensures steps { Steps (world_of self.old) (plain_event event) result (world_of self.new) }
        ensures promise { StepsAsPromised (world_of self.old) (plain_event event) result (world_of self.new) }
    {
        if let Event::Resize(unit_index, blocks) = event {
            return self.resize(unit_index, blocks);
        }
        self.world.step(event)
    }

    /// Serves what the guest made available on some queues, as [`World::serve`] does.
    pub fn serve(&mut self, queues: u32, most: u64) -> Result<Served, NoMemory>
        ensures serves { ServesSomeOrWants (asks queues) most (world_of self.old) result (world_of self.new) }
        ensures promise { ServesAsPromised (asks queues) (world_of self.old) result (world_of self.new) }
    {
        self.world.serve(queues, most)
    }

    /// Serves until nothing is left, as [`World::settle`] does.
    pub fn settle(&mut self) -> Result<u64, NoMemory>
        ensures serves { ServesOrWants (world_of self.old) result (world_of self.new) }
        ensures promise { SettlesAsPromised (world_of self.old) result (world_of self.new) }
    {
        self.world.settle()
    }

    /// Serves, and asks the drivers, as [`World::serve_and_ask`] does.
    pub fn serve_and_ask(&mut self, queues: u32, most: u64) -> Result<Served, NoMemory>
        ensures { ServesAskedOrWants (ServesWhole queues) (AsksDrivers queues) (world_of self.old) most result (world_of self.new) }
    {
        self.world.serve_and_ask(queues, most)
    }

    /// Asks the driver of a queue, as [`World::ask`] does.
    pub fn ask(&mut self, number: u16, notify: Notify) -> bool
        ensures asks { Asks (world_of self.old) (asking_at (world_of self.old).queues number notify) result (world_of self.new) }
        ensures promise { AsksAsPromised (world_of self.old) (asking_at (world_of self.old).queues number notify) (world_of self.new) }
    {
        self.world.ask(number, notify)
    }

    /// Writes bytes as the guest, as [`World::poke`] does.
    pub fn poke(&mut self, addr: u64, bytes: &[u8]) -> bool
        ensures turns { Turns (world_of self.old) (AnEvent.Poke (record { addr = addr; bytes = bytes.now })) result (world_of self.new) }
        ensures promise { StepsAsPromised (world_of self.old) (AnEvent.Poke (record { addr = addr; bytes = bytes.now })) (Ok result)
            (world_of self.new) }
    {
        self.world.poke(addr, bytes)
    }
}
