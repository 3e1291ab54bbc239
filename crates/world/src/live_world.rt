//! The device on a memory that its guest writes at any time.

ghost use Rattle.std.specs.Prelude.{◌≡◌, ◌≤◌, [], length, true, IfOk, MatchResult};
ghost use Rattle.std.specs.Vec.{vec_capacity};
ghost use Rattle.config.specs.Config.{is_config_for};
ghost use Rattle.device_model.specs.Events.{plain_event};
ghost use Rattle.device_steps.specs.Opening.{AreDisksFor, AreDisksOf};

mod asking;

use backed_store::Disk;
use config::{Config, StartFault};
use device_model::Event;
use device_model::laws::every_run_goes_on;
use device_model::live_laws::{a_live_run_is_a_run, any_bytes_may_stand_there};
use device_model::trace_laws::the_promise_is_kept;
use device_steps::{Device, all_are_sound, are_disks_for, open_device};
use foundation::NoMemory;
use guest_mem::WritableMemory;
use std::alloc::Global;
use std::marker::Model;

/// A device on a memory that its guest may write at any time: its queues, its units and the seats that serve them, between
/// two calls. Of its memory nothing is known then but its size.
#[derive(Drop)]
pub struct LiveWorld<M: WritableMemory> {
    pub(crate) memory: M,
    pub(crate) device: Device,
}

impl<M: WritableMemory> Model for LiveWorld<M> {
    ghost use Rattle.world.specs.LiveWorld.{PlainLive, IsSteadyIn};

    ghost Value = { PlainLive M };

    ghost view = { λ w. record { memory = w.memory; device = w.device } };

    ghost invariant = { λ w. IsSteadyIn M.shared (M.extent w.memory) w.device };
}

impl<M: WritableMemory + Drop> LiveWorld<M> {
    ghost use Rattle.device_steps.specs.Opening.{IsOpeningApart};
    ghost use Rattle.world.specs.LiveWorld.{IsOpeningOverApart, OpensIn, BeginsIn, InRefusedAs, OverRefusedIn};

    /// Opens the device of a configuration on a memory of the embedder's, whatever stands there. The memory has any number
    /// of bytes, up to 2^52, in which the queues lie; the configuration's `pages` isn't looked at. Nothing has happened to
    /// the device yet. `BadConfig` exactly where the device doesn't take the configuration on a memory of this size
    /// ([`Config::fault_for`] says why); else `NoMemory` where a growth was refused. Whatever stands in memory, the empty
    /// trace leads from the device to itself: here every trace begins.
    pub fn new(alloc: Global, config: &Config, memory: M) -> Result<LiveWorld<M>, StartFault>
        ensures opening { MatchResult result
            (λ w. (is_config_for (M.extent memory) config.now ≡ true) × (w.memory ≡ memory)
            × IsOpeningApart (M.extent memory) config.now w.device)
            (λ fault. InRefusedAs (M.extent memory) config.now fault) }
        ensures opens { IfOk result (λ w. OpensIn M.shared (M.extent w.memory) w.device) }
        ensures reaches { IfOk result (λ w. BeginsIn M.shared (M.extent w.memory) w.device) }
    {
        if !config.is_valid_for(memory.size()) {
            return Err(StartFault::BadConfig);
        }
        match open_device(alloc, config, &memory) {
            Ok(device) => Ok(LiveWorld { memory, device }),
            Err(NoMemory) => Err(StartFault::NoMemory),
        }
    }

    /// Opens a device as `new` does, but over disks: each unit, in the order of the configuration, has the blocks of
    /// its disk in place of zeros. Called for disks that outlive their devices, as [`LiveWorld::close`] gives them,
    /// and for those whose pages come and go; the device takes them all. `BadConfig` exactly where the device doesn't
    /// take the configuration on a memory of this size, or the disks aren't as many as its units, each one that its unit
    /// may have; else `NoMemory` where a growth was refused. Then the disks are as they were.
    pub fn new_with(
        alloc: Global,
        config: &Config,
        memory: M,
        disks: &mut Vec<Disk>,
    ) -> Result<LiveWorld<M>, StartFault>
        ensures opening { MatchResult result
            (λ w. (is_config_for (M.extent memory) config.now ≡ true) × AreDisksFor config.now.units.items disks.old.items
            × (w.memory ≡ memory) × IsOpeningOverApart (M.extent memory) config.now disks.old.items w.device
            × (disks.new.items ≡ []))
            (λ fault. OverRefusedIn (M.extent memory) config.now disks.old.items fault
            × (disks.new.items ≡ disks.old.items)) }
        ensures opens { IfOk result (λ w. OpensIn M.shared (M.extent w.memory) w.device) }
        ensures reaches { IfOk result (λ w. BeginsIn M.shared (M.extent w.memory) w.device) }
    {
        if !are_disks_for(config.units.as_slice(), disks.as_slice()) {
            return Err(StartFault::BadConfig);
        }
        match LiveWorld::new(alloc, config, memory) {
            Ok(mut world) => {
                world.hand_in(disks);
                Ok(world)
            }
            Err(fault) => Err(fault),
        }
    }
}

impl<M: WritableMemory> LiveWorld<M> {
    ghost use Rattle.world.specs.LiveWorld.{OpensIn, BeginsIn, OpensForIn, OpensAnewIn, StepsLive, StepsAll, StepsPromised, RunsPromised};
    ghost use Rattle.world.specs.LiveWorld.{StepStores, RunStores};
    ghost use Rattle.device_steps.specs.Apart.{Stored};
    ghost use Rattle.world.specs.Inner.LiveWorld.{StepRan};

    /// Returns the memory.
    pub fn memory(&self) -> &M
        ensures { result.now ≡ self.now.memory }
    {
        &self.memory
    }

    /// Gives each unit its disk, in the order of the configuration, in place of zeros. Called once, with disks of its
    /// units' capacities, on a device that [`LiveWorld::new`] opened and to which nothing has happened yet.
    /// [`LiveWorld::new_with`] does both. A caller that must keep the disks until nothing can be refused takes these two
    /// calls. The device takes the disks, and no memory.
    pub fn hand_in(&mut self, disks: &mut Vec<Disk>)
        requires opening { OpensForIn (M.extent self.old.memory) self.old.device disks.old.items }
        ensures memory { self.new.memory ≡ self.old.memory }
        ensures over { OpensAnewIn (M.extent self.old.memory) self.old.device disks.old.items self.new.device }
        ensures none { disks.new.items ≡ [] }
        ensures opens { OpensIn M.shared (M.extent self.new.memory) self.new.device }
        ensures reaches { BeginsIn M.shared (M.extent self.new.memory) self.new.device }
    {
        self.device.hand_in(disks);
    }

    /// Ends the device. Returns its memory, and the disks of its units, in their order, as its histories left them:
    /// blocks, capacities, and what the host's storage has. Queues, tasks and attentions are gone. Gives the device
    /// back as it was where memory for the list of disks was refused.
    pub fn close(self, alloc: Global) -> Result<(M, Vec<Disk>), LiveWorld<M>>
        ensures disks { MatchResult result
            (λ ended. (ended.0 ≡ self.memory) × AreDisksOf self.device.units ended.1.items) (λ left. left ≡ self) }
    {
        match self.device.room_for_disks(alloc) {
            Ok(empty) => Ok(self.into_disks(empty)),
            Err(_) => Err(self),
        }
    }

    /// Ends the device as [`LiveWorld::close`] does, and puts the disks into an empty list that has room for them. Takes
    /// no memory.
    pub fn into_disks(self, empty: Vec<Disk>) -> (M, Vec<Disk>)
        requires empty { empty.items ≡ [] }
        requires room { length self.device.units ≤ vec_capacity empty }
        ensures memory { result.0 ≡ self.memory }
        ensures disks { AreDisksOf self.device.units result.1.items }
    {
        let LiveWorld { memory, device } = self;
        (memory, device.into_disks(empty))
    }

    /// Takes one event, by reference, in a phase of its own.
    fn step_by(&mut self, event: &Event) -> Result<bool, NoMemory>
        ensures size { M.extent self.new.memory ≡ M.extent self.old.memory }
        ensures steps { StepsLive M.shared M.begins M.may_be (Stored M.stored M.storing) self.old (plain_event event.now) result
            self.new }
        ensures ran { StepRan (Stored M.stored M.storing) M.shared (M.extent self.old.memory) self.old
            (plain_event event.now) result self.new }
    {
        all_are_sound();
        any_bytes_may_stand_there();
        self.memory.begin();
        let _begun = self.memory.size();
        let stepped = self.device.step_in(&mut self.memory, event);
        let _bytes = self.memory.size();
        stepped
    }

    /// Takes one event, in a phase of its own. Returns true if it changed something; one that doesn't apply changes
    /// nothing. Only a Fetch, a Hard and a Resize can answer `NoMemory`, and have changed nothing then.
    ///
    /// The event does what it does by bytes that may have been found in memory since the phase began, whatever is seen
    /// there afterwards. By what is seen a notice was decided. A chain is fetched by one reading: by all that memory
    /// may be once it was read. Behind every trace that led here from an opening, with whatever bytes in memory, the
    /// promise is kept, whatever bytes are there afterwards. What was stored are the writes of the event's action, in
    /// their order, and nothing else.
    pub fn step(&mut self, event: Event) -> Result<bool, NoMemory>
        ensures size { M.extent self.new.memory ≡ M.extent self.old.memory }
        ensures steps { StepsLive M.shared M.begins M.may_be (Stored M.stored M.storing) self.old (plain_event event) result
            self.new }
        ensures promise { StepsPromised M.shared (M.extent self.old.memory) self.old.device (plain_event event) result
            self.new.device }
        ensures stores { StepStores (Stored M.stored M.storing self.old.memory self.new.memory) M.shared
            (M.extent self.old.memory) self.old.device (plain_event event) result self.new.device }
    {
        a_live_run_is_a_run();
        every_run_goes_on();
        the_promise_is_kept();
        self.step_by(&event)
    }

    /// Takes one event after another, each in a phase of its own. Answers how many changed something. After `NoMemory`
    /// those before the refused one ran, and it changed nothing.
    ///
    /// Behind every trace that led here from an opening, with whatever bytes in memory, a trace of these events, with
    /// writes of the guest before the first and behind each, leads to where the device is then, whatever bytes are there
    /// afterwards. The promise is kept by both together (`IsPromised` in `device_model/specs/Promise.antt`). What was stored
    /// are the writes of that trace's actions, in their order, and nothing else.
    pub fn run(&mut self, events: &[Event]) -> Result<u64, NoMemory>
        ensures size { M.extent self.new.memory ≡ M.extent self.old.memory }
        ensures runs { StepsAll (StepsLive M.shared M.begins M.may_be (Stored M.stored M.storing)) self.old events.now result
            self.new }
        ensures promise { RunsPromised M.shared (M.extent self.old.memory) self.old.device events.now result
            self.new.device }
        ensures stores { RunStores (Stored M.stored M.storing self.old.memory self.new.memory) M.shared
            (M.extent self.old.memory) self.old.device events.now result self.new.device }
    {
        a_live_run_is_a_run();
        every_run_goes_on();
        the_promise_is_kept();
        let mut count = 0;
        for index in 0..events.len() {
            if self.step_by(&events[index])? {
                count += 1;
            }
        }
        Ok(count)
    }
}
