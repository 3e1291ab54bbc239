//! The device.

ghost use Rattle.std.specs.Prelude.{◌≡◌, ◌≤◌, [], length, IfOk};
ghost use Rattle.std.specs.Vec.{vec_capacity};

use crate::served::Served;
use backed_store::Disk;
use config::{Config, StartFault};
use device_model::Event;
use device_model::laws::every_run_goes_on;
use device_model::trace_laws::the_promise_is_kept;
use device_model::waiting_laws::a_device_in_memory_defers_nothing;
use device_steps::{Cursor, Device, Progress, all_are_sound, are_disks_for, open_device, poke};
use foundation::NoMemory;
use guest_mem::{GuestMem, Memory, StillMem};
use std::alloc::Global;
use std::marker::Model;

/// The device: guest memory, its queues, its units and the seats that serve them, between two steps.
#[derive(Drop)]
pub struct World {
    pub(crate) memory: GuestMem,
    pub(crate) device: Device,
}

impl Model for World {
    ghost use Rattle.std.specs.Prelude.{false};
    ghost use Rattle.device_model.specs.World.{PlainWorld};
    ghost use Rattle.device_steps.specs.Apart.{standing};
    ghost use Rattle.device_steps.specs.Sound.{IsSteady};

    ghost Value = { PlainWorld };

    ghost view = { λ w. standing false w.memory w.device };

    ghost invariant = { λ w. IsSteady (standing false w.memory w.device) };
}

impl World {
    ghost use Rattle.std.specs.Prelude.{true, Ok, [], MatchResult};
    ghost use Rattle.device_model.specs.Events.{Event as AnEvent, plain_event};
    ghost use Rattle.device_model.specs.World as plain;
    ghost use Rattle.config.specs.Config.{is_config, StartRefusedAs};
    ghost use Rattle.device_steps.specs.Opening.{IsOpening, IsOpeningOver, OpensFor, OpensAnew, OverRefusedAs, AreDisksFor, AreDisksOf};
    ghost use Rattle.device_steps.specs.Sound.{AreFew, AreFitting, IsReached};
    ghost use Rattle.device_steps.specs.Inner.Sound.{IsSound};
    ghost use Rattle.device_model.specs.Happens.{Reached};
    ghost use Rattle.device_model.specs.Standing.{NoneIsBacked};
    ghost use Rattle.device_model.specs.Turns.{Turns};
    ghost use Rattle.world.specs.Steps.{Steps, RunsAll};
    ghost use Rattle.device_model.specs.Order.{IsQuietOf};
    ghost use Rattle.device_steps.specs.Settling.{asks};
    ghost use Rattle.world.specs.Settling.{ServesSomeOrWants, ServesOrWants};
    ghost use Rattle.world.specs.Promise.{StepsAsPromised, RunsAsPromised, ServesAsPromised, SettlesAsPromised};
    ghost use Rattle.device_steps.specs.Inner.Cursors.{Denies, NoneBefore, TurnsNext};

    /// Opens the device of a configuration, of which nothing has happened yet. The embedder calls it once for each
    /// device. `BadConfig` exactly where the configuration isn't valid; else `NoMemory` where a growth was refused. The
    /// empty trace leads from the device to itself: here every trace begins.
    pub fn new(alloc: Global, config: &Config) -> Result<World, StartFault>
        ensures opening { MatchResult result (λ w. (is_config config.now ≡ true) × IsOpening config.now w)
            (λ fault. StartRefusedAs config.now fault) }
        ensures opens { IfOk result (λ w. plain.Opens w) }
        ensures reaches { IfOk result (λ w. Reached w [] w) }
    {
        if !config.is_valid() {
            return Err(StartFault::BadConfig);
        }
        let Ok(memory) = GuestMem::new(alloc, config.pages) else {
            return Err(StartFault::NoMemory);
        };
        match open_device(alloc, config, &memory) {
            Ok(device) => Ok(World { memory, device }),
            Err(NoMemory) => Err(StartFault::NoMemory),
        }
    }

    /// Opens a device as `new` does, but over disks: each unit, in the order of the configuration, has the blocks of
    /// its disk in place of zeros. Called for disks that outlive their devices, as [`World::close`] gives them, and
    /// for those whose pages come and go; the device takes them all. `BadConfig` exactly where the configuration
    /// isn't valid, or the disks aren't as many as its units, each one that its unit may have; else `NoMemory` where a
    /// growth was refused. Then the disks are as they were.
    pub fn new_with(
        alloc: Global,
        config: &Config,
        disks: &mut Vec<Disk>,
    ) -> Result<World, StartFault>
        ensures opening { MatchResult result
            (λ w. (is_config config.now ≡ true) × AreDisksFor config.now.units.items disks.old.items
            × IsOpeningOver config.now disks.old.items w × (disks.new.items ≡ []))
            (λ fault. OverRefusedAs config.now disks.old.items fault × (disks.new.items ≡ disks.old.items)) }
        ensures opens { IfOk result (λ w. plain.Opens w) }
        ensures reaches { IfOk result (λ w. Reached w [] w) }
    {
        if !config.is_valid() || !are_disks_for(config.units.as_slice(), disks.as_slice()) {
            return Err(StartFault::BadConfig);
        }
        match World::new(alloc, config) {
            Ok(mut world) => {
                world.hand_in(disks);
                Ok(world)
            }
            Err(fault) => Err(fault),
        }
    }

    /// Gives each unit its disk, in the order of the configuration, in place of zeros. Called once, with disks of its
    /// units' capacities, on a device that [`World::new`] opened and to which nothing has happened yet.
    /// [`World::new_with`] does both. A caller that must keep the disks until nothing can be refused takes these two
    /// calls. The device takes the disks, and no memory.
    pub fn hand_in(&mut self, disks: &mut Vec<Disk>)
        requires opening { OpensFor self.old disks.old.items }
        ensures over { OpensAnew self.old disks.old.items self.new }
        ensures none { disks.new.items ≡ [] }
        ensures opens { plain.Opens self.new }
        ensures reaches { Reached self.new [] self.new }
    {
        self.device.hand_in(disks);
    }

    /// Ends the device, and returns the disks of its units, in their order, as its histories left them: blocks,
    /// capacities, and what the host's storage has. Guest memory, queues, tasks and attentions are gone. Gives the
    /// device back as it was where memory for the list of disks was refused.
    pub fn close(self, alloc: Global) -> Result<Vec<Disk>, World>
        ensures disks { MatchResult result (λ disks. AreDisksOf self.units disks.items) (λ left. left ≡ self) }
    {
        match self.device.room_for_disks(alloc) {
            Ok(empty) => Ok(self.into_disks(empty)),
            Err(_) => Err(self),
        }
    }

    /// Ends the device as [`World::close`] does, and puts the disks into an empty list that has room for them. Takes no
    /// memory.
    pub fn into_disks(self, empty: Vec<Disk>) -> Vec<Disk>
        requires empty { empty.items ≡ [] }
        requires room { length self.units ≤ vec_capacity empty }
        ensures { AreDisksOf self.units result.items }
    {
        let World { device, .. } = self;
        device.into_disks(empty)
    }

    /// Shows that some trace led here from an opening: every law over reached traces holds of it.
    pub fn some_trace_led_here(&self)
        ensures { IsReached self.now }
    {
        let _ = &self.memory;
    }

    /// Shows that where no unit's disk is one whose pages come and go, no job waits for its disk, and none is to be tried
    /// again.
    pub fn none_waits(&self)
        ensures aside { NoneIsBacked self.now → self.now.aside ≡ [] }
        ensures woken { NoneIsBacked self.now → self.now.woken ≡ [] }
    {
        a_device_in_memory_defers_nothing();
        let _ = &self.memory;
    }

    /// Shows that the ring of each queue was made for a memory of this size. Each chain that stands somewhere is its
    /// queue's own besides, as the promise says, so no test of a phase fails.
    pub fn rings_fit(&self)
        ensures { AreFitting self.now }
    {
        let _ = &self.memory;
    }

    /// Returns what each step rests on.
    pub(crate) fn is_sound(&self)
        ensures sound { IsSound self.now }
        ensures few { AreFew self.now }
    {
        all_are_sound();
        let _ = &self.memory;
    }

    /// Takes one event, by reference.
    fn step_by(&mut self, event: &Event) -> Result<bool, NoMemory>
        ensures { Steps self.old (plain_event event.now) result self.new }
    {
        self.is_sound();
        match event {
            Event::Poke(addr, bytes) => Ok(poke(&mut self.memory, *addr, bytes.as_slice())),
            Event::Fetch(queue) => self.device.fetch(&mut self.memory, *queue),
            Event::Enter(queue) => Ok(self.device.enter(*queue)),
            Event::Direct(queue) => Ok(self.device.direct(&mut self.memory, *queue)),
            Event::Put(seat) => Ok(self.device.put(*seat)),
            Event::Take(seat) => Ok(self.device.take(*seat)),
            Event::Prepare(seat) => Ok(self.device.prepare(*seat)),
            Event::Commit(seat) => Ok(self.device.commit(*seat)),
            Event::Answer(seat) => Ok(self.device.answer(&mut self.memory, *seat)),
            Event::Leave(seat) => Ok(self.device.leave(*seat)),
            Event::Mark => Ok(self.device.mark()),
            Event::Check => Ok(self.device.check()),
            Event::AnswerTmf => Ok(self.device.answer_tmf(&mut self.memory)),
            Event::Hard(unit_index) => self.device.hard(*unit_index),
            Event::Resize(unit_index, blocks) => self.device.resize(*unit_index, *blocks),
            Event::Raise => Ok(self.device.raise(&mut self.memory)),
            Event::Wake => Ok(self.device.wake()),
            Event::Resume(seat) => Ok(self.device.resume(*seat)),
        }
    }

    /// Takes one event. Returns true if it changed something; one that doesn't apply changes nothing. Only a Fetch, a
    /// Hard and a Resize can answer `NoMemory`, and have changed nothing then. Behind every trace that led here from an
    /// opening, the promise is kept.
    pub fn step(&mut self, event: Event) -> Result<bool, NoMemory>
        ensures steps { Steps self.old (plain_event event) result self.new }
        ensures promise { StepsAsPromised self.old (plain_event event) result self.new }
    {
        every_run_goes_on();
        the_promise_is_kept();
        self.step_by(&event)
    }

    /// Takes one event after another. Answers how many changed something. After `NoMemory` those before the refused one
    /// ran, and it changed nothing.
    ///
    /// Behind every trace that led here from an opening, a trace of these events leads to where the device is then, and
    /// the promise is kept by both together: each unit's blocks, and each status, sense byte and data byte answered for
    /// it, are those of one sequential disk running the commands of its history whole, one at a time, in an order
    /// lawful for their task attributes; a command answered as aborted changed nothing, and each accepted chain is used
    /// at most once (`IsPromised` in `device_model/specs/Promise.antt`).
    pub fn run(&mut self, events: &[Event]) -> Result<u64, NoMemory>
        ensures runs { RunsAll self.old events.now result self.new }
        ensures promise { RunsAsPromised self.old events.now result self.new }
    {
        every_run_goes_on();
        the_promise_is_kept();
        let mut count = 0;
        for index in 0..events.len() {
            if self.step_by(&events[index])? {
                count += 1;
            }
        }
        Ok(count)
    }

    /// Serves what the guest made available on some queues. Takes the first event that applies, in the order of
    /// `order_by` in `device_model/specs/Order.antt`, one after another, until none does or `most` steps were taken.
    /// It takes new chains of those queues alone whose bit is set in `queues`, that of queue 0 the lowest. It goes on
    /// with whatever was begun before, of each queue.
    ///
    /// `more` is true exactly where an event is left that would change something: then it took `most` steps. If it is
    /// false, every chain that was accepted was used, but for
    ///
    /// - event buffers that are held;
    /// - commands that wait for their unit's disk, or behind one that does;
    /// - commands that ran, and whose replies are withheld until the host's storage has what they changed;
    /// - a function that waits for a command whose reply is withheld.
    ///
    /// Nothing else waits then. None of those queues has a chain, unless a fault broke it, or it is the control queue of
    /// such a function. Chains of the other queues are left as they are.
    ///
    /// It takes at most
    ///
    /// - 7 steps for each request chain, 2 for each control chain, and 1 for each event buffer;
    /// - 1 for each event that waits, for each queue, and for each task that was answered before;
    /// - 2 for each unit that a function visits.
    ///
    /// A guest whose requests make further chains available has each of these counted too. So only `most` bounds a
    /// call, and a host that goes round its queues with a bound starves none.
    ///
    /// `NoMemory` where the first event that applies was refused memory, or is a chain of a queue that has accepted
    /// 2^64 - 1. Everything served before stands, and nothing else changed. The promise is kept as by `run`.
    #[inline(always)]
    pub fn serve(&mut self, queues: u32, most: u64) -> Result<Served, NoMemory>
        ensures serves { ServesSomeOrWants (asks queues) most self.old result self.new }
        ensures promise { ServesAsPromised (asks queues) self.old result self.new }
    {
        every_run_goes_on();
        the_promise_is_kept();
        self.some_trace_led_here();
        let mut cursor = Cursor::Start;
        let mut steps = 0;
        for _turn in 0..most {
            if steps == most {
                let more = self.has_step(queues);
                return Ok(Served { steps, more });
            }
            match self.turn(cursor, queues, most - steps) {
                Ok(Some(served)) => {
                    cursor = served.next;
                    steps += served.steps;
                }
                Ok(None) => return Ok(Served { steps, more: false }),
                Err(NoMemory) => return Err(NoMemory),
            }
        }
        let more = self.has_step(queues);
        Ok(Served { steps, more })
    }

    /// Serves what the guest made available, on each queue and until nothing is left: `serve` with all queues and no
    /// bound. Answers how many steps it took. Then every chain that was accepted was used, but for those that
    /// [`World::serve`] lists: each of them is held, or waits for a unit's backed disk. Nothing else is left that waits, and
    /// no queue has a chain, unless a fault broke it, or a function is open that waits for a command whose reply is
    /// withheld.
    ///
    /// A guest whose own requests make chains available, as a READ that writes descriptors into a ring, keeps it busy
    /// for as long as it likes. A host that must have its thread back calls `serve` with a bound.
    ///
    /// `NoMemory` where the first event that applies was refused memory, or is a chain of a queue that has accepted
    /// 2^64 - 1, or where 2^64 - 1 events were counted. Everything served before stands, and nothing else changed. The
    /// bound on its steps holds there too (`IsShort` in `device_model/specs/Settling.antt`). The promise is kept as by
    /// `run`.
    pub fn settle(&mut self) -> Result<u64, NoMemory>
        ensures serves { ServesOrWants self.old result self.new }
        ensures promise { SettlesAsPromised self.old result self.new }
    {
        self.is_sound();
        match self.serve(u32::MAX, u64::MAX) {
            Ok(served) => {
                if served.more {
                    return Err(NoMemory);
                }
                Ok(served.steps)
            }
            Err(NoMemory) => Err(NoMemory),
        }
    }

    /// Takes the first event of the order that applies, from a point on, or a request as a whole where that may be
    /// counted.
    #[inline(always)]
    fn turn(&mut self, cursor: Cursor, queues: u32, most: u64) -> Result<Option<Progress>, NoMemory>
        requires most { 1 ≤ most }
        requires before { NoneBefore cursor self.old }
        ensures { TurnsNext (asks queues) most self.old result self.new }
    {
        self.is_sound();
        all_are_sound();
        self.device
            .turn(&mut self.memory, cursor, queues, most, true)
    }

    /// Returns true if an event of the order applies, with new chains of the queues alone that are asked.
    #[inline(never)]
    fn has_step(&self, queues: u32) -> bool
        ensures { Denies (IsQuietOf (asks queues) self.now) result }
    {
        self.is_sound();
        let mut still = StillMem::of(&self.memory);
        let has = self.device.has_step(&mut still, queues);
        let _bytes = still.size();
        has
    }

    /// Writes bytes as the guest at an address. Returns false, with nothing changed, where one of them would lie
    /// outside memory. The promise is kept as by `step`.
    pub fn poke(&mut self, addr: u64, bytes: &[u8]) -> bool
        ensures turns { Turns self.old (AnEvent.Poke (record { addr = addr; bytes = bytes.now })) result self.new }
        ensures promise { StepsAsPromised self.old (AnEvent.Poke (record { addr = addr; bytes = bytes.now })) (Ok result)
            self.new }
    {
        every_run_goes_on();
        the_promise_is_kept();
        poke(&mut self.memory, addr, bytes)
    }
}
