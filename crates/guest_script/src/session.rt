//! Plays a script on a device of one thread.

use crate::allowance::Allowance;
use crate::steps::{event_of, order};
use crate::trace::{Trace, print_ask};
use foundation::NoMemory;
use guest_driver::Driver;
use script_machines::{LiveMachine, Machine, OwnMachine, StoredMachine};
use script_semantics::{
    Known, Script, Wanted, command_of, line_number, print, read_whole, run_guest_line,
};
use script_syntax::{Command, HostLine, LineFault, ScriptFault, Step, Stop};
use scsi_codec::Address;
use std::alloc::{AllocError, Global};
use std::io::{Read, Write};
use world::{Event, Notify, Served};

/// The options with which a script is played.
#[derive(Clone, Copy)]
pub struct Options {
    /// The most steps that the device may take in all; `None` for any number.
    pub steps: Option<u64>,
    /// True if a line is printed for each step of the device.
    pub trace: bool,
}

/// Plays a script: reads it whole, then runs its lines one after the other, and writes what its printing lines ask for.
/// A program calls it once for a script, and flushes the writer afterwards.
///
/// A line at fault ends the script; what was printed before it stands. A reader that fails is a fault of line 0, with
/// nothing printed. A writer that fails ends the script at once, and isn't called again. Where memory runs out the
/// script ends with `NoMemory`. Where the device would take more steps than the options allow, the line of the step
/// that is one too many is at fault: `TooManySteps`. So the play of a guest that feeds itself ends.
pub fn play<S: Read, W: Write>(
    alloc: Global,
    script: &mut S,
    out: &mut W,
    options: Options,
) -> Result<(), ScriptFault> {
    let bytes = read_whole(alloc, script)?;
    let (script, wanted) = Script::read(alloc, bytes.as_slice())?;
    if wanted.known.is_live {
        play_on::<LiveMachine, W>(alloc, &script, wanted, out, options)
    } else if wanted.known.caches.iter().any(|cache| cache.is_some()) {
        play_on::<StoredMachine, W>(alloc, &script, wanted, out, options)
    } else {
        play_on::<OwnMachine, W>(alloc, &script, wanted, out, options)
    }
}

/// Plays a script that was read on a device of a kind.
fn play_on<M: Machine, W: Write>(
    alloc: Global,
    script: &Script<'_>,
    wanted: Wanted,
    out: &mut W,
    options: Options,
) -> Result<(), ScriptFault> {
    let mut session = match Session::<M>::open(alloc, wanted, options) {
        Ok(session) => session,
        Err(stop) => return Err(script.refused(stop)),
    };
    for (index, line) in script.lines.iter().enumerate().skip(script.header) {
        if let Err(stop) = session.run_line(line, out) {
            return Err(stop.at(line_number(index)));
        }
    }
    Ok(())
}

/// A script that runs: the device, and the guest's driver.
#[derive(Drop)]
struct Session<M: Machine> {
    alloc: Global,
    machine: M,
    driver: Driver,
    known: Known,
    allowance: Allowance,
    /// True if the device asks its drivers for notifications whenever it has settled.
    asks: bool,
    tracing: Option<Tracing>,
}

/// The state of a session that prints each step.
#[derive(Drop)]
struct Tracing {
    /// The steps of the device, in the order in which it takes them.
    order: Vec<Step>,
    trace: Trace,
}

impl Tracing {
    /// Begins with a device of so many units, queues and seats. It fails where memory runs out.
    fn new(alloc: Global, units: usize, queues: u16, seats: u16) -> Result<Tracing, AllocError> {
        Ok(Tracing {
            order: order(alloc, queues, seats)?,
            trace: Trace::new(alloc, units, seats)?,
        })
    }
}

impl<M: Machine> Session<M> {
    /// Opens the device that a header asks for, and the driver beside it. `BadConfig` where the device refuses.
    fn open(alloc: Global, wanted: Wanted, options: Options) -> Result<Session<M>, Stop> {
        let Wanted {
            config,
            known,
            rings,
            features,
            asks,
        } = wanted;
        let mut machine = M::open(alloc, &config, known.caches.as_slice())?;
        let driver = Driver::new(alloc, features, known.queues, rings)?;
        if !rings.are_fresh() {
            driver.begin(&mut machine)?;
        }
        let tracing = if options.trace {
            let seats = config.workers.saturating_add(1);
            Some(Tracing::new(alloc, known.units.len(), known.queues, seats)?)
        } else {
            None
        };
        Ok(Session {
            alloc,
            machine,
            driver,
            known,
            allowance: Allowance {
                left: options.steps,
            },
            asks,
            tracing,
        })
    }

    /// Runs a line, and then finds what was used.
    fn run_line<W: Write>(&mut self, line: &[u8], out: &mut W) -> Result<(), Stop> {
        if let Some(command) = command_of(self.alloc, line)? {
            self.known.check(&command)?;
            self.run_command(command, out)?;
        }
        self.driver.look(&self.machine)?;
        Ok(())
    }

    /// Runs a line that was read.
    fn run_command<W: Write>(&mut self, command: Command<'_>, out: &mut W) -> Result<(), Stop> {
        match command {
            Command::Guest(line) => {
                run_guest_line(self.alloc, &mut self.driver, &mut self.machine, &line)
            }
            Command::Race(race) => self.machine.race(self.alloc, &race),
            Command::Print(line) => print(self.alloc, out, &self.machine, &self.driver, line),
            command => {
                self.machine.begin();
                let done = self.run_device(&command, out);
                self.machine.end();
                done?;
                Ok(self.machine.note_wanted()?)
            }
        }
    }

    /// Runs a line of the device or of its operator.
    fn run_device<W: Write>(&mut self, command: &Command<'_>, out: &mut W) -> Result<(), Stop> {
        match command {
            Command::Hard(unit) => self.hard(*unit, out),
            Command::Resize(unit, blocks) => self.resize(*unit, *blocks, out),
            Command::Ask(queue, notify) => self.ask(*queue, *notify, out),
            Command::Host(line) => self.host(*line),
            Command::Settle if self.tracing.is_some() => self.settle_by_steps(out),
            Command::Settle => self.settle(),
            Command::Step(step) => {
                let _applies = self.step(*step, out)?;
                Ok(())
            }
            Command::Guest(_)
            | Command::Race(_)
            | Command::Print(_)
            | Command::Wait(_)
            | Command::Close
            | Command::Abandon => Err(Stop::Fault(LineFault::OutOfPlace)),
        }
    }

    /// Runs the device until nothing is left to do. `TooManySteps` where it may not take as many steps.
    fn settle(&mut self) -> Result<(), Stop> {
        let Some(left) = self.allowance.left else {
            return Ok(self.settle_freely()?);
        };
        let served = self.serve(left)?;
        if served.more {
            return Err(Stop::Fault(LineFault::TooManySteps));
        }
        Ok(self.allowance.spend(served.steps)?)
    }

    /// Serves all queues, in so many steps at most, and asks their drivers where the device does that.
    fn serve(&mut self, most: u64) -> Result<Served, NoMemory> {
        if self.asks {
            self.machine.serve_and_ask(most)
        } else {
            self.machine.serve(most)
        }
    }

    /// Does the same in any number of steps.
    fn settle_freely(&mut self) -> Result<(), NoMemory> {
        if !self.asks {
            let _steps = self.machine.settle()?;
            return Ok(());
        }
        let served = self.machine.serve_and_ask(u64::MAX)?;
        if served.more {
            return Err(NoMemory);
        }
        Ok(())
    }

    /// Does the same, and prints a line for each step, and for each driver that is asked.
    fn settle_by_steps<W: Write>(&mut self, out: &mut W) -> Result<(), Stop> {
        let mut is_over = !self.asks;
        for _ in 0..u64::MAX {
            if self.next_step(out)? {
                is_over = !self.asks;
                continue;
            }
            if is_over {
                return Ok(());
            }
            self.ask_each(out)?;
            is_over = true;
        }
        Err(Stop::NoMemory)
    }

    /// Asks each driver for a notification of its next chain.
    fn ask_each<W: Write>(&mut self, out: &mut W) -> Result<(), Stop> {
        for queue in 0..self.known.queues {
            self.ask(queue, Notify::Next, out)?;
        }
        Ok(())
    }

    /// Takes the first step that applies; false where none does.
    fn next_step<W: Write>(&mut self, out: &mut W) -> Result<bool, Stop> {
        let count = match &self.tracing {
            Some(tracing) => tracing.order.len(),
            None => 0,
        };
        for index in 0..count {
            let step = match &self.tracing {
                Some(tracing) => tracing.order.get(index).copied(),
                None => None,
            };
            let Some(step) = step else {
                return Ok(false);
            };
            if self.step(step, out)? {
                return Ok(true);
            }
        }
        Ok(false)
    }

    /// Takes a step, where it applies; false where it doesn't. `TooManySteps` where it is one too many.
    fn step<W: Write>(&mut self, step: Step, out: &mut W) -> Result<bool, Stop> {
        if !self.machine.step(event_of(step))? {
            return Ok(false);
        }
        self.allowance.spend(1)?;
        self.print_step(&event_of(step), out)?;
        Ok(true)
    }

    /// Prints the line of an event that just changed something, where each has one.
    fn print_step<W: Write>(&mut self, event: &Event, out: &mut W) -> Result<(), Stop> {
        match &mut self.tracing {
            Some(tracing) => {
                tracing
                    .trace
                    .print(out, &self.machine, &self.driver, &self.known, event)
            }
            None => Ok(()),
        }
    }

    /// Resets a unit for the operator; where it isn't there nothing happens.
    fn hard<W: Write>(&mut self, unit: Address, out: &mut W) -> Result<(), Stop> {
        if let Some(unit_index) = self.known.unit_index(unit) {
            if self.machine.step(Event::Hard(unit_index))? {
                self.print_step(&Event::Hard(unit_index), out)?;
            }
        }
        Ok(())
    }

    /// Asks the driver of a queue for a notification, or for none; where the queue isn't there, or is broken, nothing
    /// happens.
    fn ask<W: Write>(&mut self, queue: u16, notify: Notify, out: &mut W) -> Result<(), Stop> {
        if self.machine.ask(queue, notify) && self.tracing.is_some() {
            return print_ask(out, queue, notify);
        }
        Ok(())
    }

    /// Does what a line of the host says; where the unit isn't there nothing happens.
    fn host(&mut self, line: HostLine) -> Result<(), Stop> {
        if let Some(unit_index) = self.known.unit_index(line.unit()) {
            self.machine.host(unit_index, line)?;
        }
        Ok(())
    }

    /// Gives a unit so many blocks for the operator; where it isn't there nothing happens.
    fn resize<W: Write>(&mut self, unit: Address, blocks: u64, out: &mut W) -> Result<(), Stop> {
        if let Some(unit_index) = self.known.unit_index(unit) {
            if self.machine.step(Event::Resize(unit_index, blocks))? {
                self.known.resize(unit_index, blocks);
                self.print_step(&Event::Resize(unit_index, blocks), out)?;
            }
        }
        Ok(())
    }
}
