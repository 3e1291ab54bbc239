//! Prints what each step of the device did, as a line.

use guest_driver::Driver;
use logical_unit::StepKind;
use ring_core::Ticket;
use script_machines::Machine;
use script_semantics::{Known, written};
use script_syntax::Stop;
use scsi_codec::{Address, CONTROL_QUEUE, EVENT_QUEUE};
use std::alloc::{AllocError, Global};
use std::io::Write;
use world::{Event, Notify};

/// A device as it was seen last, so that the next step is known by what it changed.
#[derive(Drop)]
pub(crate) struct Trace {
    /// The number of steps that each unit took.
    steps: Vec<u64>,
    /// The chain of the request that each seat ran last, and that didn't leave.
    hands: Vec<Option<Ticket>>,
    /// The number of event buffers that were used.
    buffers: u64,
    /// The number of requests that wait for their disks, or are to be tried again.
    waiting: usize,
}

/// The subject of a unit's step.
#[derive(Clone, Copy)]
struct Told {
    /// The unit.
    unit: Option<Address>,
    /// The chain of the request or the function.
    ticket: Option<Ticket>,
    /// Its outcome, in a word; none where that is what the step is there for.
    outcome: &'static str,
}

impl Trace {
    /// Begins with a device of so many units and seats, of which nothing has happened. It fails where memory runs out.
    pub(crate) fn new(alloc: Global, units: usize, seats: u16) -> Result<Trace, AllocError> {
        Ok(Trace {
            steps: vec![in alloc; 0; units]?,
            hands: vec![in alloc; None; seats as usize]?,
            buffers: 0,
            waiting: 0,
        })
    }

    /// Prints the line of an event that just changed something.
    pub(crate) fn print<M: Machine, W: Write>(
        &mut self,
        out: &mut W,
        machine: &M,
        driver: &Driver,
        known: &Known,
        event: &Event,
    ) -> Result<(), Stop> {
        let told = self.told(machine, known, event);
        print_event(out, event)?;
        if let Some(Address { target, lun }) = told.unit {
            written(write!(out, " unit={target}:{lun}"))?;
        }
        if let Some(Ticket { queue, number }) = told.ticket {
            match driver.offered(queue, number) {
                Some(name) => written(write!(out, " name={name}"))?,
                None => written(write!(out, " name={queue}/{number}"))?,
            }
        }
        let outcome = told.outcome;
        if !outcome.is_empty() {
            written(write!(out, " {outcome}"))?;
        }
        self.print_buffer(out, machine, event)?;
        written(writeln!(out))
    }

    /// Prints what became of an event of the device: which event buffer tells of it, or that it was missed.
    fn print_buffer<M: Machine, W: Write>(
        &mut self,
        out: &mut W,
        machine: &M,
        event: &Event,
    ) -> Result<(), Stop> {
        let Some(log) = machine.log(EVENT_QUEUE) else {
            return Ok(());
        };
        let used = log.used();
        let is_used = used > self.buffers;
        self.buffers = used;
        match event {
            Event::Raise | Event::Fetch(_) if is_used => written(write!(out, " event={used}")),
            Event::Raise => written(write!(out, " missed")),
            _ => Ok(()),
        }
    }

    /// Returns what an event was about that just changed something.
    fn told<M: Machine>(&mut self, machine: &M, known: &Known, event: &Event) -> Told {
        let waits = self.waits_now(machine);
        let (unit, step) = match self.grown(machine, known) {
            Some((unit, step)) => (Some(unit), Some(step)),
            None => (None, None),
        };
        let (ticket, outcome) = match step {
            Some(StepKind::Enter(ticket) | StepKind::Commit(ticket) | StepKind::Leave(ticket)) => {
                (Some(ticket), "")
            }
            Some(StepKind::Full(ticket)) => (Some(ticket), "full"),
            Some(StepKind::Busy(ticket)) => (Some(ticket), "busy"),
            Some(StepKind::Abort(_)) => (newest(machine, CONTROL_QUEUE), "abort"),
            Some(StepKind::Reset) => (self.of_event(machine, event), "reset"),
            Some(StepKind::Resize) => (None, ""),
            None if waits => (None, "waits"),
            None if is_broken(machine, event) => (None, "broken"),
            None => (self.of_event(machine, event), ""),
        };
        self.hold(event, ticket);
        Told {
            unit,
            ticket,
            outcome,
        }
    }

    /// Returns the unit that took a step since the last look, and that step.
    fn grown<M: Machine>(&mut self, machine: &M, known: &Known) -> Option<(Address, StepKind)> {
        for (unit_index, seen) in self.steps.iter_mut().enumerate() {
            let spec = known.units.get(unit_index)?;
            let address = Address {
                target: spec.target,
                lun: spec.lun,
            };
            let unit = machine.unit(address)?;
            if unit.steps() > *seen {
                *seen = unit.steps();
                return Some((address, unit.step(seen.saturating_sub(1))?));
            }
        }
        None
    }

    /// Returns true if one more request waits for its disk than at the last look.
    fn waits_now<M: Machine>(&mut self, machine: &M) -> bool {
        let before = self.waiting;
        self.waiting = machine.waiting();
        self.waiting > before
    }

    /// Makes the chain that an event is about which took no step of a unit, where that can be seen.
    fn of_event<M: Machine>(&self, machine: &M, event: &Event) -> Option<Ticket> {
        match event {
            Event::Fetch(queue) | Event::Enter(queue) | Event::Direct(queue) => {
                newest(machine, *queue)
            }
            Event::Mark | Event::Check | Event::AnswerTmf => newest(machine, CONTROL_QUEUE),
            Event::Answer(seat) => *self.hands.get(*seat as usize)?,
            _ => None,
        }
    }

    /// Takes down which chain is in a seat's hand.
    fn hold(&mut self, event: &Event, ticket: Option<Ticket>) {
        let (seat, held) = match event {
            Event::Commit(seat) => (*seat, ticket),
            Event::Leave(seat) => (*seat, None),
            _ => return,
        };
        if let Some(hand) = self.hands.get_mut(seat as usize) {
            *hand = held;
        }
    }
}

/// Returns the chain that a queue accepted last.
fn newest<M: Machine>(machine: &M, queue: u16) -> Option<Ticket> {
    let number = machine.log(queue)?.accepted().checked_sub(1)?;
    Some(Ticket { queue, number })
}

/// Returns true if an event was a fetch that broke its queue: of a broken one none changes anything.
fn is_broken<M: Machine>(machine: &M, event: &Event) -> bool {
    match event {
        Event::Fetch(queue) => machine.is_broken(*queue),
        _ => false,
    }
}

/// Prints which event it is, and where.
fn print_event<W: Write>(out: &mut W, event: &Event) -> Result<(), Stop> {
    let (word, label) = match event {
        Event::Poke(_, _) => ("poke", ""),
        Event::Fetch(_) => ("fetch", "queue"),
        Event::Enter(_) => ("enter", "queue"),
        Event::Direct(_) => ("direct", "queue"),
        Event::Put(_) => ("put", "seat"),
        Event::Take(_) => ("take", "seat"),
        Event::Prepare(_) => ("prepare", "seat"),
        Event::Commit(_) => ("commit", "seat"),
        Event::Answer(_) => ("answer", "seat"),
        Event::Leave(_) => ("leave", "seat"),
        Event::Mark => ("mark", ""),
        Event::Check => ("check", ""),
        Event::AnswerTmf => ("answertmf", ""),
        Event::Hard(_) => ("hard", ""),
        Event::Resize(_, _) => ("resize", ""),
        Event::Raise => ("raise", ""),
        Event::Wake => ("wake", ""),
        Event::Resume(_) => ("resume", "seat"),
    };
    written(write!(out, "trace: {word}"))?;
    match place_of(event) {
        Some(number) => written(write!(out, " {label}={number}")),
        None => Ok(()),
    }
}

/// Prints what the driver of a queue was asked for.
pub(crate) fn print_ask<W: Write>(out: &mut W, queue: u16, notify: Notify) -> Result<(), Stop> {
    let word = match notify {
        Notify::Next => "next",
        Notify::Never => "never",
    };
    written(writeln!(out, "trace: ask queue={queue} {word}"))
}

/// Returns the queue or the seat of an event, if it has one.
fn place_of(event: &Event) -> Option<u16> {
    match event {
        Event::Fetch(index) | Event::Enter(index) | Event::Direct(index) => Some(*index),
        Event::Put(index) | Event::Take(index) | Event::Prepare(index) => Some(*index),
        Event::Resume(index) => Some(*index),
        Event::Commit(index) | Event::Answer(index) | Event::Leave(index) => Some(*index),
        _ => None,
    }
}
