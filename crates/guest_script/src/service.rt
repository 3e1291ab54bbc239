//! Plays a script on a device that threads serve.

ghost use Rattle.std.specs.Prelude.{◌≡◌, Ok, Err};
ghost use Rattle.workers.specs.Ledgers.{Opens};

use crate::host_memory::HostMemory;
use guest_driver::Driver;
use script_semantics::{
    Known, Script, Wanted, command_of, line_number, print, read_whole, run_guest_line, stop_of,
};
use script_syntax::{Command, LineFault, ScriptFault, Stop};
use scsi_codec::Address;
use std::alloc::Global;
use std::io::{Read, Write};
use std::marker::Brand;
use std::sync::Wait;
use std::sync::ledger::{Blank, Ledger};
use std::thread;
use std::thread::Threads;
use workers::{CloseFault, Host, Open, Report, ResetFault, ResizeFault, Weighing};

/// The number of looks that the guest takes for an answer that a line waits for.
const LOOKS: u32 = 1_000_000;

/// Plays a script on a device that so many workers serve, 1 to 8, in place of the number in its header. It reads the
/// script whole, then runs its lines one after the other while the workers run beside them. It closes the device at
/// `close` or `abandon`, or at the end where that is absent, and writes what the printing lines behind it ask for. A
/// program calls it once for a script, and flushes the writer afterwards. It may wait for the workers.
///
/// A line at fault ends the script; what was printed before it stands, and the device is closed. A reader that fails
/// is a fault of line 0, with nothing printed. A writer that fails ends the script at once, and isn't called again.
/// Where memory runs out, also while the device is closed, the script ends with `NoMemory`. `Unconfirmed` or
/// `Outstanding` where the device was closed and says so, unless a line was at fault.
pub fn serve<R, S, W>(
    rt: R,
    alloc: Global,
    script: &mut S,
    out: &mut W,
    workers: u16,
) -> Result<(), ScriptFault>
where
    R: Threads + Wait + Copy + Send + 'static,
    S: Read,
    W: Write,
{
    let bytes = read_whole(alloc, script)?;
    let (script, wanted) = Script::read(alloc, bytes.as_slice())?;
    let (rest, closed) = run_lines::<Brand, Brand, R>(
        rt,
        alloc,
        &script,
        wanted,
        workers,
        Blank::new(64),
        Blank::new(73),
    )?;
    closed.run(&script, rest, out)
}

/// Runs a script's lines on the device that its header asks for, and closes that, with these ledgers. Gives how many
/// lines were run, and what the closed device left.
fn run_lines<C, D, R>(
    rt: R,
    alloc: Global,
    script: &Script<'_>,
    wanted: Wanted,
    workers: u16,
    acts: Blank,
    receipts: Blank,
) -> Result<(usize, Closed), ScriptFault>
where
    C: Ledger + Weighing + Send + Sync + 'static,
    D: Ledger + Send + Sync + 'static,
    R: Threads + Wait + Copy + Send + 'static,
    requires acts { Opens acts.name acts.parts C.name C.parts 64 }
    requires receipts { Opens receipts.name receipts.parts D.name D.parts 73 }
{
    let started = Service::<C, D>::start(rt, alloc, wanted, workers, acts, receipts);
    let mut service = match started {
        Ok(service) => service,
        Err(stop) => return Err(script.refused(stop)),
    };
    let ended = service.run(&rt, script);
    let closed = service.close(&rt);
    both(ended, closed)
}

/// Returns what a script's lines and the closing of its device gave, where both went well; else the fault of a line,
/// or, where there is none, that of the closing.
fn both<A: Drop, B: Drop, E: Drop>(lines: Result<A, E>, closing: Result<B, E>) -> Result<(A, B), E>
    ensures line { (fault : E) → lines ≡ Err fault → result ≡ Err fault }
    ensures closing { (value : A) (fault : E) → lines ≡ Ok value → closing ≡ Err fault → result ≡ Err fault }
    ensures both { (value : A) (other : B) → lines ≡ Ok value → closing ≡ Ok other → result ≡ Ok (value, other) }
{
    match (lines, closing) {
        (Err(fault), _) => Err(fault),
        (Ok(_), Err(fault)) => Err(fault),
        (Ok(value), Ok(other)) => Ok((value, other)),
    }
}

/// Returns the fault of a script whose device says this when it is closed.
fn fault_of(fault: CloseFault) -> ScriptFault {
    match fault {
        CloseFault::Unconfirmed(ticket) => ScriptFault::Unconfirmed {
            queue: ticket.queue,
            number: ticket.number,
        },
        CloseFault::Outstanding(ticket) => ScriptFault::Outstanding {
            queue: ticket.queue,
            number: ticket.number,
        },
        CloseFault::NoMemory => ScriptFault::NoMemory,
    }
}

/// A script that runs while threads serve its device, with the guest's driver.
struct Service<C: Ledger + Weighing, D: Ledger> {
    alloc: Global,
    host: Host<Open, C, D>,
    pages: u32,
    driver: Driver,
    known: Known,
    // True once the device takes no more chains.
    is_abandoned: bool,
}

impl<C: Ledger + Weighing, D: Ledger> Service<C, D> {
    /// Opens the device that a header asks for, with so many workers and these ledgers, and the driver beside it.
    /// `BadConfig` where the device refuses.
    fn start<R: Threads + Wait + Copy + Send + 'static>(
        rt: R,
        alloc: Global,
        wanted: Wanted,
        workers: u16,
        acts: Blank,
        receipts: Blank,
    ) -> Result<Service<C, D>, Stop>
    where
        C: Send + Sync + 'static,
        D: Send + Sync + 'static,
        requires acts { Opens acts.name acts.parts C.name C.parts 64 }
        requires receipts { Opens receipts.name receipts.parts D.name D.parts 73 }
    {
        if !wanted.suits_threads() {
            return Err(Stop::Fault(LineFault::BadConfig));
        }
        let Wanted {
            config,
            known,
            rings,
            features,
            ..
        } = wanted;
        let pages = config.pages;
        let host = match Host::start(rt, alloc, config, Open, workers, acts, receipts) {
            Ok(host) => host,
            Err(fault) => return Err(stop_of(fault)),
        };
        match Driver::new(alloc, features, known.queues, rings) {
            Ok(driver) => Ok(Service {
                alloc,
                host,
                pages,
                driver,
                known,
                is_abandoned: false,
            }),
            Err(_) => {
                let _closed = host.close(&rt);
                Err(Stop::NoMemory)
            }
        }
    }

    /// Runs the lines up to `close` or `abandon`, or to the end where both are absent. Gives how many lines that are,
    /// with the header's and that line.
    fn run<R: Wait>(&mut self, rt: &R, script: &Script<'_>) -> Result<usize, ScriptFault> {
        for (index, line) in script.lines.iter().enumerate().skip(script.header) {
            match self.run_line(rt, line) {
                Ok(false) => {}
                Ok(true) => return Ok(index.saturating_add(1)),
                Err(stop) => return Err(stop.at(line_number(index))),
            }
        }
        Ok(script.lines.len())
    }

    /// Runs a line, and then finds what was used. Returns true if the line is `close` or `abandon`.
    fn run_line<R: Wait>(&mut self, rt: &R, line: &[u8]) -> Result<bool, Stop> {
        if let Some(command) = command_of(self.alloc, line)? {
            self.known.check(&command)?;
            match command {
                Command::Close => return Ok(true),
                Command::Abandon => {
                    self.is_abandoned = true;
                    return Ok(true);
                }
                command => self.run_command(rt, command)?,
            }
        }
        let memory = HostMemory::new(rt, &self.host, self.pages);
        self.driver.look(&memory)?;
        Ok(false)
    }

    /// Runs a line that was read, but for `close` and `abandon`.
    fn run_command<R: Wait>(&mut self, rt: &R, command: Command<'_>) -> Result<(), Stop> {
        match command {
            Command::Guest(line) => {
                let mut memory = HostMemory::new(rt, &self.host, self.pages);
                run_guest_line(self.alloc, &mut self.driver, &mut memory, &line)
            }
            Command::Hard(unit) => self.hard(rt, unit),
            Command::Resize(unit, blocks) => self.resize(rt, unit, blocks),
            Command::Wait(name) => self.wait(rt, name),
            Command::Race(_)
            | Command::Ask(_, _)
            | Command::Settle
            | Command::Step(_)
            | Command::Host(_)
            | Command::Print(_)
            | Command::Close
            | Command::Abandon => Err(Stop::Fault(LineFault::OutOfPlace)),
        }
    }

    /// Resets a unit for the operator, and tells the guest; where the unit isn't there nothing happens.
    fn hard<R: Wait>(&mut self, rt: &R, unit: Address) -> Result<(), Stop> {
        if let Some(unit_index) = self.known.unit_index(unit) {
            match self.host.operator(rt, unit_index) {
                Ok(()) => {}
                Err(ResetFault::WrongUnit) => return Err(Stop::Fault(LineFault::WrongUnit)),
                Err(ResetFault::NoMemory) => return Err(Stop::NoMemory),
            }
        }
        Ok(())
    }

    /// Gives a unit so many blocks for the operator; where it isn't there nothing happens.
    fn resize<R: Wait>(&mut self, rt: &R, unit: Address, blocks: u64) -> Result<(), Stop> {
        if let Some(unit_index) = self.known.unit_index(unit) {
            match self.host.resize(rt, unit_index, blocks) {
                Ok(()) => self.known.resize(unit_index, blocks),
                Err(ResizeFault::BadCapacity) => {}
                Err(ResizeFault::WrongUnit) => return Err(Stop::Fault(LineFault::WrongUnit)),
                Err(ResizeFault::NoMemory) => return Err(Stop::NoMemory),
            }
        }
        Ok(())
    }

    /// Looks for the answer of a request or a function until it is there, or the guest has looked often enough. Other
    /// threads run between two looks. `NoSuchName` where nothing of that name was sent.
    fn wait<R: Wait>(&mut self, rt: &R, name: &str) -> Result<(), Stop> {
        let memory = HostMemory::new(rt, &self.host, self.pages);
        for _ in 0..LOOKS {
            let Some(sent) = self.driver.sent(name) else {
                return Err(Stop::Fault(LineFault::NoSuchName));
            };
            if sent.used.is_some() {
                return Ok(());
            }
            thread::yield_now();
            self.driver.look_at(&memory, sent.queue as usize)?;
        }
        Ok(())
    }

    /// Closes the device, whose threads end, and finds what was used.
    fn close<R: Threads + Wait>(self, rt: &R) -> Result<Closed, ScriptFault> {
        let Service {
            alloc,
            host,
            pages: _,
            mut driver,
            known,
            is_abandoned,
        } = self;
        let closed = if is_abandoned {
            host.abandon(rt)
        } else {
            host.close(rt)
        };
        let report = match closed {
            Ok(report) => report,
            Err(fault) => return Err(fault_of(fault)),
        };
        let Ok(()) = driver.look(&report.memory) else {
            return Err(ScriptFault::NoMemory);
        };
        Ok(Closed {
            alloc,
            report,
            driver,
            known,
        })
    }
}

/// A script whose device was closed: what it left, with the guest's driver.
#[derive(Drop)]
struct Closed {
    alloc: Global,
    report: Report,
    driver: Driver,
    known: Known,
}

impl Closed {
    /// Runs the lines from an index on.
    fn run<W: Write>(
        &self,
        script: &Script<'_>,
        rest: usize,
        out: &mut W,
    ) -> Result<(), ScriptFault> {
        for (index, line) in script.lines.iter().enumerate().skip(rest) {
            if let Err(stop) = self.run_line(line, out) {
                return Err(stop.at(line_number(index)));
            }
        }
        Ok(())
    }

    /// Runs a line, which has to be one that prints.
    fn run_line<W: Write>(&self, line: &[u8], out: &mut W) -> Result<(), Stop> {
        let Some(command) = command_of(self.alloc, line)? else {
            return Ok(());
        };
        self.known.check(&command)?;
        match &command {
            Command::Print(line) => print(self.alloc, out, &self.report, &self.driver, *line),
            _ => Err(Stop::Fault(LineFault::OutOfPlace)),
        }
    }
}
