//! Who serves: the device of one thread, or a host of several.

ghost use Rattle.workers.specs.Ledgers.{Opens};

use crate::failure::Failure;
use crate::places::request_at;
use crate::work::Work;
use crossbeam_utils::CachePadded;
use ring_core::{Form, Layout, Ticket};
use std::alloc::{AllocError, Global};
use std::hint::spin_loop;
use std::sync::atomic::{AtomicU64, Ordering};
use std::sync::ledger::{Blank, Ledger};
use std::sync::{Arc, Wait};
use std::thread;
use std::thread::Threads;
use workers::{Gate, Host, Point, Weighing};
use world::{Config, Identity, Profile, RING_PACKED, UnitSpec, VERSION_1, World};

/// The addresses of the areas of a request queue in what is its own.
pub(crate) const DRIVER: u64 = 0x4000;

const DEVICE: u64 = 0x5000;

/// The bytes that a request queue has for its areas.
pub(crate) const QUEUE: u64 = 0x8000;

/// The addresses of the areas of the other two queues.
const OTHER_QUEUES: [u32; 2] = [0x1_0000, 0x1_1000];

/// The number of the first unit's request queue.
const FIRST_QUEUE: u16 = 2;

/// The number of times that a guest looks whether the workers have answered.
const LOOKS: u64 = 10_000_000_000;

/// The length of its rest between two looks, and the number of looks after which it lets other threads run.
const RESTS: u32 = 20;

const YIELDS: u64 = 16;

/// A device that serves a guest.
pub(crate) trait Device {
    /// Writes bytes as the guest.
    fn poke(&mut self, addr: u64, bytes: &[u8]);

    /// Reads bytes as the guest.
    fn peek(&mut self, addr: u64, out: &mut [u8]);

    /// Waits until so many requests of a unit are answered. Returns true if they are.
    fn serves(&mut self, lun: u8, count: u64) -> Result<bool, Failure>;
}

/// The device of one thread, whose steps wait for nobody.
#[derive(Drop)]
pub(crate) struct Alone {
    world: World,
}

impl Alone {
    /// Makes the device of a configuration.
    pub(crate) fn new(alloc: Global, work: &Work) -> Result<Alone, Failure> {
        Ok(Alone {
            world: World::new(alloc, &config(alloc, work)?)?,
        })
    }
}

impl Device for Alone {
    fn poke(&mut self, addr: u64, bytes: &[u8]) {
        self.world.poke(addr, bytes);
    }

    fn peek(&mut self, addr: u64, out: &mut [u8]) {
        let _ = self.world.memory().read(addr, out);
    }

    fn serves(&mut self, _lun: u8, _count: u64) -> Result<bool, Failure> {
        self.world.settle()?;
        Ok(true)
    }
}

/// The number of requests of each unit that were answered. Two workers count these, so they stand in cache lines of
/// their own.
#[derive(Drop)]
pub(crate) struct Answered {
    first: CachePadded<AtomicU64>,
    second: CachePadded<AtomicU64>,
}

impl Answered {
    /// Makes a count of none.
    pub(crate) fn new() -> Answered {
        Answered {
            first: CachePadded::new(AtomicU64::new(0)),
            second: CachePadded::new(AtomicU64::new(0)),
        }
    }

    /// Returns those of a unit.
    fn of(&self, lun: u8) -> &AtomicU64 {
        if lun == 0 {
            &*self.first
        } else {
            &*self.second
        }
    }
}

/// A gate that counts what was answered, so that the guest needn't look into its memory for that.
#[derive(Drop)]
pub(crate) struct Counting {
    pub(crate) answered: Arc<Answered>,
}

impl Gate for Counting {
    fn pass(&self, point: Point, ticket: Ticket) {
        if point == Point::Answered {
            let lun = if ticket.queue == FIRST_QUEUE { 0 } else { 1 };
            self.answered.of(lun).fetch_add(1, Ordering::SeqCst);
        }
    }

    fn watches(&self) -> bool {
        false
    }
}

/// A host of several threads.
pub(crate) struct Hosted<'a, R: Wait, C: Ledger + Weighing, D: Ledger> {
    rt: &'a R,
    host: Host<Counting, C, D>,
    answered: Arc<Answered>,
}

impl<'a, R, C, D> Hosted<'a, R, C, D>
where
    R: Threads + Wait + Copy + Send + 'static,
    C: Ledger + Weighing + Send + Sync + 'static,
    D: Ledger + Send + Sync + 'static,
{
    /// Makes a host of a configuration, with so many workers and these ledgers.
    pub(crate) fn new(
        rt: &'a R,
        alloc: Global,
        work: &Work,
        acts: Blank,
        receipts: Blank,
    ) -> Result<Hosted<'a, R, C, D>, Failure>
        requires acts { Opens acts.name acts.parts C.name C.parts 64 }
        requires receipts { Opens receipts.name receipts.parts D.name D.parts 73 }
    {
        let config = config(alloc, work)?;
        let answered = share(alloc)?;
        let gate = Counting {
            answered: Arc::try_clone(&answered)?,
        };
        let host = Host::start(*rt, alloc, config, gate, work.workers, acts, receipts)?;
        Ok(Hosted { rt, host, answered })
    }

    /// Closes the host: whether all adds up.
    pub(crate) fn close(self) -> bool {
        let Hosted {
            rt,
            host,
            answered: _,
        } = self;
        host.close(rt).is_ok()
    }
}

impl<'a, R: Wait, C: Ledger + Weighing, D: Ledger> Device for Hosted<'a, R, C, D> {
    fn poke(&mut self, addr: u64, bytes: &[u8]) {
        let _ = self.host.poke(self.rt, addr, bytes);
    }

    fn peek(&mut self, addr: u64, out: &mut [u8]) {
        let _ = self.host.peek(self.rt, addr, out);
    }

    fn serves(&mut self, lun: u8, count: u64) -> Result<bool, Failure> {
        self.host.kick(self.rt);
        let answered = self.answered.of(lun);
        for look in 0..LOOKS {
            if answered.load(Ordering::SeqCst) >= count {
                return Ok(true);
            }
            // A count that is read all the time is slow to count on.
            for _ in 0..RESTS {
                spin_loop();
            }
            if look % YIELDS == 0 {
                thread::yield_now();
            }
        }
        Ok(false)
    }
}

/// Makes a count of none, for several threads.
fn share(alloc: Global) -> Result<Arc<Answered>, Failure> {
    match Arc::new(alloc, Answered::new()) {
        Ok(answered) => Ok(answered),
        Err(_) => Err(Failure::NoMemory),
    }
}

/// Returns the layout of a queue with so many descriptors, whose areas begin here.
fn small_queue(at: u32) -> Layout {
    let desc = u64::from(at);
    Layout::fresh(2, desc, desc + 0x400, desc + 0x800)
}

/// Returns the layout of the queue of a unit's requests.
fn request_queue(work: &Work, lun: u8) -> Layout {
    let desc = QUEUE * u64::from(lun);
    Layout::fresh(work.slots(), desc, desc + DRIVER, desc + DEVICE)
}

/// Makes a configuration of two calm units, each with a request queue.
fn config(alloc: Global, work: &Work) -> Result<Config, AllocError> {
    let mut queues = Vec::new(alloc);
    for at in OTHER_QUEUES {
        queues.push(small_queue(at))?;
    }
    let mut units = Vec::new(alloc);
    for lun in [0, 1] {
        queues.push(request_queue(work, lun))?;
        units.push(UnitSpec {
            target: 0,
            lun: u16::from(lun),
            blocks: u64::from(work.depth) * u64::from(work.kind.blocks()) + 1,
            calm: true,
            profile: Profile::Narrow,
            identity: Identity::PLAIN,
        })?;
    }
    Ok(Config {
        pages: (request_at(work, 2, 0) / 4096 + 1) as u32,
        features: match work.form {
            Form::Split => VERSION_1,
            Form::Packed => VERSION_1 + RING_PACKED,
        },
        queues,
        workers: 1,
        handoff: 64,
        units,
    })
}
