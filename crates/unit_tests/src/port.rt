//! The queues that requests come from.

ghost use Rattle.std.specs.Prelude.{◌≤◌};

use crate::acts::{DATA, QUEUE, SIMPLE, Sent};
use crate::bench::{CALM, SECOND};
use foundation::NoMemory;
use guest_mem::GuestMem;
use logical_unit::{Arrival, Job};
use request_intake::{ChainLengths, Decision, Inventory, MOST_UNITS, UnitSpec, are_rising, decide};
use ring_core::{Answered, Chain, FIRST_BYTES, FIRST_INDEX, Fetched, Layout, Ring, RingFault};
use split_ring::SplitRing;
use std::alloc::Global;

/// The pages of the memory of each queue. They differ, so that their chains do.
pub(crate) const PAGES: u32 = 8;

const OTHER_PAGES: u32 = 9;

/// Where the queue lies: 256 descriptors, of which each request takes two.
const PLACE: Layout = Layout {
    size: 256,
    desc: 0,
    driver: 4096,
    device: 8192,
    first_available: FIRST_INDEX,
    first_used: FIRST_INDEX,
};

/// The address of each request while it is fetched, with its data behind it.
const REQUEST: u64 = 16384;

/// The address of each response.
const RESPONSE: u64 = 20480;

/// VIRTQ_DESC_F_NEXT (VIRTIO 1.2, 2.7.5).
const NEXT: u16 = 1;

/// VIRTQ_DESC_F_WRITE.
const WRITE: u16 = 2;

/// Returns which descriptors a request takes that comes behind so many. The first request keeps its own, so that it may
/// stay while any number of others pass.
fn slot_of(count: u16) -> u16
    ensures { result ≤ 127 }
{
    if count == 0 { 0 } else { (count - 1) % 127 + 1 }
}

/// A split queue in its memory.
#[derive(Drop)]
struct Port {
    memory: GuestMem,
    ring: SplitRing,
}

impl Port {
    /// Makes a queue of which nothing was fetched, in fresh memory of so many pages; `None` where memory was refused.
    fn new(alloc: Global, pages: u32) -> Option<Port> {
        if pages > 65536 {
            return None;
        }
        match GuestMem::new(alloc, pages) {
            Ok(memory) => Port::of(alloc, memory),
            Err(_) => None,
        }
    }

    /// Makes a queue of which nothing was fetched.
    fn of(alloc: Global, memory: GuestMem) -> Option<Port> {
        match SplitRing::new(alloc, QUEUE, PLACE, 0, &memory) {
            Ok(ring) => Some(Port { memory, ring }),
            Err(_) => None,
        }
    }

    /// Writes bytes. All addresses lie in memory: else what is fetched is another request.
    fn write(&mut self, addr: u64, bytes: &[u8]) {
        let _ = self.memory.write(addr, bytes);
    }

    /// Writes a descriptor.
    fn put_descriptor(&mut self, number: u16, addr: u64, len: u32, flags: u16) {
        let mut bytes = [0; 16];
        bytes[..8].copy_from_slice(&addr.to_le_bytes());
        bytes[8..12].copy_from_slice(&len.to_le_bytes());
        bytes[12..14].copy_from_slice(&flags.to_le_bytes());
        bytes[14..].copy_from_slice(&number.wrapping_add(1).to_le_bytes());
        self.write(16 * u64::from(number), &bytes);
    }

    /// Writes a request (VIRTIO 1.2 §5.6.6.1) for the LUN of target 0.
    fn put_request(&mut self, lun: u8, sent: &Sent) {
        let mut bytes = [0; 51];
        bytes[0] = 1;
        bytes[3] = lun;
        bytes[8..16].copy_from_slice(&sent.id.to_le_bytes());
        bytes[16] = sent.attribute;
        bytes[19..29].copy_from_slice(&sent.asked.cdb);
        self.write(REQUEST, &bytes);
        self.write(REQUEST + 51, &[DATA; 512]);
    }

    /// Makes a request available behind all that were fetched. One that could not be fetched it replaces.
    fn put(&mut self, lun: u8, sent: &Sent) {
        let count = (self.ring.log().accepted() % 65536) as u16;
        let head = 2 * slot_of(count);
        self.put_request(lun, sent);
        self.put_descriptor(head, REQUEST, sent.asked.out.saturating_add(51), NEXT);
        self.put_descriptor(
            head + 1,
            RESPONSE,
            sent.asked.into.saturating_add(108),
            WRITE,
        );
        self.write(4100 + 2 * u64::from(count % 256), &head.to_le_bytes());
        self.write(4098, &count.wrapping_add(1).to_le_bytes());
    }

    /// Fetches a chain. A memory that doesn't fit is a fault.
    fn fetch(&mut self) -> Result<Option<Fetched>, RingFault> {
        if !self.ring.fits(&self.memory) {
            return Err(RingFault::BufferOutside);
        }
        self.ring.fetch(&mut self.memory)
    }

    /// Puts a request into the queue, and fetches it.
    fn send(&mut self, lun: u8, sent: &Sent) -> Result<Option<Fetched>, RingFault> {
        self.put(lun, sent);
        self.fetch()
    }

    /// Completes a chain; `None` where it isn't of this queue.
    fn complete(&mut self, chain: Chain) -> Option<Answered> {
        if !self.ring.fits(&self.memory) || !self.ring.owns(&chain) {
            return None;
        }
        Some(self.ring.complete(&mut self.memory, chain, 0))
    }
}

/// Makes the inventory of units.
fn inventory_of(units: &[UnitSpec]) -> Option<Inventory> {
    if units.len() > MOST_UNITS || !are_rising(units) {
        return None;
    }
    Some(Inventory::new(units))
}

/// Decides on a fetched request, and returns its request for a unit of this LUN.
fn arrival_of(inventory: &Inventory, sent: &Sent, fetched: Fetched) -> Option<Arrival> {
    let Fetched { chain, mut bytes } = fetched;
    let lengths = ChainLengths {
        readable: chain.readable_len(),
        writable: chain.writable_len(),
    };
    let first = lengths.readable.min(FIRST_BYTES as u64);
    if bytes.len() as u64 != first || lengths.readable + lengths.writable > 1 << 32 {
        return None;
    }
    match decide(inventory, &mut bytes, &lengths) {
        Decision::Enter(unit_index, request) => {
            if unit_index == sent.unit % 2 {
                let number = inventory.number_at(unit_index);
                Some(Arrival::new(sent.unit, number, chain, request))
            } else {
                None
            }
        }
        Decision::Direct(_) => None,
    }
}

/// Two queues whose tickets are the same, and the units that their requests may name.
#[derive(Drop)]
pub struct Ports {
    inventory: Inventory,
    port: Port,
    other: Port,
}

impl Ports {
    /// Queues of which nothing was fetched; `None` where memory was refused.
    pub(crate) fn new(alloc: Global) -> Option<Ports> {
        let port = Port::new(alloc, PAGES)?;
        let other = Port::new(alloc, OTHER_PAGES)?;
        let inventory = inventory_of(&[CALM, SECOND])?;
        Some(Ports {
            inventory,
            port,
            other,
        })
    }

    /// Puts a request into its queue, and fetches it.
    fn send(&mut self, sent: &Sent) -> Result<Option<Fetched>, RingFault> {
        let lun = (sent.unit % 2) as u8;
        if sent.to_other {
            self.other.send(lun, sent)
        } else {
            self.port.send(lun, sent)
        }
    }

    /// Fetches a request. `NoMemory` where that was refused: the next request then stands in its place.
    pub(crate) fn arrive(&mut self, sent: &Sent) -> Result<Option<Arrival>, NoMemory> {
        match self.send(sent) {
            Ok(Some(fetched)) => Ok(arrival_of(&self.inventory, sent, fetched)),
            Err(RingFault::NoMemory) => Err(NoMemory),
            _ => Ok(None),
        }
    }

    /// Returns the job of a TEST UNIT READY with this identifier, over the first queue; `None` where memory was
    /// refused.
    pub(crate) fn job(&mut self, id: u64) -> Option<Job> {
        let arrival = self.arrive(&Sent { id, ..SIMPLE }).ok()??;
        Some(arrival.into_job())
    }

    /// Completes a chain; `None` where it is of no queue.
    pub(crate) fn complete(&mut self, chain: Chain) -> Option<Answered> {
        if self.port.ring.owns(&chain) {
            self.port.complete(chain)
        } else {
            self.other.complete(chain)
        }
    }

    /// Returns true if the chain of a job, if there is one, can be completed. Nothing leaves for it.
    pub(crate) fn let_go(&mut self, job: Option<Job>) -> bool {
        match job {
            Some(job) => self.complete(job.into_chain()).is_some(),
            None => true,
        }
    }
}
