//! A guest that keeps so many requests available on each of two queues, over and over, from the same addresses in its
//! memory. Each queue's requests are for a unit of its own, and come in two sets. The guest looks at one set and makes
//! it available again while the device has the other. So a queue doesn't stand empty meanwhile.

use crate::device::{DRIVER, Device, QUEUE};
use crate::failure::Failure;
use crate::places::{Data, data_at, request_at, request_of, response_at};
use crate::work::{REQUEST_BYTES, RESPONSE_BYTES, Work};
use ring_core::Form;
use std::alloc::{AllocError, Global};
use std::thread;

/// The units.
const LUNS: [u8; 2] = [0, 1];

/// Descriptor flags (VIRTIO 1.2, 2.7.5 and 2.8.1).
const NEXT: u16 = 1;

const WRITE: u16 = 2;

const AVAILABLE: u16 = 0x80;

const USED: u16 = 0x8000;

/// The number of descriptors of a split queue for each chain.
const CHAIN: u16 = 4;

/// The value of each byte of a response before it is answered, and, as GOOD has it, once it is (VIRTIO 1.2, 5.6.6.1).
const OPEN: u8 = 255;

const WELL: u8 = 0;

/// The number of times that a guest looks for the answers of a set while no more are given.
const LOOKS: u64 = 10_000_000_000;

/// Returns the bytes of a descriptor of either form: in a split one the last two numbers are flags and next, in a
/// packed one id and flags.
fn descriptor(addr: u64, len: u32, pair: [u16; 2]) -> [u8; 16] {
    let [first, second] = pair;
    let mut bytes = [0; 16];
    bytes[0..8].copy_from_slice(&addr.to_le_bytes());
    bytes[8..12].copy_from_slice(&len.to_le_bytes());
    bytes[12..14].copy_from_slice(&first.to_le_bytes());
    bytes[14..16].copy_from_slice(&second.to_le_bytes());
    bytes
}

/// A part of a chain: where it lies, its bytes, and the flag of those that the device writes.
#[derive(Clone, Copy)]
struct Part {
    addr: u64,
    len: u32,
    flag: u16,
}

/// Returns the part at an index of a request's chain: the request, the response, and the data, which stand before the
/// response where the device reads them, and else behind it.
fn part_at(work: &Work, lun: u8, number: u16, index: u16) -> Part {
    let data = data_at(work, lun, number);
    match (index, work.kind.data()) {
        (0, _) => Part {
            addr: request_at(work, lun, number),
            len: REQUEST_BYTES,
            flag: 0,
        },
        (1, Data::Out(len)) => Part {
            addr: data,
            len,
            flag: 0,
        },
        (2, Data::In(len)) => Part {
            addr: data,
            len,
            flag: WRITE,
        },
        _ => Part {
            addr: response_at(work, lun, number),
            len: RESPONSE_BYTES,
            flag: WRITE,
        },
    }
}

/// Returns the flags of the part at an index, but for those of a round.
fn flags_at(work: &Work, part: Part, index: u16) -> u16 {
    if index.wrapping_add(1) < work.kind.parts() {
        part.flag | NEXT
    } else {
        part.flag
    }
}

/// A guest, with what it needs to make the requests of a unit available again.
#[derive(Drop)]
pub(crate) struct Guest {
    work: Work,
    // Descriptors of the sets of each unit's packed queue, as the driver writes them in rounds with an even and with an
    // odd number.
    even: [Vec<u8>; 4],
    odd: [Vec<u8>; 4],
    // The responses of a set before they are answered, and as they were found.
    open: Vec<u8>,
    found: Vec<u8>,
    good: u64,
}

/// Returns the descriptors of a set of a unit's requests on a packed queue.
fn packed_set(
    alloc: Global,
    work: &Work,
    lun: u8,
    set: u16,
    wrap: u16,
) -> Result<Vec<u8>, AllocError> {
    let mut slots = Vec::new(alloc);
    for number in work.first_of(set)..work.first_of(set.wrapping_add(1)) {
        for index in 0..work.kind.parts() {
            let part = part_at(work, lun, number, index);
            let flags = flags_at(work, part, index) | wrap;
            slots.extend_from_slice(&descriptor(part.addr, part.len, [number, flags]))?;
        }
    }
    Ok(slots)
}

/// Makes those of the sets of the first unit, then of the second's.
fn packed(alloc: Global, work: &Work, wrap: u16) -> Result<[Vec<u8>; 4], AllocError> {
    Ok([
        packed_set(alloc, work, 0, 0, wrap)?,
        packed_set(alloc, work, 0, 1, wrap)?,
        packed_set(alloc, work, 1, 0, wrap)?,
        packed_set(alloc, work, 1, 1, wrap)?,
    ])
}

/// Returns the responses of a set before they are answered.
fn responses(alloc: Global, work: &Work) -> Result<Vec<u8>, AllocError> {
    let mut bytes = Vec::new(alloc);
    for _ in 0..work.of_set() {
        bytes.extend_from_slice(&[OPEN; RESPONSE_BYTES as usize])?;
    }
    Ok(bytes)
}

/// Returns true if responses are all there and well; `None` where one isn't well.
fn are_well(found: &[u8]) -> Option<bool> {
    let mut are_there = true;
    for response in found.chunks(RESPONSE_BYTES as usize) {
        if response == [OPEN; RESPONSE_BYTES as usize].as_slice() {
            are_there = false;
        } else if response != [WELL; RESPONSE_BYTES as usize].as_slice() {
            return None;
        }
    }
    Some(are_there)
}

/// Puts the chain of a request into the table of a split queue, and into its available ring.
fn put_split<D: Device>(device: &mut D, work: &Work, lun: u8, number: u16) {
    let queue = QUEUE * u64::from(lun);
    let head = number.wrapping_mul(CHAIN);
    for index in 0..work.kind.parts() {
        let at = head.wrapping_add(index);
        let part = part_at(work, lun, number, index);
        let pair = [flags_at(work, part, index), at.wrapping_add(1)];
        let bytes = descriptor(part.addr, part.len, pair);
        device.poke(queue + 16 * u64::from(at), bytes.as_slice());
    }
    // The ring has an entry for each descriptor.
    for round in 0..CHAIN {
        let entry = number.wrapping_add(round.wrapping_mul(work.depth));
        let addr = queue + DRIVER + 4 + 2 * u64::from(entry);
        device.poke(addr, head.to_le_bytes().as_slice());
    }
}

/// Puts all requests into memory.
fn put_all<D: Device>(device: &mut D, work: &Work) {
    for lun in LUNS {
        for number in 0..work.depth {
            let bytes = request_of(work.kind, lun, number);
            device.poke(request_at(work, lun, number), bytes.as_slice());
            if work.form == Form::Split {
                put_split(device, work, lun, number);
            }
        }
    }
}

impl Guest {
    /// Makes a guest of a device, with all requests in its memory.
    pub(crate) fn new<D: Device>(
        alloc: Global,
        device: &mut D,
        work: &Work,
    ) -> Result<Guest, AllocError> {
        put_all(device, work);
        Ok(Guest {
            work: *work,
            even: packed(alloc, work, AVAILABLE)?,
            odd: packed(alloc, work, USED)?,
            open: responses(alloc, work)?,
            found: responses(alloc, work)?,
            good: 0,
        })
    }

    /// Returns how many requests of a unit are made available up to a set of a round.
    fn sent(&self, round: u64, set: u16) -> u64 {
        round
            .wrapping_mul(u64::from(self.work.depth))
            .wrapping_add(u64::from(self.work.first_of(set.wrapping_add(1))))
    }

    /// Clears the responses of a set of a unit's requests, and makes it available, the first time with an index of 0.
    fn send<D: Device>(&self, device: &mut D, lun: u8, set: u16, round: u64) {
        let work = self.work;
        let first = work.first_of(set);
        device.poke(response_at(&work, lun, first), self.open.as_slice());
        let queue = QUEUE * u64::from(lun);
        let slots = queue + 16 * u64::from(first) * u64::from(work.kind.parts());
        let of = (lun % 2) as usize * 2 + (set % 2) as usize;
        match work.form {
            Form::Split => {
                let index = (self.sent(round, set) % 65536) as u16;
                device.poke(queue + DRIVER + 2, index.to_le_bytes().as_slice());
            }
            Form::Packed if round % 2 == 0 => device.poke(slots, self.even[of].as_slice()),
            Form::Packed => device.poke(slots, self.odd[of].as_slice()),
        }
    }

    /// Waits until a set of a unit's requests is answered, and counts those that ended with GOOD. As many as were sent
    /// up to it may have been answered before it is, where those of the other set came first.
    fn take<D: Device>(
        &mut self,
        device: &mut D,
        lun: u8,
        set: u16,
        round: u64,
    ) -> Result<(), Failure> {
        let work = self.work;
        if !device.serves(lun, self.sent(round, set))? {
            return Err(Failure::NotServed);
        }
        for _ in 0..LOOKS {
            let at = response_at(&work, lun, work.first_of(set));
            device.peek(at, self.found.as_mut_slice());
            match are_well(self.found.as_slice()) {
                Some(true) => {
                    self.good = self.good.wrapping_add(u64::from(work.of_set()));
                    return Ok(());
                }
                Some(false) => thread::yield_now(),
                None => break,
            }
        }
        Err(Failure::NotServed)
    }

    /// Has all rounds served, and makes each set available again once it is answered. Returns how many requests ended
    /// with GOOD.
    pub(crate) fn serve<D: Device>(mut self, device: &mut D) -> Result<u64, Failure> {
        let rounds = self.work.rounds;
        for round in 0..rounds {
            for set in 0..self.work.sets() {
                for lun in LUNS {
                    if round > 0 {
                        self.take(device, lun, set, round - 1)?;
                    }
                    self.send(device, lun, set, round);
                }
            }
        }
        if rounds > 0 {
            for set in 0..self.work.sets() {
                for lun in LUNS {
                    self.take(device, lun, set, rounds - 1)?;
                }
            }
        }
        Ok(self.good)
    }
}
