//! A device that answers each chain by the bytes that it brings.

use guest_mem::Memory;
use host_bus::HostBus;
use live_mem::LiveMem;
use ring_core::{Fetched, Ring, scatter};

/// The most bytes of an answer.
const MOST: u64 = 1 << 20;

/// The numbers of a round.
#[derive(Clone, Copy)]
#[repr(C)]
pub struct Echoed {
    /// The number of chains that were used.
    pub chains: u64,
    /// The number of these of which the driver wanted a notice.
    pub notices: u64,
    /// The number of faults that broke a queue.
    pub faults: u64,
}

/// Answers a chain, and uses it. Returns true if the driver wants a notice.
fn answer<R: Ring>(ring: &mut R, memory: &mut LiveMem<HostBus>, fetched: Fetched) -> bool {
    let Fetched { chain, bytes } = fetched;
    let room = chain.writable_len().min(bytes.len() as u64).min(MOST) as usize;
    if chain.memory() != memory.size() {
        return false;
    }
    memory.begin();
    let len = scatter(memory, &chain, 0, &bytes.as_slice()[..room]);
    if !ring.fits(memory) || !ring.owns(&chain) {
        return false;
    }
    let _used = live_rings::complete(ring, memory, chain, len);
    memory.begin();
    ring.fits(memory) && ring.wants_notice(memory)
}

/// Serves a queue until a fault breaks it, so many chains were used in all, or it looked so many times.
pub(crate) fn open_and_echo<R: Ring + Drop>(
    ring: R,
    memory: &mut LiveMem<HostBus>,
    chains: u64,
    looks: u64,
    seen: &mut Echoed,
) {
    let mut ring = ring;
    for _look in 0..looks {
        if seen.chains >= chains || !ring.fits(memory) {
            return;
        }
        match live_rings::fetch(&mut ring, memory) {
            Ok(None) => {}
            Ok(Some(fetched)) => {
                if answer(&mut ring, memory, fetched) {
                    seen.notices = seen.notices.wrapping_add(1);
                }
                seen.chains = seen.chains.wrapping_add(1);
            }
            Err(_) => {
                seen.faults = seen.faults.wrapping_add(1);
                return;
            }
        }
    }
}
