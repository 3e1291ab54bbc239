//! For the tests of the bus: its accesses and a queue over it, as C calls them.
#![tactic(auto)]

mod echo;

use crate::echo::{Echoed, open_and_echo};
use host_bus::HostBus;
use live_mem::{Bus, LiveMem};
use packed_ring::PackedRing;
use ring_core::{FIRST_INDEX, Layout};
use split_ring::SplitRing;
use std::alloc::Global;

/// The bytes that the guest can address.
const SIZE: u64 = 1 << 52;

/// Where the queue lies in its memory.
const LAYOUT: Layout = Layout {
    size: 256,
    desc: 0x1_0000,
    driver: 0x1_2000,
    device: 0x1_3000,
    first_available: FIRST_INDEX,
    first_used: FIRST_INDEX,
};

/// Loads bytes, so many times.
#[unsafe(no_mangle)]
pub extern "C" fn bus_load(map: u64, addr: u64, times: u64, out: &mut [u8]) {
    let mut bus = HostBus::new(map);
    for _time in 0..times {
        bus.load(addr, out);
    }
}

/// Stores bytes, so many times.
#[unsafe(no_mangle)]
pub extern "C" fn bus_store(map: u64, addr: u64, times: u64, bytes: &[u8]) {
    let mut bus = HostBus::new(map);
    for _time in 0..times {
        bus.store(addr, bytes);
    }
}

/// Serves a queue, split or packed: each chain is answered by the bytes that it brings. Ends once so many were used, or once it
/// looked so many times. A queue that a fault broke is opened anew.
#[unsafe(no_mangle)]
pub extern "C" fn bus_echo(
    alloc: Global,
    map: u64,
    packed: bool,
    chains: u64,
    looks: u64,
    echoed: &mut Echoed,
) {
    let Ok(mut memory) = LiveMem::new(alloc, HostBus::new(map), SIZE) else {
        return;
    };
    let mut seen = Echoed {
        chains: 0,
        notices: 0,
        faults: 0,
    };
    for _opening in 0..looks {
        if seen.chains >= chains || seen.faults >= looks {
            break;
        }
        if packed {
            if let Ok(ring) = PackedRing::new(alloc, 2, LAYOUT, 0, &memory) {
                open_and_echo(ring, &mut memory, chains, looks, &mut seen);
            }
        } else {
            if let Ok(ring) = SplitRing::new(alloc, 2, LAYOUT, 0, &memory) {
                open_and_echo(ring, &mut memory, chains, looks, &mut seen);
            }
        }
    }
    *echoed = seen;
}
