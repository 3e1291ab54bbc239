//! Memory of a guest that runs.

use super::none_is;
use guest_mem::{GuestMem, Memory, WritableMemory};
use live_mem::{Bus, LiveMem};
use std::test::Fail;

/// A bus to bytes that change: the first byte that a load gives is one more for the next.
#[derive(Drop)]
struct RestlessBus {
    bytes: GuestMem,
}

impl Bus for RestlessBus {
    fn begin(&mut self) {}

    fn load(&mut self, addr: u64, out: &mut [u8]) {
        let _ = self.bytes.read(addr, out);
        if let Some(first) = out.first() {
            let next = [first.wrapping_add(1)];
            let _ = self.bytes.write(addr, &next);
        }
    }

    fn store(&mut self, addr: u64, bytes: &[u8]) {
        let _ = self.bytes.write(addr, bytes);
    }
}

/// Two reads of four bytes in a phase of its own: where, and what each gives.
struct Phase {
    addr: u64,
    gives: [u8; 4],
    then: u64,
    gives_then: [u8; 4],
}

/// Phases of a new memory. A byte that was read in the phase stays as it was, and one read whole isn't asked for again. In the
/// next phase it may have changed.
static PHASES: [Phase; 3] = [
    Phase {
        addr: 8,
        gives: [0, 0, 0, 0],
        then: 7,
        gives_then: [0, 0, 0, 0],
    },
    Phase {
        addr: 7,
        gives: [1, 1, 0, 0],
        then: 7,
        gives_then: [1, 1, 0, 0],
    },
    Phase {
        addr: 40,
        gives: [0, 0, 0, 0],
        then: 7,
        gives_then: [2, 1, 0, 0],
    },
];

/// Reads twice in a phase. Returns true if both reads give what they should.
fn reads(memory: &mut LiveMem<RestlessBus>, phase: &Phase) -> bool {
    if memory.size() < 64 || phase.addr > 40 || phase.then > 40 {
        return false;
    }
    let mut out = [7; 4];
    let mut again = [7; 4];
    memory.begin();
    memory.read(phase.addr, &mut out);
    memory.read(phase.then, &mut again);
    out == phase.gives && again == phase.gives_then
}

/// Returns true if what is written is read in the next phase.
fn writes(memory: &mut LiveMem<RestlessBus>) -> bool {
    if memory.size() < 64 {
        return false;
    }
    let mut out = [7; 4];
    memory.write(20, &[9, 8, 7, 6]);
    memory.begin();
    memory.read(20, &mut out);
    out == [9, 8, 7, 6]
}

/// Returns true if a long read gives what was written, and what the phase read once stays as it was.
fn reads_long(memory: &mut LiveMem<RestlessBus>) -> bool {
    if memory.size() < 64 {
        return false;
    }
    let mut long = [7; 24];
    let mut again = [7; 24];
    memory.begin();
    memory.try_read(8, &mut long).is_ok()
        && memory.try_read(8, &mut again).is_ok()
        && long[12..16] == [10, 8, 7, 6]
        && long == again
}

/// Returns the number of the first phase that reads what it shouldn't, from 0; behind them that of the write and of a
/// long read.
fn first_wrong(memory: &mut LiveMem<RestlessBus>) -> Option<usize> {
    for number in 0..PHASES.len() {
        if !reads(memory, &PHASES[number]) {
            return Some(number);
        }
    }
    if writes(memory) && reads_long(memory) {
        None
    } else {
        Some(PHASES.len())
    }
}

/// Returns true if runs are claimed that lie apart, and others aren't.
fn claims_apart(memory: &mut LiveMem<RestlessBus>) -> bool {
    if memory.size() < 256 {
        return false;
    }
    memory.begin();
    memory.claim(100, 20) && memory.claim(130, 4) && memory.claim(90, 10) && !memory.claim(119, 1)
}

/// Returns true if what is claimed is read in its order, once, and nothing else then.
fn reads_claims(memory: &mut LiveMem<RestlessBus>) -> bool {
    if memory.size() < 256 {
        return false;
    }
    let mut first = [7; 20];
    let mut second = [7; 4];
    memory.begin();
    memory.claim(100, 20)
        && memory.claim(130, 4)
        && memory.read_claimed(130, &mut second).is_err()
        && memory.read_claimed(100, &mut first).is_ok()
        && memory.try_read(200, &mut second).is_err()
        && !memory.claim(200, 4)
        && memory.read_claimed(130, &mut second).is_ok()
        && memory.read_claimed(130, &mut second).is_err()
        && first == [0; 20]
        && second == [0; 4]
}

/// Returns true if what the phase read isn't claimed, and what is claimed is given up for another read.
fn claims_what_is_unread(memory: &mut LiveMem<RestlessBus>) -> bool {
    if memory.size() < 256 {
        return false;
    }
    let mut out = [7; 4];
    memory.begin();
    memory.try_read(100, &mut out).is_ok()
        && out == [1, 0, 0, 0]
        && !memory.claim(98, 4)
        && !memory.claim(103, 4)
        && memory.claim(96, 4)
        && memory.claim(104, 4)
        && memory.try_read(96, &mut out).is_ok()
        && memory.read_claimed(104, &mut out).is_err()
}

#[test]
fn claims(rt: HostRuntime) -> Result<(), Fail> {
    let bytes = GuestMem::new(rt.alloc(), 1)?;
    let mut memory = LiveMem::new(rt.alloc(), RestlessBus { bytes }, 4096)?;
    assert!(rt; claims_apart(&mut memory));
    assert!(rt; reads_claims(&mut memory));
    assert!(rt; claims_what_is_unread(&mut memory));
    Ok(())
}

#[test]
fn live_memory(rt: HostRuntime) -> Result<(), Fail> {
    let bytes = GuestMem::new(rt.alloc(), 1)?;
    let mut memory = LiveMem::new(rt.alloc(), RestlessBus { bytes }, 4096)?;
    none_is(&rt, first_wrong(&mut memory));
    Ok(())
}
