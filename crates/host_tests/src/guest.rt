//! The guest of a small device, beside its workers.

use ring_core::Layout;
use std::alloc::Global;
use std::sync::Wait;
use std::sync::ledger::Ledger;
use std::thread;
use test_guest::{Buffers, Chain, Pokes, layout, send};
use workers::{Gate, Host, Weighing};

/// The control queue, the event queue, and three request queues, each in a page of its own.
const QUEUES: u16 = 5;

/// The pages of its memory.
pub(crate) const PAGES: u32 = 16;

/// The place of the guest's buffers.
const BUFFERS: Buffers = Buffers {
    first: 20480,
    of_queue: 8192,
    of_chain: 2048,
    response: 1024,
};

/// The bytes of a request before its data (VIRTIO 1.2 §5.6.6.1).
const DATA: u64 = 51;

/// The number of looks that the guest takes for an answer.
const LOOKS: u32 = 100_000_000;

/// Returns the layouts of the queues.
pub(crate) fn layouts(alloc: Global) -> Option<Vec<Layout>> {
    let mut layouts = Vec::new(alloc);
    for number in 0..QUEUES {
        layouts.push(layout(number)).ok()?;
    }
    Some(layouts)
}

/// The guest of a host.
#[derive(Drop)]
struct Guest<'a, R: Wait, G: Gate + Drop, C: Ledger + Weighing, D: Ledger> {
    rt: &'a R,
    host: &'a Host<G, C, D>,
}

impl<'a, R: Wait, G: Gate + Drop, C: Ledger + Weighing, D: Ledger> Pokes for Guest<'a, R, G, C, D> {
    fn poke(&mut self, addr: u64, bytes: &[u8]) -> bool {
        self.host.poke(self.rt, addr, bytes).is_ok()
    }
}

/// Writes a block of equal bytes, as the guest, where a chain that is a WRITE has its data.
pub(crate) fn fill<R: Wait, G: Gate + Drop, C: Ledger + Weighing, D: Ledger>(
    rt: &R,
    host: &Host<G, C, D>,
    chain: Chain,
    byte: u8,
) {
    let data = BUFFERS.readable_at(chain.queue, chain.number) + DATA;
    let _ = Guest { rt, host }.poke(data, &[byte; 512]);
}

/// Makes a chain available, as the guest.
pub(crate) fn ask<R: Wait, G: Gate + Drop, C: Ledger + Weighing, D: Ledger>(
    rt: &R,
    host: &Host<G, C, D>,
    chain: Chain,
) {
    let _ = send(&mut Guest { rt, host }, BUFFERS, chain);
    host.kick(rt);
}

/// Returns so many bytes from an address on; `None` where they aren't all there.
fn bytes<R: Wait, G: Gate + Drop, C: Ledger + Weighing, D: Ledger, const N: usize>(
    rt: &R,
    host: &Host<G, C, D>,
    addr: u64,
) -> Option<[u8; N]> {
    let mut bytes = [0; N];
    host.peek(rt, addr, &mut bytes).ok()?;
    Some(bytes)
}

/// Returns true once so many chains of a queue are answered; false where the guest looked often enough and they aren't.
pub(crate) fn are_answered<R: Wait, G: Gate + Drop, C: Ledger + Weighing, D: Ledger>(
    rt: &R,
    host: &Host<G, C, D>,
    queue: u16,
    count: u8,
) -> bool {
    for _ in 0..LOOKS {
        if bytes(rt, host, layout(queue).device + 2) == Some([count]) {
            return true;
        }
        thread::yield_now();
    }
    false
}

/// Returns the first bytes that the device wrote into a chain.
pub(crate) fn written<R: Wait, G: Gate + Drop, C: Ledger + Weighing, D: Ledger, const N: usize>(
    rt: &R,
    host: &Host<G, C, D>,
    queue: u16,
    number: u8,
) -> Option<[u8; N]> {
    bytes(rt, host, BUFFERS.writable_at(queue, number))
}
