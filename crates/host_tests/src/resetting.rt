//! A host whose operator resets a unit.

ghost use Rattle.workers.specs.Ledgers.{Opens};

use crate::guest::{are_answered, ask, written};
use crate::runs::{FIRST, Left, start, summed};
use std::alloc::Global;
use std::marker::Brand;
use std::sync::Wait;
use std::sync::ledger::{Blank, Ledger};
use std::thread::Threads;
use test_guest::Chain;
use workers::{Host, Open, Weighing};

/// An event buffer.
const BUFFER: Chain = Chain {
    queue: 1,
    bytes: &[],
    readable: 0,
    writable: 16,
    ..FIRST
};

/// The news of a reset that a guest gets.
#[derive(Clone, Copy, PartialEq, Eq)]
pub struct Told {
    /// The event that its buffer got.
    pub event: [u8; 16],
    /// The first bytes of the answer to a request for the unit, as far as the additional sense code qualifier.
    pub answer: [u8; 26],
}

/// Has the operator reset a unit before the guest gives an event buffer. Returns what the guest is told, and what the
/// host left.
pub(crate) fn reset<R: Threads + Wait + Copy + Send + 'static>(
    rt: R,
    alloc: Global,
    workers: u16,
) -> Option<(Told, Option<Left>)> {
    reset_with::<Brand, Brand, R>(rt, alloc, workers, Blank::new(64), Blank::new(73))
}

/// Does what [`reset`] does, with these ledgers.
fn reset_with<C, D, R>(
    rt: R,
    alloc: Global,
    workers: u16,
    acts: Blank,
    receipts: Blank,
) -> Option<(Told, Option<Left>)>
where
    C: Ledger + Weighing + Send + Sync + 'static,
    D: Ledger + Send + Sync + 'static,
    R: Threads + Wait + Copy + Send + 'static,
    requires acts { Opens acts.name acts.parts C.name C.parts 64 }
    requires receipts { Opens receipts.name receipts.parts D.name D.parts 73 }
{
    let mut host: Host<Open, C, D> = start(rt, alloc, Open, workers, 1, acts, receipts)?;
    let done = host.operator(&rt, 0);
    ask(&rt, &host, BUFFER);
    ask(&rt, &host, FIRST);
    let came = are_answered(&rt, &host, BUFFER.queue, 1)
        && are_answered(&rt, &host, FIRST.queue, 1);
    let event = written(&rt, &host, BUFFER.queue, 0);
    let answer = written(&rt, &host, FIRST.queue, 0);
    let left = summed(host.close(&rt));
    if done.is_err() || !came {
        return None;
    }
    let told = Told {
        event: event?,
        answer: answer?,
    };
    Some((told, left))
}
