//! The output of the program.

ghost use Rattle.workers.specs.Ledgers.{Opens};

use crate::device::{Alone, Hosted};
use crate::failure::Failure;
use crate::guest::Guest;
use crate::work::{KINDS, Work};
use ring_core::Form;
use std::alloc::Global;
use std::marker::Brand;
use std::rt::Clock;
use std::sync::Wait;
use std::sync::ledger::{Blank, Ledger};
use std::thread::Threads;
use std::time::{Duration, Instant};
use workers::Weighing;

/// The depth, the rounds and the numbers of workers of which all kinds are served where no words say more.
const DEPTH: u16 = 4;

const ROUNDS: u64 = 3;

const WORKERS: [u16; 2] = [0, 2];

/// Returns the word that names a form.
fn word_of(form: Form) -> &'static str {
    match form {
        Form::Split => "split",
        Form::Packed => "packed",
    }
}

/// Returns the exit status of what went wrong.
fn status_of(failure: Failure) -> u8 {
    match failure {
        Failure::NotServed => 1,
        Failure::NoMemory => 3,
    }
}

/// The number of requests that ended well, and the time that all took, where there is a clock.
#[derive(Drop)]
struct Done {
    good: u64,
    took: Option<Duration>,
}

/// Returns how long it is since a moment.
fn elapsed<R: Clock>(rt: &R, start: Option<Instant>) -> Option<Duration> {
    start?.elapsed(rt).ok()
}

/// Has the device of one thread serve the guest.
fn serve_alone<R: Clock>(rt: &R, alloc: Global, work: &Work) -> Result<Done, Failure> {
    let mut device = Alone::new(alloc, work)?;
    let guest = Guest::new(alloc, &mut device, work)?;
    let start = Instant::now(rt).ok();
    let good = guest.serve(&mut device)?;
    Ok(Done {
        good,
        took: elapsed(rt, start),
    })
}

/// Has a host of so many workers serve the guest, and closes it.
fn serve_hosted<R: Clock + Threads + Wait + Copy + Send + 'static>(
    rt: &R,
    alloc: Global,
    work: &Work,
) -> Result<Done, Failure> {
    serve_hosted_with::<Brand, Brand, R>(rt, alloc, work, Blank::new(64), Blank::new(73))
}

/// Does the same with these ledgers.
fn serve_hosted_with<C, D, R>(
    rt: &R,
    alloc: Global,
    work: &Work,
    acts: Blank,
    receipts: Blank,
) -> Result<Done, Failure>
where
    C: Ledger + Weighing + Send + Sync + 'static,
    D: Ledger + Send + Sync + 'static,
    R: Clock + Threads + Wait + Copy + Send + 'static,
    requires acts { Opens acts.name acts.parts C.name C.parts 64 }
    requires receipts { Opens receipts.name receipts.parts D.name D.parts 73 }
{
    let mut device: Hosted<'_, R, C, D> = Hosted::new(rt, alloc, work, acts, receipts)?;
    let guest = Guest::new(alloc, &mut device, work);
    let start = Instant::now(rt).ok();
    let good = match guest {
        Ok(guest) => guest.serve(&mut device),
        Err(_) => Err(Failure::NoMemory),
    };
    let took = elapsed(rt, start);
    if !device.close() {
        return Err(Failure::NotServed);
    }
    Ok(Done { good: good?, took })
}

/// Does some work.
fn serve<R: Clock + Threads + Wait + AllocGlobal + Copy + Send + 'static>(
    rt: &R,
    work: &Work,
) -> Result<Done, Failure> {
    if work.workers == 0 {
        serve_alone(rt, rt.alloc(), work)
    } else {
        serve_hosted(rt, rt.alloc(), work)
    }
}

/// Does some work, and prints how many requests ended well and how many nanoseconds all took: the exit status.
pub(crate) fn tell<R: Clock + Threads + Wait + Print + AllocGlobal + Copy + Send + 'static>(
    rt: &R,
    work: &Work,
) -> u8 {
    let Done { good, took } = match serve(rt, work) {
        Ok(done) => done,
        Err(failure) => return status_of(failure),
    };
    let Some(took) = took else {
        return 4;
    };
    if println!(rt; "{good} requests in {} ns", took.as_nanos()).is_err() {
        return 4;
    }
    0
}

/// Serves a few rounds of each kind on each ring, by one thread and by workers, and prints how many requests ended
/// well: the exit status.
pub(crate) fn tell_all<R: Clock + Threads + Wait + Print + AllocGlobal + Copy + Send + 'static>(
    rt: &R,
) -> u8 {
    for workers in WORKERS {
        for form in [Form::Split, Form::Packed] {
            for kind in KINDS {
                let work = Work {
                    kind,
                    form,
                    depth: DEPTH,
                    rounds: ROUNDS,
                    workers,
                };
                let Done { good, .. } = match serve(rt, &work) {
                    Ok(done) => done,
                    Err(failure) => return status_of(failure),
                };
                let (kind, form) = (kind.word(), word_of(form));
                if println!(rt; "{kind} {form} by {workers}: {good}").is_err() {
                    return 4;
                }
            }
        }
    }
    0
}
