//! The hand-off, over its public calls.

ghost use Rattle.handoff.specs.Seats.{IsSeatOf, IsSameSeat};

use crate::port::Ports;
use handoff::{Handoff, Seat};
use logical_unit::Job;
use std::alloc::Global;
use std::sync::Wait;
use std::test::Fail;

/// Returns the identifier of a job, where there is one.
fn id_of(job: Option<Job>) -> Option<u64> {
    Some(job?.id())
}

/// Puts jobs with these identifiers, up to the first that comes back, whose identifier it answers.
fn put_all<R: Wait>(
    rt: &R,
    handoff: &Handoff,
    seat: &mut Seat,
    ports: &mut Ports,
    ids: &[u64],
) -> Option<u64>
    requires { IsSeatOf handoff.now seat.old }
    ensures { IsSameSeat seat.old seat.new }
{
    for id in ids {
        let Some(job) = ports.job(*id) else {
            return None;
        };
        if let Err(back) = handoff.put(rt, seat, job) {
            return Some(back.id());
        }
    }
    None
}

/// Puts two jobs into a queue of one. Returns the one that comes back, the one that is taken then, and the next.
fn overfill<R: Wait>(rt: &R, alloc: Global) -> Result<[Option<u64>; 3], Fail> {
    let (handoff, mut seats) = Handoff::new(alloc, 1, 1)?;
    let Some(mut ports) = Ports::new(alloc) else {
        return Ok([None; 3]);
    };
    let Some(mut seat) = seats.pop() else {
        return Ok([None; 3]);
    };
    let back = put_all(rt, &handoff, &mut seat, &mut ports, &[7, 8]);
    let taken = id_of(handoff.take(rt, &mut seat));
    Ok([back, taken, id_of(handoff.take(rt, &mut seat))])
}

/// Puts jobs with these identifiers by one seat, and takes two by another. The identifiers of those.
fn pass_on<R: Wait>(
    rt: &R,
    handoff: &Handoff,
    from: &mut Seat,
    to: &mut Seat,
    ports: &mut Ports,
    ids: &[u64],
) -> (Option<u64>, Option<u64>)
    requires { IsSeatOf handoff.now from.old × IsSeatOf handoff.now to.old }
    ensures from { IsSameSeat from.old from.new }
    ensures to { IsSameSeat to.old to.new }
{
    if put_all(rt, handoff, from, ports, ids).is_some() {
        return (None, None);
    }
    let first = id_of(handoff.take(rt, to));
    (first, id_of(handoff.take(rt, to)))
}

/// Puts two jobs by one seat, takes them by another, and returns them once the seats are gathered.
fn hand_over<R: Wait>(rt: &R, alloc: Global) -> Result<(Option<u64>, Option<u64>), Fail> {
    let (handoff, mut seats) = Handoff::new(alloc, 2, 2)?;
    let Some(mut ports) = Ports::new(alloc) else {
        return Ok((None, None));
    };
    let (Some(mut second), Some(mut first)) = (seats.pop(), seats.pop()) else {
        return Ok((None, None));
    };
    let taken = pass_on(rt, &handoff, &mut first, &mut second, &mut ports, &[7, 8]);
    seats.push(first)?;
    seats.push(second)?;
    handoff.gather(seats);
    Ok(taken)
}

/// Gathers nine seats.
fn gather_nine(alloc: Global) -> Result<(), Fail> {
    let (handoff, seats) = Handoff::new(alloc, 4096, 9)?;
    handoff.gather(seats);
    Ok(())
}

/// Takes what may go to another thread.
fn goes_to_a_thread<T: Send + 'static>(_value: &T) {}

/// Takes a seat, which may go to a thread. So each thread can have its own.
fn may_go(seat: &Seat) {
    goes_to_a_thread(seat)
}

/// Sends a seat to another thread.
fn let_go(alloc: Global) -> Result<(), Fail> {
    let (_handoff, mut seats) = Handoff::new(alloc, 1, 2)?;
    match seats.pop() {
        Some(seat) => Ok(may_go(&seat)),
        None => Err(Fail::from("no seat")),
    }
}

#[test]
fn jobs_are_handed_over(rt: HostRuntime) -> Result<(), Fail> {
    // A full queue gives the job back, and jobs come out in their order.
    let overfilled = overfill(&rt, rt.alloc())?;
    let handed_over = hand_over(&rt, rt.alloc())?;
    assert!(rt; overfilled == [Some(8), Some(7), None] && handed_over == (Some(7), Some(8)));
    gather_nine(rt.alloc())?;
    let_go(rt.alloc())
}
