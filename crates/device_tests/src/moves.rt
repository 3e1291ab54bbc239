//! Lists of events that a table can hold.

use foundation::NoMemory;
use std::alloc::Global;
use world::{Event, World};

/// An event of the device, of its operator or of its guest.
#[derive(Clone, Copy)]
pub enum Move {
    Poke(u64, &'static [u8]),
    Fetch(u16),
    Enter(u16),
    Direct(u16),
    Put(u16),
    Take(u16),
    Commit(u16),
    Answer(u16),
    Leave(u16),
    Mark,
    Check,
    AnswerTmf,
    Hard(u16),
    Raise,
}

/// Makes the event of the guest's write.
fn poke(alloc: Global, addr: u64, bytes: &[u8]) -> Result<Event, NoMemory> {
    match Vec::from_slice(alloc, bytes) {
        Ok(bytes) => Ok(Event::Poke(addr, bytes)),
        Err(_) => Err(NoMemory),
    }
}

/// Returns the event that a move names.
fn event(alloc: Global, named: Move) -> Result<Event, NoMemory> {
    Ok(match named {
        Move::Poke(addr, bytes) => return poke(alloc, addr, bytes),
        Move::Fetch(queue) => Event::Fetch(queue),
        Move::Enter(queue) => Event::Enter(queue),
        Move::Direct(queue) => Event::Direct(queue),
        Move::Put(seat) => Event::Put(seat),
        Move::Take(seat) => Event::Take(seat),
        Move::Commit(seat) => Event::Commit(seat),
        Move::Answer(seat) => Event::Answer(seat),
        Move::Leave(seat) => Event::Leave(seat),
        Move::Mark => Event::Mark,
        Move::Check => Event::Check,
        Move::AnswerTmf => Event::AnswerTmf,
        Move::Hard(unit_index) => Event::Hard(unit_index),
        Move::Raise => Event::Raise,
    })
}

/// Returns the events that moves name.
pub(crate) fn events(alloc: Global, moves: &[Move]) -> Result<Vec<Event>, NoMemory> {
    let mut events = Vec::new(alloc);
    for named in moves {
        let event = event(alloc, *named)?;
        if events.push(event).is_err() {
            return Err(NoMemory);
        }
    }
    Ok(events)
}

/// Takes events one after another, and returns how many change something. It has no contract, so that what `run`
/// promises is read once.
fn run_all(world: &mut World, events: &[Event]) -> Result<u64, NoMemory> {
    Ok(world.run(events)?)
}

/// Takes moves one after another, and returns how many change something.
pub(crate) fn run(alloc: Global, world: &mut World, moves: &[Move]) -> Result<u64, NoMemory> {
    let events = events(alloc, moves)?;
    run_all(world, events.as_slice())
}

/// Takes an event, and returns true if it changes something. It has no contract, so that what `step` promises is read
/// once.
fn take(world: &mut World, event: Event) -> Result<bool, NoMemory> {
    Ok(world.step(event)?)
}

/// Takes a move as a step, and returns true if it changes something.
pub(crate) fn step(alloc: Global, world: &mut World, named: Move) -> Result<bool, NoMemory> {
    take(world, event(alloc, named)?)
}

/// Returns the events of the device on a queue and a seat, and the operator's on the unit at an index.
fn all_of(queue: u16, seat: u16, unit_index: u16) -> [Move; 13] {
    [
        Move::Fetch(queue),
        Move::Enter(queue),
        Move::Direct(queue),
        Move::Put(seat),
        Move::Take(seat),
        Move::Commit(seat),
        Move::Answer(seat),
        Move::Leave(seat),
        Move::Mark,
        Move::Check,
        Move::AnswerTmf,
        Move::Hard(unit_index),
        Move::Raise,
    ]
}

/// Takes each of these as a step, and returns how many change something.
pub(crate) fn step_all(
    alloc: Global,
    world: &mut World,
    queue: u16,
    seat: u16,
    unit_index: u16,
) -> Result<u64, NoMemory> {
    let moves = all_of(queue, seat, unit_index);
    let mut count: u64 = 0;
    for number in 0..moves.len() {
        if step(alloc, world, moves[number])? {
            count = count.saturating_add(1);
        }
    }
    Ok(count)
}
