//! The positions where queues go on, for C.

ghost use Rattle.std.specs.Prelude.{◌≡◌, ◌==◌};
ghost use Rattle.c_calls.specs.Position.{wrapped_of, told_position, BeginsAt, TellsPosition};
ghost use Rattle.c_calls.specs.Live.{TellsPosition as TellsLivePosition};

use crate::answer::Answer;
use crate::live_served::LiveServed;
use crate::live_wanted::RingPosition;
use crate::served::Served;
use world::Position;

/// Returns whether a side has wrapped, by its wrap counter.
fn wrapped(wrap: bool) -> u8
    ensures told { result ≡ wrapped_of wrap }
    ensures back { (result == 0) ≡ wrap }
{
    if wrap { 0 } else { 1 }
}

impl RingPosition {
    /// Makes the position as C has it.
    fn of(position: Position) -> RingPosition
        ensures told { result ≡ told_position position }
        ensures begins { BeginsAt result position }
    {
        RingPosition {
            available: position.available.index,
            used: position.used.index,
            available_wrapped: wrapped(position.available.wrap),
            used_wrapped: wrapped(position.used.wrap),
        }
    }
}

impl Served {
    /// Tells where a queue goes on.
    pub(crate) fn position(&mut self, queue: u16, position: &mut RingPosition) -> Answer
        ensures { TellsPosition queue position.old position.new self.old result self.new }
    {
        match self.world.position(queue) {
            Some(at) => {
                *position = RingPosition::of(at);
                Answer::Done
            }
            None => Answer::NoQueue,
        }
    }
}

impl LiveServed {
    /// Tells where a queue goes on.
    pub(crate) fn position(&mut self, queue: u16, position: &mut RingPosition) -> Answer
        ensures { TellsLivePosition queue position.old position.new self.old result self.new }
    {
        match self.world.position(queue) {
            Some(at) => {
                *position = RingPosition::of(at);
                Answer::Done
            }
            None => Answer::NoQueue,
        }
    }
}
