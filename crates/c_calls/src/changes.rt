//! Tells C which blocks of a unit may have changed.

ghost use Rattle.std.specs.Prelude.{◌≡◌, ◌≤◌, length, map, take};
ghost use Rattle.c_calls.specs.Changes.{TellsChanges, range_of};

use crate::answer::Answer;
use crate::ranges::{BlockRange, Told};
use crate::served::Served;
use logical_unit::Range;

/// The most ranges that a unit keeps apart.
const MOST_RANGES: usize = 64;

/// Puts ranges at the beginning of room that is long enough.
pub(crate) fn put_ranges(ranges: &[Range], room: &mut [BlockRange])
    requires { length ranges.now ≤ length room.old }
    ensures ranges { map range_of (take (length ranges.now) room.new) ≡ ranges.now }
    ensures length { length room.new ≡ length room.old }
{
    for k in 0..ranges.len() {
        room[k] = BlockRange {
            first: ranges[k].first,
            count: ranges[k].count,
        };
    }
}

impl Served {
    /// Tells which blocks of a unit may have changed since a place of its history.
    pub(crate) fn changed(
        &mut self,
        target: u8,
        lun: u16,
        told: &mut Told,
        room: &mut [BlockRange],
    ) -> Answer
        ensures { TellsChanges target lun told.old room.old told.new room.new self.old result self.new }
    {
        if room.len() < MOST_RANGES {
            return Answer::BadLength;
        }
        let Some(place) = self.place_of_history(target, lun) else {
            return Answer::NoUnit;
        };
        let Some(changes) = self.world.take_changes(target, lun) else {
            return Answer::NoUnit;
        };
        put_ranges(changes.ranges(), room);
        *told = Told {
            place,
            count: changes.ranges().len() as u64,
            all: changes.since() > told.place,
        };
        Answer::Done
    }
}
