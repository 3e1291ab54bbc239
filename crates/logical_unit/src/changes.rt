//! The blocks of a unit that may have changed.

ghost use Rattle.std.specs.Prelude.{◌≡◌, ℕ, ◌+◌, ◌-◌, ◌*◌, ◌<◌, ◌≤◌, ◌^◌, Bool, false, List, [], length, is_some, nat_le, ◌&&◌, ◌||◌};
ghost use Rattle.block_store.specs.Blocks.{Blocks, is_within};
ghost use Rattle.command_model.specs.Effects.{given, wide_given};
ghost use Rattle.command_model.specs.UnmapList.{descriptors_in, descriptors, is_named};
ghost use Rattle.logical_unit.specs.Changes.{is_in};
ghost use Rattle.logical_unit.specs.Inner.Noting.{Notes};

use arrayvec::ArrayVec;
use block_commands::{UNMAP_HEADER_BYTES, extent_at, taken_descriptors};
use cdb::{Command, WideCommand};
use std::marker::Model;

/// The most ranges that are kept apart.
const MOST_RANGES: usize = 64;

/// Blocks that follow one another.
#[derive(Clone, Copy, Default)]
pub struct Range {
    /// The first block.
    pub first: u64,
    /// The number of blocks.
    pub count: u64,
}

impl Range {
    /// Returns the block behind the last, or the highest number there is.
    fn end(self) -> u64
        ensures is { (b : ℕ) → b + 1 < 2 ^ 64 → is_within self.first self.count b ≡ (nat_le self.first b && nat_le (b + 1) result) }
        ensures low { self.first ≤ result }
    {
        self.first.saturating_add(self.count)
    }

    /// Returns whether two ranges overlap, or one begins where the other ends.
    fn meets(self, other: Range) -> bool {
        self.first <= other.end() && other.first <= self.end()
    }

    /// Returns the range from the first block of both to the last.
    fn joined(self, other: Range) -> Range
        ensures { (b : ℕ) → b + 1 < 2 ^ 64 → is_within result.first result.count b ≡ false
            → (is_within self.first self.count b || is_within other.first other.count b) ≡ false }
    {
        let first = self.first.min(other.first);
        let end = self.end().max(other.end());
        Range {
            first,
            count: end - first,
        }
    }
}

/// The blocks of a unit that may have changed: at most 64 ranges, and the place of its history from which on no other
/// block has changed. Clauses see these two. [`crate::UnitState::take_changes`] gives it.
#[derive(Drop)]
pub struct Changes {
    since: u64,
    ranges: ArrayVec<Range, MOST_RANGES>,
}

impl Model for Changes {
    ghost use Rattle.logical_unit.specs.Changes.{PlainChanges};

    ghost Value = { PlainChanges };

    ghost view = { λ c. record { since = c.since; ranges = c.ranges.items } };
}

impl Changes {
    /// Makes one where nothing has changed since a place of the history.
    pub(crate) fn since_place(place: u64) -> Changes
        ensures since { result.since ≡ place }
        ensures ranges { result.ranges ≡ [] }
    {
        Changes {
            since: place,
            ranges: ArrayVec::new(),
        }
    }

    /// Returns the place of the unit's history from which on each block outside the ranges is unchanged. It is the
    /// place of the last call of [`crate::UnitState::take_changes`], 0 where there was none, or a later one where there
    /// were more than 64 ranges. No clause says that it isn't later still: so a caller compares it with the place of its
    /// own last call before it looks at the ranges.
    pub fn since(&self) -> u64
        ensures { result ≡ self.now.since }
    {
        self.since
    }

    /// Returns the ranges, at most 64, the oldest first. They may overlap, and may have blocks that are as before, or
    /// are above the capacity by now.
    pub fn ranges(&self) -> &[Range]
        ensures value { result.now ≡ self.now.ranges }
        ensures few { length result.now ≤ 64 }
    {
        self.ranges.as_slice()
    }

    /// Makes room for so many ranges, at most 64. Where there is none, all that was noted before this place of the
    /// history is forgotten.
    fn make_room(&mut self, count: usize, place: u64)
        requires { count ≤ 64 }
        ensures notes { (capacity : ℕ) → Notes (λ b. false) capacity place self.old self.new }
        ensures free { length self.new.ranges + count ≤ 64 }
        ensures same { length self.old.ranges + count ≤ 64 → self.new ≡ self.old }
    {
        if self.ranges.remaining_capacity() < count {
            self.ranges.clear();
            self.since = place;
        }
    }

    /// Notes a range, for which there is room: joined with the last where they meet.
    fn add(&mut self, range: Range)
        requires { length self.old.ranges < 64 }
        ensures since { self.new.since ≡ self.old.since }
        ensures covers { (b : ℕ) → b + 1 < 2 ^ 64 → is_in self.new.ranges b ≡ false
            → (is_in self.old.ranges b || is_within range.first range.count b) ≡ false }
        ensures more { length self.new.ranges ≤ length self.old.ranges + 1 }
    {
        match self.ranges.pop() {
            None => self.ranges.push(range),
            Some(last) => {
                if last.meets(range) {
                    self.ranges.push(last.joined(range));
                } else {
                    self.ranges.push(last);
                    self.ranges.push(range);
                }
            }
        }
    }

    /// Notes those of a range's blocks that lie below the capacity, for which there is room.
    fn add_below(&mut self, first: u64, count: u64, capacity: u64)
        requires { length self.old.ranges < 64 }
        ensures since { self.new.since ≡ self.old.since }
        ensures covers { (b : ℕ) → b < capacity → is_in self.new.ranges b ≡ false
            → (is_in self.old.ranges b || is_within first count b) ≡ false }
        ensures more { length self.new.ranges ≤ length self.old.ranges + 1 }
    {
        if first < capacity && count > 0 {
            self.add(Range {
                first,
                count: count.min(capacity - first),
            });
        }
    }

    /// Notes the blocks of a range below the capacity, as changed by the step of this place.
    fn note(&mut self, first: u64, count: u64, capacity: u64, place: u64)
        ensures notes { Notes (is_within first count) capacity place self.old self.new }
        ensures same { length self.old.ranges < 64 → self.new.since ≡ self.old.since }
    {
        self.make_room(1, place);
        self.add_below(first, count, capacity);
    }

    /// Notes the blocks that a unit gets, where it gets another capacity by the step of this place.
    pub(crate) fn note_growth(&mut self, old: u64, new: u64, place: u64)
        ensures notes { Notes (is_within old (new - old)) new place self.old self.new }
        ensures same { length self.old.ranges < 64 → self.new.since ≡ self.old.since }
    {
        self.note(old, new.saturating_sub(old), new, place);
    }

    /// Notes the blocks below the capacity that the descriptors of an UNMAP's parameter list name, as changed by the
    /// step of this place.
    #[inline(never)]
    fn note_unmap(&mut self, list: &[u8], capacity: u64, place: u64)
        ensures { Notes (is_named (descriptors list.now)) capacity place self.old self.new }
    {
        if list.len() < UNMAP_HEADER_BYTES {
            return;
        }
        let count = taken_descriptors(list);
        let (_, taken) = list.split_at(UNMAP_HEADER_BYTES);
        if count > MOST_RANGES {
            self.note(0, capacity, capacity, place);
            return;
        }
        self.make_room(count, place);
        self.add_extents(taken, count, capacity);
    }

    /// Notes the blocks below the capacity of each descriptor, for which there is room.
    fn add_extents(&mut self, taken: &[u8], count: usize, capacity: u64)
        requires fits { 16 * count ≤ length taken.now }
        requires place { length self.old.ranges + count ≤ 64 }
        ensures since { self.new.since ≡ self.old.since }
        ensures covers { (b : ℕ) → b < capacity → is_in self.new.ranges b ≡ false
            → (is_in self.old.ranges b || is_named (descriptors_in count taken.now) b) ≡ false }
    {
        for i in 0..count {
            let extent = extent_at(taken, i);
            self.add_below(extent.lba, u64::from(extent.count), capacity);
        }
    }

    /// Notes the blocks below the capacity that a command changes where it ends with GOOD, as changed by the step of
    /// this place. The unit calls it before it runs the command with these data.
    #[inline(always)]
    pub(crate) fn note_command(
        &mut self,
        command: &Command,
        bytes: &[u8],
        capacity: u64,
        place: u64,
    )
        ensures { (blocks : Blocks) → Notes (λ b. is_some (given command.now bytes.now b (blocks b))) capacity place self.old self.new }
    {
        match *command {
            Command::Write { lba, blocks } => self.note(lba, u64::from(blocks), capacity, place),
            Command::WriteSame { lba, blocks } => {
                self.note(lba, u64::from(blocks), capacity, place)
            }
            Command::CompareAndWrite { lba, blocks } => {
                self.note(lba, u64::from(blocks), capacity, place)
            }
            Command::Unmap { .. } => self.note_unmap(bytes, capacity, place),
            Command::Wide(command) => self.note_wide(&command, capacity, place),
            _ => {}
        }
    }

    /// Notes the same of a command of the wide profile alone.
    #[inline(never)]
    fn note_wide(&mut self, command: &WideCommand, capacity: u64, place: u64)
        ensures { (bytes : List ℕ) (blocks : Blocks) → Notes (λ b. is_some (wide_given command.now bytes b (blocks b))) capacity place
            self.old self.new }
    {
        match *command {
            WideCommand::WriteZeros { blocks, lba } => {
                self.note(lba, u64::from(blocks), capacity, place)
            }
            WideCommand::OrWrite { blocks, lba } => {
                self.note(lba, u64::from(blocks), capacity, place)
            }
            WideCommand::FormatUnit { .. } => self.note(0, capacity, capacity, place),
            _ => {}
        }
    }
}
