//! The counts of what a unit did, for C.

ghost use Rattle.std.specs.Prelude.{◌≡◌};
ghost use Rattle.c_calls.specs.Counts.{TellsCounts, counts_in};

use crate::answer::Answer;
use crate::served::Served;
use unit_model::Counts;

/// The counts of what a unit did since its device was made: the header's `struct vscsi_counts`.
#[repr(C)]
#[derive(Clone, Copy)]
pub struct UnitCounts {
    pub left: u64,
    pub full: u64,
    pub good: u64,
    pub check_conditions: u64,
    pub busy: u64,
    pub data_out: u64,
    pub data_in: u64,
}

impl UnitCounts {
    /// Makes the counts as C has them.
    pub(crate) fn of(counts: Counts) -> UnitCounts
        ensures { counts_in result ≡ counts }
    {
        UnitCounts {
            left: counts.left,
            full: counts.full,
            good: counts.good,
            check_conditions: counts.check_conditions,
            busy: counts.busy,
            data_out: counts.data_out,
            data_in: counts.data_in,
        }
    }
}

impl Served {
    /// Tells how much a unit did.
    pub(crate) fn counts(&mut self, target: u8, lun: u16, counts: &mut UnitCounts) -> Answer
        ensures { TellsCounts target lun counts.old counts.new self.old result self.new }
    {
        match self.world.unit(target, lun) {
            Some(unit) => {
                *counts = UnitCounts::of(unit.counts());
                Answer::Done
            }
            None => Answer::NoUnit,
        }
    }
}
