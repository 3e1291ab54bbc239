//! The pages of a WRITE, made before its commit.

ghost use Rattle.std.specs.Prelude.{◌≡◌};
ghost use Rattle.phases.specs.Parts.{hand_of};

use crate::hand::Hand;
use logical_unit::{StartedWrite, UnitState};

/// Copies what the pages of the WRITE in the hand need from its unit, which the caller found by the hand; the unit
/// stays as it is. `None` where no job is in the hand that is to be committed, or its unit gives nothing for it
/// (`UnitState::start_pages`).
pub fn phase_start_pages(unit: &mut UnitState, hand: &Hand) -> Option<StartedWrite>
    ensures { unit.new ≡ unit.old }
{
    match hand {
        Hand::Job(held) => {
            if held.is_over() {
                return None;
            }
            unit.start_pages(held.job())
        }
        Hand::Empty | Hand::Answered(_, _) => None,
    }
}

/// Makes the pages of the WRITE in the hand of what was copied for them, with no lock held. Where memory is refused, it
/// is committed without.
pub fn phase_prepare(hand: &mut Hand, started: StartedWrite)
    ensures { hand_of hand.new ≡ hand_of hand.old }
{
    match hand {
        Hand::Job(held) => held.prepare(started),
        Hand::Empty | Hand::Answered(_, _) => {}
    }
}
