//! The steps in which a job's command runs, and its task leaves.

ghost use Rattle.std.specs.Prelude.{◌≡◌, ◌<◌, false, IsTrue, length};
ghost use Rattle.unit_model.specs.Unit.{is_backed};
ghost use Rattle.phases.specs.Parts.{hand_of};
ghost use Rattle.phases.specs.Units.{Commits, Leaves};
ghost use Rattle.phases.specs.Inner.Units.{CommitsOrDefers};
ghost use Rattle.phases.specs.Giving.{KeepsOutcome};

use crate::entering::has_places;
use crate::hand::Hand;
use logical_unit::{JobList, UnitState, Unknown};
use std::mem;

/// Commits the job in the hand at its unit, which the caller found by the hand: its command runs whole, or it was
/// marked, or memory was refused. Returns true if the hand then has what came of it. Nothing changes where no job is in
/// the hand that is to be committed. Nor does it where the job waits for its unit's backed disk, as
/// [`UnitState::commit_ready`] says; then what was made of its WRITE is let go. Where the job's reply is withheld until the
/// host's storage has what its command changed, that command ran, and the job is still to be committed: then its reply is
/// told.
pub fn phase_commit(unit: &mut UnitState, hand: &mut Hand) -> bool
    ensures commits { Commits (hand_of hand.old) unit.old result unit.new (hand_of hand.new) }
    ensures kept { IsTrue result → is_backed unit.old ≡ false → KeepsOutcome hand.old unit.old unit.new hand.new }
{
    match hand {
        Hand::Job(held) => {
            if held.is_over() {
                return false;
            }
            held.commit_if_ready(unit)
        }
        Hand::Empty | Hand::Answered(_, _) => false,
    }
}

/// Commits the job in the hand as [`phase_commit`] does. Where it waits, or its reply does, it goes from the hand behind
/// those that wait, in a list in which the caller sees to it that there is room. Returns true if something changed: not
/// where no job is in the hand that is to be committed.
pub fn phase_commit_or_defer(unit: &mut UnitState, hand: &mut Hand, aside: &mut JobList) -> bool
    requires room { length aside.old.jobs < aside.old.limit }
    ensures { CommitsOrDefers (hand_of hand.old) unit.old aside.old result unit.new (hand_of hand.new) aside.new }
{
    if phase_commit(unit, hand) {
        return true;
    }
    if hand.committing_unit().is_none() {
        return false;
    }
    match mem::replace(hand, Hand::Empty) {
        Hand::Job(held) => {
            let (job, _) = held.into_parts();
            aside.push(job);
            true
        }
        Hand::Empty | Hand::Answered(_, _) => unreachable!(),
    }
}

/// Has the task in the hand leave its unit, which the caller found by the hand; the jobs that this lets go on are
/// appended to the list. Returns true if something changed: not where no task is in the hand, or where the list has
/// room for fewer than 64. A unit that doesn't know the task, which never happens in one device, stays as it was,
/// and the hand lets go.
pub fn phase_leave(unit: &mut UnitState, hand: &mut Hand, out: &mut JobList) -> bool
    ensures { Leaves (hand_of hand.old) unit.old out.old result unit.new (hand_of hand.new) out.new }
{
    if hand.leaving_unit().is_none() || !has_places(out) {
        return false;
    }
    match mem::replace(hand, Hand::Empty) {
        Hand::Answered(_, answered) => {
            match unit.leave(answered, out) {
                Ok(()) => true,
                Err(Unknown) => false,
            }
        }
        Hand::Empty | Hand::Job(_) => unreachable!(),
    }
}
