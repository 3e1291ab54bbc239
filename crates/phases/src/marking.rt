//! The steps of the open function on its units.

ghost use Rattle.phases.specs.DoingUnit.{HasPlaces};
ghost use Rattle.task_mgmt.specs.Inner.Functions.{IsKnownMark};
ghost use Rattle.phases.specs.Units.{Marks, Checks};
ghost use Rattle.phases.specs.Inner.Units.{MarksBy, Visits};

use crate::entering::has_places;
use crate::function::OpenFunction;
use crate::naming::is_addressed;
use foundation::NoMemory;
use logical_unit::{JobList, Place, UnitState};
use request_intake::Inventory;
use task_mgmt::{Kind, MarkBy};

/// Marks the tasks of a unit, and returns the place of the step.
fn mark_tasks(unit: &mut UnitState, mark: MarkBy, out: &mut JobList) -> Result<Place, NoMemory>
    requires known { IsKnownMark mark }
    requires room { HasPlaces out.old }
    ensures { MarksBy mark unit.old out.old result unit.new out.new }
{
    match mark {
        MarkBy::Abort(rule) => unit.abort(rule, out),
        MarkBy::Reset(code) => unit.reset(code, out),
    }
}

/// The outcome of a step of the open function.
#[derive(Clone, Copy, Debug, PartialEq, Eq)]
pub enum Visited {
    /// Nothing: no unit is left, or the list has room for fewer than 64.
    Nothing,
    /// It marked the tasks of its next unit.
    Marked,
    /// It looked at its next unit, or it fails.
    Other,
}

/// Marks the next unit of the open function, which the caller found by `next_unit`, or looks at it. Appends the jobs of
/// tasks that wait there and are marked to the list. If memory is refused, or the unit isn't the one that the inventory
/// names there, the function fails and leaves its other units. Returns whether it marked tasks: where jobs wait for their
/// disks, a mark wakes them.
pub fn phase_visit(
    unit: &mut UnitState,
    inventory: &Inventory,
    opened: &mut OpenFunction,
    out: &mut JobList,
) -> Visited
    ensures { Visits inventory.now opened.old unit.old out.old result unit.new opened.new out.new }
{
    if !has_places(out) {
        return Visited::Nothing;
    }
    let Some(unit_index) = opened.function.next_unit() else {
        return Visited::Nothing;
    };
    if !is_addressed(inventory, unit_index, unit) {
        opened.function.refused();
        return Visited::Other;
    }
    match opened.function.kind() {
        Kind::Marking(mark) => match mark_tasks(unit, mark, out) {
            Ok(place) => {
                opened.function.marked(place);
                Visited::Marked
            }
            Err(NoMemory) => {
                opened.function.refused();
                Visited::Other
            }
        },
        Kind::Querying(rule) => {
            opened.function.found(unit.is_alive(rule));
            Visited::Other
        }
    }
}

/// Takes the step of [`phase_visit`]. Returns true if something changed: not where no unit is left, or where the list has
/// room for fewer than 64.
pub fn phase_mark(
    unit: &mut UnitState,
    inventory: &Inventory,
    opened: &mut OpenFunction,
    out: &mut JobList,
) -> bool
    ensures { Marks inventory.now opened.old unit.old out.old result unit.new opened.new out.new }
{
    match phase_visit(unit, inventory, opened, out) {
        Visited::Nothing => false,
        Visited::Marked | Visited::Other => true,
    }
}

/// Checks whether the open function's first mark is clear, at that mark's unit, which the caller found by `waits_for`,
/// and goes on to the next. If the unit isn't the one that the inventory names there, the function fails, and waits no
/// more for that mark. Returns true if something changed: not where a unit is left to mark, no mark is waited for, or a
/// task that the mark met has not left.
pub fn phase_check(unit: &UnitState, inventory: &Inventory, opened: &mut OpenFunction) -> bool
    ensures { Checks inventory.now opened.old unit.now result opened.new }
{
    if opened.function.next_unit().is_some() {
        return false;
    }
    let Some(mark) = opened.function.waits_for() else {
        return false;
    };
    if !is_addressed(inventory, mark.unit, unit) {
        opened.function.refused();
        opened.function.cleared();
        return true;
    }
    if !unit.clear_of(mark.place) {
        return false;
    }
    opened.function.cleared();
    true
}
