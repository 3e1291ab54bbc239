//! Runs the phases on a unit, each on one that is lent. Each clause is the phase's own, for some unit that was lent and
//! came back.

ghost use Rattle.std.specs.Prelude.{◌≡◌, ◌<◌, false, IsTrue};
ghost use Rattle.unit_model.specs.Unit.{PlainUnit, is_backed};
ghost use Rattle.phases.specs.Slots.{slot_of};
ghost use Rattle.phases.specs.Parts.{hand_of};
ghost use Rattle.phases.specs.Units.{Enters, Commits, Leaves, Marks, Checks};
ghost use Rattle.phases.specs.Giving.{KeepsOutcome};
ghost use Rattle.lock_scopes.specs.Ledgers.{commits_of, receipts_made, KeepsActs};
ghost use Rattle.lock_scopes.specs.Inner.Acts.{is_hard_mark};

use crate::gate::{Gate, Point};
use crate::lend::UnitLender;
use logical_unit::{JobList, StartedWrite, UnitState};
use phases::{
    Hand, OpenFunction, Slot, phase_check, phase_commit, phase_enter, phase_leave, phase_mark,
    phase_prepare, phase_start_pages,
};
use request_intake::Inventory;
use task_mgmt::{Kind, MarkBy};
use unit_attention::Code;

/// Brings the request that arrived to its unit (`phase_enter`), in one hold of that. The owner of its queue calls, with
/// its index from `Slot::unit`. Returns true if something changed.
pub fn enter_on<B: UnitLender>(
    lender: &mut B,
    at: usize,
    slot: &mut Slot,
    out: &mut JobList,
) -> bool
    requires there { at < B.units lender.old }
    ensures did { (u : PlainUnit) × (v : PlainUnit) × B.lends_unit lender.old at u
        × Enters (slot_of slot.old) u out.old result v (slot_of slot.new) out.new
        × B.keeps_unit lender.old at v lender.new }
    ensures counted { B.counts lender.old 0 lender.new }
    ensures units { B.units lender.new ≡ B.units lender.old }
{
    lender
        .unit(
            at,
            slot,
            out,
            |unit, slot, out| -> (bool, u64)
                ensures { Enters (slot_of slot.old) unit.old out.old result.0 unit.new (slot_of slot.new) out.new
                    × (result.1 ≡ 0) }
            { (phase_enter(unit, slot, out), 0) },
        )
        .0
}

/// Makes the pages of the WRITE in the hand ahead of its commit. Copies the blocks that they need in one hold of its
/// unit (`phase_start_pages`), and makes them after it, with no lock held (`phase_prepare`). The seat that has the hand
/// calls, with its index from `Hand::committing_unit`. Returns true if something was copied.
pub fn prepare_on<B: UnitLender>(lender: &mut B, at: usize, hand: &mut Hand) -> bool
    requires there { at < B.units lender.old }
    ensures did { (u : PlainUnit) × B.lends_unit lender.old at u × B.keeps_unit lender.old at u lender.new }
    ensures same { hand_of hand.new ≡ hand_of hand.old }
    ensures counted { B.counts lender.old 0 lender.new }
    ensures units { B.units lender.new ≡ B.units lender.old }
{
    let (started, _) = lender.unit(
        at,
        hand,
        &mut (),
        |unit, hand, _nothing| -> (Option<StartedWrite>, u64)
            ensures { (unit.new ≡ unit.old) × (hand.new ≡ hand.old) × (result.1 ≡ 0) }
        { (phase_start_pages(unit, hand), 0) },
    );
    match started {
        Some(started) => {
            phase_prepare(hand, started);
            true
        }
        None => false,
    }
}

/// Tells the gate that the unit's lock is held for the job in the hand, where one is there.
pub(crate) fn pass_locked<G: Gate>(gate: &G, hand: &Hand) {
    match hand {
        Hand::Job(held) => gate.pass(Point::Locked, held.job().ticket()),
        Hand::Empty | Hand::Answered(_, _) => {}
    }
}

/// Returns how many receipts the hand is to give of a commit: 1 where it changed something and its job has a receipt,
/// else 0. As many Commits the commit made.
fn receipts_made(changed: bool, hand: &Hand) -> u64
    ensures { result ≡ receipts_made changed hand.now }
{
    if changed && hand.has_receipt() { 1 } else { 0 }
}

/// Commits the job in the hand (`phase_commit`), in one hold of its unit, inside which, before anything is done, the
/// gate is passed at its point Locked. The pages that the commit left over are freed behind the hold. The seat that has
/// the hand calls, with its index from `Hand::committing_unit`. Returns true if something changed.
pub fn commit_on<B: UnitLender, G: Gate>(
    lender: &mut B,
    gate: &G,
    at: usize,
    hand: &mut Hand,
) -> bool
    requires there { at < B.units lender.old }
    ensures did { (u : PlainUnit) × (v : PlainUnit) × B.lends_unit lender.old at u
        × Commits (hand_of hand.old) u result v (hand_of hand.new)
        × (IsTrue result → is_backed u ≡ false → KeepsOutcome hand.old u v hand.new)
        × B.keeps_unit lender.old at v lender.new }
    ensures counted { B.counts lender.old (receipts_made result hand.new) lender.new }
    ensures units { B.units lender.new ≡ B.units lender.old }
{
    let (changed, _) = lender.unit(
        at,
        hand,
        &mut (),
        move |unit, hand, _nothing| -> (bool, u64)
            ensures { Commits (hand_of hand.old) unit.old result.0 unit.new (hand_of hand.new)
                × (IsTrue result.0 → is_backed unit.old ≡ false → KeepsOutcome hand.old unit.old unit.new hand.new)
                × (result.1 ≡ receipts_made result.0 hand.new) }
        {
            pass_locked(gate, hand);
            let changed = phase_commit(unit, hand);
            (changed, receipts_made(changed, hand))
        },
    );
    hand.let_go();
    changed
}

/// Has the task in the hand leave its unit (`phase_leave`), in one hold of that. The seat that has the hand calls, with
/// its index from `Hand::leaving_unit`. Returns true if something changed.
pub fn leave_on<B: UnitLender>(
    lender: &mut B,
    at: usize,
    hand: &mut Hand,
    out: &mut JobList,
) -> bool
    requires there { at < B.units lender.old }
    ensures did { (u : PlainUnit) × (v : PlainUnit) × B.lends_unit lender.old at u
        × Leaves (hand_of hand.old) u out.old result v (hand_of hand.new) out.new
        × B.keeps_unit lender.old at v lender.new }
    ensures counted { B.counts lender.old 0 lender.new }
    ensures units { B.units lender.new ≡ B.units lender.old }
{
    lender
        .unit(
            at,
            hand,
            out,
            |unit, hand, out| -> (bool, u64)
                ensures { Leaves (hand_of hand.old) unit.old out.old result.0 unit.new (hand_of hand.new) out.new
                    × (result.1 ≡ 0) }
            { (phase_leave(unit, hand, out), 0) },
        )
        .0
}

/// Returns true if a function resets its units as the operator does. None does.
fn is_hard_mark(function: &OpenFunction) -> bool
    ensures { result ≡ is_hard_mark function.now.function.kind }
{
    match function.function.kind() {
        Kind::Marking(MarkBy::Reset(code)) => {
            code.asc == Code::POWER_ON_OR_RESET.asc && code.ascq == Code::POWER_ON_OR_RESET.ascq
        }
        Kind::Marking(MarkBy::Abort(_)) | Kind::Querying(_) => false,
    }
}

/// Runs `phase_mark`. A function that resets its units as the operator does, which none does, fails: so the operator
/// alone makes hard resets.
fn mark(
    unit: &mut UnitState,
    inventory: &Inventory,
    function: &mut OpenFunction,
    out: &mut JobList,
) -> bool
    ensures marks { Marks inventory.now function.old unit.old out.old result unit.new function.new out.new }
    ensures commits { commits_of unit.new.steps ≡ commits_of unit.old.steps }
    ensures acts { KeepsActs unit.old unit.new }
{
    if !is_hard_mark(function) {
        return phase_mark(unit, inventory, function, out);
    }
    if function.function.next_unit().is_none() {
        return false;
    }
    function.function.refused();
    true
}

/// Marks the next unit of the open function, or looks at it (`phase_mark`), in one hold of that. The worker that has
/// the function calls, with the unit's index from `Function::next_unit`. Returns true if something changed.
pub fn mark_on<B: UnitLender>(
    lender: &mut B,
    at: usize,
    inventory: &Inventory,
    function: &mut OpenFunction,
    out: &mut JobList,
) -> bool
    requires there { at < B.units lender.old }
    ensures did { (u : PlainUnit) × (v : PlainUnit) × B.lends_unit lender.old at u
        × Marks inventory.now function.old u out.old result v function.new out.new
        × B.keeps_unit lender.old at v lender.new }
    ensures counted { B.counts lender.old 0 lender.new }
    ensures units { B.units lender.new ≡ B.units lender.old }
{
    lender
        .unit(
            at,
            function,
            out,
            move |unit, function, out| -> (bool, u64)
                ensures { Marks inventory.entry.now function.old unit.old out.old result.0 unit.new function.new out.new
                    × (result.1 ≡ 0) × (commits_of unit.new.steps ≡ commits_of unit.old.steps)
                    × KeepsActs unit.old unit.new }
            { (mark(unit, inventory, function, out), 0) },
        )
        .0
}

/// Checks whether the open function's first mark is clear (`phase_check`), in one hold of that mark's unit, which stays
/// as it is. The worker that has the function calls, with the unit's index from `Function::waits_for`. Returns true if
/// something changed.
pub fn check_on<B: UnitLender>(
    lender: &mut B,
    at: usize,
    inventory: &Inventory,
    function: &mut OpenFunction,
) -> bool
    requires there { at < B.units lender.old }
    ensures did { (u : PlainUnit) × B.lends_unit lender.old at u
        × Checks inventory.now function.old u result function.new × B.keeps_unit lender.old at u lender.new }
    ensures counted { B.counts lender.old 0 lender.new }
    ensures units { B.units lender.new ≡ B.units lender.old }
{
    lender
        .unit(
            at,
            function,
            &mut (),
            move |unit, function, _nothing| -> (bool, u64)
                ensures { Checks inventory.entry.now function.old unit.old result.0 function.new × (unit.new ≡ unit.old)
                    × (result.1 ≡ 0) }
            { (phase_check(unit, inventory, function), 0) },
        )
        .0
}
