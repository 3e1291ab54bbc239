//! Runs two or three phases on a unit in one hold.

ghost use Rattle.std.specs.Prelude.{◌≡◌, ◌<◌};
ghost use Rattle.unit_model.specs.Unit.{PlainUnit};
ghost use Rattle.phases.specs.Slots.{slot_of};
ghost use Rattle.phases.specs.Parts.{hand_of};
ghost use Rattle.lock_scopes.specs.Ledgers.{receipts_run};
ghost use Rattle.lock_scopes.specs.Joined.{LeavesEnters, RunsNext, LeavesEntersRuns};

use crate::at_units::pass_locked;
use crate::gate::Gate;
use crate::lend::UnitLender;
use logical_unit::{JobList, UnitState};
use phases::{Hand, Slot, phase_commit, phase_enter, phase_leave};

/// The readable bytes of a chain from which on a job isn't committed in the hold of its Enter. So much data is put in
/// place faster with pages that are made before the hold.
const LONG: u64 = 8_192;

/// The outcome of the jobs that may run, behind an Enter. `leave_enter_commit_on` answers it.
#[derive(Clone, Copy, Debug, PartialEq, Eq)]
pub enum NextJob {
    /// They are in the list: there are none or several, or the hand wasn't free.
    Listed,
    /// The only one came into the hand, and is to be committed. It may wait for its unit's backed disk.
    Taken,
    /// The only one came into the hand, and was committed.
    Committed,
}

/// A hand and a slot, to be lent together.
#[derive(Drop)]
struct Turn<'a> {
    hand: &'a mut Hand,
    slot: &'a mut Slot,
}

/// Runs `phase_leave` and then `phase_enter`.
fn leave_enter(unit: &mut UnitState, hand: &mut Hand, slot: &mut Slot, out: &mut JobList)
    ensures { LeavesEnters (hand_of hand.old) (slot_of slot.old) unit.old out.old
        unit.new (hand_of hand.new) (slot_of slot.new) out.new }
{
    phase_leave(unit, hand, out);
    phase_enter(unit, slot, out);
}

/// Returns true if the chain of the job in a hand has so much for the device to read that the commit gets a hold of its
/// own.
fn is_long(hand: &Hand) -> bool {
    match hand {
        Hand::Job(held) => held.job().lengths().readable >= LONG,
        Hand::Empty | Hand::Answered(_, _) => false,
    }
}

/// Takes the only job that may run into the hand, where that is free, and runs `phase_commit` where the job is one of
/// this unit and not long. The job stays in the hand where that commit waits.
fn run_next<G: Gate>(
    unit: &mut UnitState,
    gate: &G,
    at: usize,
    hand: &mut Hand,
    out: &mut JobList,
) -> NextJob
    ensures { RunsNext at hand.old unit.old out.old result unit.new hand.new out.new }
{
    if !hand.is_empty() || out.len() != 1 {
        return NextJob::Listed;
    }
    let Some(job) = out.next() else {
        unreachable!()
    };
    *hand = Hand::taken(job);
    if is_long(hand) || hand.committing_unit() != Some(at) {
        return NextJob::Taken;
    }
    pass_locked(gate, hand);
    if phase_commit(unit, hand) {
        return NextJob::Committed;
    }
    NextJob::Taken
}

/// Runs `phase_leave` and `phase_enter`, and then `phase_commit` where `run_next` does.
fn leave_enter_run<G: Gate>(
    unit: &mut UnitState,
    gate: &G,
    at: usize,
    hand: &mut Hand,
    slot: &mut Slot,
    out: &mut JobList,
) -> NextJob
    ensures { LeavesEntersRuns at hand.old (slot_of slot.old) unit.old out.old result
        unit.new hand.new (slot_of slot.new) out.new }
{
    leave_enter(unit, hand, slot, out);
    run_next(unit, gate, at, hand, out)
}

/// Returns how many receipts the hand is to give of a commit in this hold: 1 where the job was committed and has a
/// receipt, else 0. As many Commits were made.
fn receipts_run(next: NextJob, hand: &Hand) -> u64
    ensures { result ≡ receipts_run next hand.now }
{
    match next {
        NextJob::Committed if hand.has_receipt() => 1,
        NextJob::Committed | NextJob::Listed | NextJob::Taken => 0,
    }
}

/// Has the task in the hand leave its unit (`phase_leave`), and then brings the request that arrived to the same unit
/// (`phase_enter`), in one hold of that. The owner of the request's queue calls, which has the hand. It takes the
/// unit's index from `Hand::leaving_unit` and `Slot::unit`, which agree.
pub fn leave_enter_on<B: UnitLender>(
    lender: &mut B,
    at: usize,
    hand: &mut Hand,
    slot: &mut Slot,
    out: &mut JobList,
)
    requires there { at < B.units lender.old }
    ensures did { (u : PlainUnit) × (v : PlainUnit) × B.lends_unit lender.old at u
        × LeavesEnters (hand_of hand.old) (slot_of slot.old) u out.old v (hand_of hand.new) (slot_of slot.new) out.new
        × B.keeps_unit lender.old at v lender.new }
    ensures counted { B.counts lender.old 0 lender.new }
    ensures units { B.units lender.new ≡ B.units lender.old }
{
    let mut turn = Turn { hand, slot };
    lender.unit(
        at,
        &mut turn,
        out,
        |unit, turn, out| -> ((), u64)
            ensures { LeavesEnters (hand_of turn.old.hand.now) (slot_of turn.old.slot.now) unit.old out.old
                unit.new (hand_of turn.new.hand.now) (slot_of turn.new.slot.now) out.new
                × (turn.new.hand.ghost_name ≡ turn.old.hand.ghost_name)
                × (turn.new.slot.ghost_name ≡ turn.old.slot.ghost_name) × (result.1 ≡ 0) }
        { (leave_enter(unit, turn.hand, turn.slot, out), 0) },
    );
}

/// Has the task in the hand leave and brings the request that arrived to its unit, as [`leave_enter_on`] does. Then, in
/// the same hold, takes the only job that may run into the hand, if that is free. Commits the job (`phase_commit`),
/// unless its chain is long. Passes the gate at its point Locked inside the hold, before the commit. Frees the pages
/// that the commit left over behind the hold. The caller is that of [`leave_enter_on`], where no gate watches and no
/// other worker waits for a job. Returns what came of the jobs that may run.
pub fn leave_enter_commit_on<B: UnitLender, G: Gate>(
    lender: &mut B,
    gate: &G,
    at: usize,
    hand: &mut Hand,
    slot: &mut Slot,
    out: &mut JobList,
) -> NextJob
    requires there { at < B.units lender.old }
    ensures did { (u : PlainUnit) × (v : PlainUnit) × B.lends_unit lender.old at u
        × LeavesEntersRuns at hand.old (slot_of slot.old) u out.old result v hand.new (slot_of slot.new) out.new
        × B.keeps_unit lender.old at v lender.new }
    ensures counted { B.counts lender.old (receipts_run result hand.new) lender.new }
    ensures units { B.units lender.new ≡ B.units lender.old }
{
    let mut turn = Turn { hand, slot };
    let (next, _) = lender.unit(
        at,
        &mut turn,
        out,
        move |unit, turn, out| -> (NextJob, u64)
            ensures { LeavesEntersRuns at turn.old.hand.now (slot_of turn.old.slot.now) unit.old out.old result.0
                unit.new turn.new.hand.now (slot_of turn.new.slot.now) out.new
                × (turn.new.hand.ghost_name ≡ turn.old.hand.ghost_name)
                × (turn.new.slot.ghost_name ≡ turn.old.slot.ghost_name)
                × (result.1 ≡ receipts_run result.0 turn.new.hand.now) }
        {
            let next = leave_enter_run(unit, gate, at, turn.hand, turn.slot, out);
            (next, receipts_run(next, turn.hand))
        },
    );
    turn.hand.let_go();
    next
}
