//! A unit whose Commits are counted, and whose acts of the operator are weighed.

ghost use Rattle.std.specs.Prelude.{◌≡◌, ◌+◌, false};
ghost use Rattle.unit_model.specs.Receipts.{unit_address};
ghost use Rattle.unit_model.specs.Unit.{is_backed};
ghost use Rattle.lock_scopes.specs.Ledgers.{commits_of, most_commits};
ghost use Rattle.lock_scopes.specs.Acts.{weight_of};

use crate::acts::{Act, Acts};
use crate::part::Part;
use crate::weighing::Weighing;
use event_queue::WaitingEvents;
use logical_unit::{JobList, UnitState};
use phases::{ResetFault, ResizeFault, phase_hard, phase_resize};
use request_intake::Inventory;
use std::sync::ledger::Ledger;

/// A unit, with its parts of two ledgers. It stands under the unit's lock: so whenever that is free, no Commit for which
/// a receipt was counted is missing from the history. And the acts of the operator in the history weigh, at the unit's
/// address, what was weighed for this unit. Its disk is all in memory: so each Commit is told at once.
///
/// A unit opens with one for each Commit that it may ever make, and gives one to the seat that makes a Commit. No call
/// of the ledger needs a lock for that.
#[derive(Drop)]
pub struct CountedUnit<C: Ledger + Weighing, W: Ledger> {
    pub unit: UnitState,
    /// The part that is left for Commits.
    pub part: Part<W>,
    /// The part in which the acts of the operator are weighed.
    pub acts: Part<C>,
    pub ghost counted: { part.share.amount + commits_of unit.steps ≡ most_commits },
    pub ghost resident: { is_backed unit ≡ false },
    pub ghost acted: { acts.share.amount ≡ weight_of C.weight (unit_address unit.opening) unit.steps },
}

impl<C: Ledger + Weighing, W: Ledger> CountedUnit<C, W> {
    ghost use Rattle.std.specs.Prelude.{◌≡◌, ◌+◌, ℕ, List, Option, slice_get, IfOk, OnErr, if◌then◌else◌};
    ghost use Rattle.unit_model.specs.Receipts.{unit_address};
    ghost use Rattle.unit_model.specs.Unit.{PlainUnit, IsUnit};
    ghost use Rattle.phases.specs.Resetting.{Resets};
    ghost use Rattle.phases.specs.Resizing.{ResizesUnit};
    ghost use Rattle.lock_scopes.specs.Lending.{OnceAtThree, IsLent};
    ghost use Rattle.lock_scopes.specs.Ledgers.{commits_of, most_commits, CountsCommits};
    ghost use Rattle.lock_scopes.specs.Acts.{weight_of, acts_with, reset_of, resize_of};

    /// Joins a unit with its parts. Called once for each unit, where a host is opened.
    pub fn new(unit: UnitState, part: Part<W>, acts: Part<C>) -> CountedUnit<C, W>
        requires resident { is_backed unit ≡ false }
        requires counted { part.share.amount + commits_of unit.steps ≡ most_commits }
        requires acted { acts.share.amount ≡ weight_of C.weight (unit_address unit.opening) unit.steps }
    {
        CountedUnit { unit, part, acts }
    }

    /// Runs a phase on the unit, which is no act of the operator, and counts the Commits that it answers for the seat
    /// that calls. Called in a hold of the unit's lock.
    pub(crate) fn run<T, X, Y, F: FnOnce(&mut UnitState, &mut X, &mut Y) -> (T, u64)>(
        &mut self,
        seat: &mut Part<W>,
        one: &mut X,
        other: &mut Y,
        phase: F,
    ) -> (T, u64)
        requires phase { F.IsAlwaysCallable phase }
        requires counts { CountsCommits F.FnOnce phase }
        ensures did { (u : PlainUnit) × (v : PlainUnit) × IsLent u
            × OnceAtThree F.FnOnce phase u one.old other.old result v one.new other.new
            × IsLent v }
        ensures counted { seat.new.share.amount ≡ seat.old.share.amount + result.1 }
    {
        let CountedUnit { unit, part, .. } = self;
        unit.stands();
        let (answer, commits) = phase(unit, one, other);
        unit.stands();
        let _steps = unit.steps();
        part.share.transfer(&mut seat.share, commits);
        (answer, commits)
    }

    /// Resets the unit for the operator (`phase_hard`), and adds that to the acts.
    pub(crate) fn hard(
        &mut self,
        at: usize,
        inventory: &Inventory,
        acts: &mut Acts<C>,
        out: &mut JobList,
        waiting: &mut WaitingEvents,
    ) -> Result<bool, ResetFault>
        ensures did { Resets inventory.now at self.old.unit out.old waiting.old result self.new.unit out.new waiting.new }
        ensures stands { IsUnit self.old.unit × IsUnit self.new.unit }
        ensures made { IfOk result (λ was. acts.new
            ≡ (if was then acts_with (reset_of (slice_get inventory.now.addresses at)) acts.old else acts.old)) }
        ensures none { OnErr result (acts.new ≡ acts.old) }
    {
        let Some(address) = inventory.as_slice().get(at) else {
            self.unit.stands();
            return Err(ResetFault::WrongUnit);
        };
        let CountedUnit {
            unit,
            acts: share,
            ..
        } = self;
        unit.stands();
        let done = phase_hard(unit, inventory, at, out, waiting);
        unit.stands();
        let was_reset = done?;
        if was_reset {
            acts.add(share, Act::Reset(*address));
        }
        Ok(was_reset)
    }

    /// Gives the unit another capacity for the operator (`phase_resize`), and adds that to the acts.
    pub(crate) fn resize(
        &mut self,
        at: usize,
        inventory: &Inventory,
        acts: &mut Acts<C>,
        blocks: u64,
        told: bool,
        waiting: &mut WaitingEvents,
    ) -> Result<bool, ResizeFault>
        ensures did { ResizesUnit inventory.now at self.old.unit blocks told waiting.old result self.new.unit waiting.new }
        ensures stands { IsUnit self.old.unit × IsUnit self.new.unit }
        ensures made { IfOk result (λ was. acts.new
            ≡ (if was then acts_with (resize_of blocks told (slice_get inventory.now.addresses at)) acts.old else acts.old)) }
        ensures none { OnErr result (acts.new ≡ acts.old) }
    {
        let Some(address) = inventory.as_slice().get(at) else {
            self.unit.stands();
            return Err(ResizeFault::WrongUnit);
        };
        let CountedUnit {
            unit,
            acts: share,
            ..
        } = self;
        unit.stands();
        let done = phase_resize(unit, inventory, at, blocks, told, waiting);
        unit.stands();
        let was_resized = done?;
        if was_resized {
            acts.add(share, Act::Resize(*address, blocks, told));
        }
        Ok(was_resized)
    }
}
