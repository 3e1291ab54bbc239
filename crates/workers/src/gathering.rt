//! What stood under locks and what seats kept, with the parts of the ledgers, handed out and gathered.

ghost use Rattle.std.specs.Prelude.{◌≡◌, ◌+◌, ◌*◌, ◌≤◌, ◌++◌, vec_len, IfOk, OnOk};
ghost use Rattle.close_audit.specs.Keeping.{receipts_kept};
ghost use Rattle.lock_scopes.specs.Ledgers.{most_commits};
ghost use Rattle.workers.specs.Inner.Fetches.{AreGathered};
ghost use Rattle.workers.specs.Ledgers.{commits_in, weight_in};

use crate::tallied::{BlankPart, Tallied};
use close_audit::{CloseFault, ClosedQueues, Kept};
use lock_scopes::{CountedUnit, KeptQueue, Part, Weighing};
use logical_unit::UnitState;
use phases::Note;
use std::alloc::{AllocError, Global};
use std::sync::Mutex;
use std::sync::ledger::{Ledger, Share};

/// Splits so many parts off a share, in which nothing was counted yet.
pub(crate) fn split_off<W: Ledger>(
    alloc: Global,
    share: &mut Share<W>,
    count: usize,
) -> Result<Vec<BlankPart<W>>, AllocError>
    requires parts { count ≤ share.old.parts }
    requires blank { share.old.amount ≡ 0 }
    ensures parts { OnOk result (share.new.parts + count ≡ share.old.parts) }
    ensures blank { share.new.amount ≡ 0 }
{
    let mut parts = Vec::new(alloc);
    for _number in 0..count {
        let part = Part::new(share.split_off(1, 0));
        let Ok(()) = parts.push(BlankPart { part }) else {
            return Err(AllocError);
        };
    }
    Ok(parts)
}

/// Takes units out of their locks, and merges their parts of the ledgers into shares: what their acts weigh, and what they
/// had left for Commits.
pub(crate) fn units_of<C: Ledger + Weighing, W: Ledger>(
    alloc: Global,
    locks: Vec<Mutex<CountedUnit<C, W>>>,
    acts: &mut Share<C>,
    left: &mut Share<W>,
) -> Result<Vec<UnitState>, AllocError>
    ensures units { IfOk result (λ units. vec_len units ≡ vec_len locks) }
    ensures parts { OnOk result ((acts.new.parts ≡ acts.old.parts + vec_len locks)
        × (left.new.parts ≡ left.old.parts + vec_len locks)) }
    ensures acts { IfOk result (λ units. acts.new.amount ≡ acts.old.amount + weight_in C.weight units.items) }
    ensures commits { IfOk result (λ units.
        left.new.amount + commits_in units.items ≡ left.old.amount + vec_len units * most_commits) }
{
    let mut units = Vec::with_capacity(alloc, locks.len())?;
    for lock in locks {
        let CountedUnit {
            unit,
            part,
            acts: part_of_acts,
            ..
        } = lock.into_inner();
        let Part { share: rest, .. } = part;
        let Part { share: counted, .. } = part_of_acts;
        units.push_reserved(unit);
        left.merge(rest);
        acts.merge(counted);
    }
    Ok(units)
}

/// Takes what seats kept, and merges the parts of the ledger that count their receipts into a share. `Outstanding`
/// where one lost a receipt, which never happens; `NoMemory` where a growth was refused.
pub(crate) fn kept_of<W: Ledger>(
    alloc: Global,
    seats: Vec<Tallied<W>>,
    share: &mut Share<W>,
) -> Result<Vec<Kept>, CloseFault>
    ensures parts { OnOk result (share.new.parts ≡ share.old.parts + vec_len seats) }
    ensures receipts { IfOk result (λ all. share.new.amount ≡ share.old.amount + receipts_kept all.items) }
{
    let Ok(mut all) = Vec::with_capacity(alloc, seats.len()) else {
        return Err(CloseFault::NoMemory);
    };
    for seat in seats {
        let Tallied {
            kept,
            part,
            lost,
            ..
        } = seat;
        if let Some(ticket) = lost {
            return Err(CloseFault::Outstanding(ticket));
        }
        let Part { share: counted, .. } = part;
        all.push_reserved(kept);
        share.merge(counted);
    }
    Ok(all)
}

/// Appends notes.
fn append(theirs: Vec<Note>, notes: &mut Vec<Note>) -> Result<(), AllocError>
    ensures { OnOk result (notes.new.items ≡ notes.old.items ++ theirs.items) }
{
    for note in theirs {
        if notes.push(note).is_err() {
            return Err(AllocError);
        }
    }
    Ok(())
}

/// Takes queues out of their locks, with their notes Direct and what their fetches left. `Outstanding` where an answer
/// was decided and not given in the hold of its fetch, which never happens; `NoMemory` where a growth was refused.
pub(crate) fn queues_of(
    alloc: Global,
    locks: Vec<Mutex<KeptQueue>>,
) -> Result<ClosedQueues, CloseFault>
    ensures count { IfOk result (λ closed. vec_len closed.queues ≡ vec_len locks) }
    ensures gathered { IfOk result (λ closed. AreGathered closed.queues.items closed.fetched.items closed.notes.items) }
{
    let (Ok(mut queues), Ok(mut fetched)) = (
        Vec::with_capacity(alloc, locks.len()),
        Vec::with_capacity(alloc, locks.len()),
    ) else {
        return Err(CloseFault::NoMemory);
    };
    let mut notes = Vec::new(alloc);
    for lock in locks {
        let (queue, theirs, left, unanswered) = lock.into_inner().into_parts();
        if let Some(ticket) = unanswered {
            return Err(CloseFault::Outstanding(ticket));
        }
        let Ok(()) = append(theirs, &mut notes) else {
            return Err(CloseFault::NoMemory);
        };
        queues.push_reserved(queue);
        fetched.push_reserved(left);
    }
    Ok(ClosedQueues {
        queues,
        notes,
        fetched,
    })
}
