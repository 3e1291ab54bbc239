//! Makes a report of what stood under locks, and of what the seats kept.

ghost use Rattle.std.specs.Prelude.{◌≡◌, ◌++◌, ◌≤◌, vec_len, IfOk, OnOk};
ghost use Rattle.close_audit.specs.Closed.{IsReport};
ghost use Rattle.close_audit.specs.Keeping.{receipts_of, receipts_in, receipts_of_all, notes_of_all, receipts_kept};

use crate::examining::examine;
use crate::fault::CloseFault;
use crate::kept::Kept;
use crate::replies::reply_out;
use crate::report::Report;
use command_model::Reply;
use foundation::Record;
use guest_mem::GuestMem;
use logical_unit::{BareReceipt, Receipt, UnitState};
use phases::{Note, Slot};
use request_intake::UnitSpec;
use std::alloc::{AllocError, Global};
use virtqueue::Queue;

/// The queues of a host, as they stood under their locks.
#[derive(Drop)]
pub struct ClosedQueues {
    /// The queues.
    pub queues: Vec<Queue>,
    /// The notes Direct of their requests.
    pub notes: Vec<Note>,
    /// What each fetch of a request left, for each queue.
    pub fetched: Vec<Record<Slot>>,
}

/// Appends receipts, each with its reply where that is kept.
fn append_receipts(
    bare: Vec<BareReceipt>,
    mut replies: Vec<Option<Reply>>,
    receipts: &mut Vec<Receipt>,
) -> Result<(), AllocError>
    ensures { OnOk result (receipts.new.items ≡ receipts.old.items ++ receipts_of bare.items replies.items) }
{
    let count = bare.len();
    receipts.reserve(count)?;
    let mut place = 0;
    for receipt in bare {
        let reply = reply_out(&mut replies, count, place);
        receipts.push_reserved(receipt.with_reply(reply));
        place += 1;
    }
    Ok(())
}

/// Appends what one seat kept.
fn append(kept: Kept, receipts: &mut Vec<Receipt>, notes: &mut Vec<Note>) -> Result<(), AllocError>
    ensures receipts { OnOk result (receipts.new.items ≡ receipts.old.items ++ receipts_in kept) }
    ensures notes { OnOk result (notes.new.items ≡ notes.old.items ++ kept.notes.items) }
{
    let Kept {
        receipts: bare,
        replies,
        notes: all,
        ..
    } = kept;
    append_receipts(bare, replies, receipts)?;
    for note in all {
        if notes.push(note).is_err() {
            return Err(AllocError);
        }
    }
    Ok(())
}

/// Returns all receipts, and all notes behind those that are given.
fn together(
    alloc: Global,
    mut notes: Vec<Note>,
    kept: Vec<Kept>,
) -> Result<(Vec<Receipt>, Vec<Note>), AllocError>
    ensures receipts { IfOk result (λ r. r.0.items ≡ receipts_of_all kept.items) }
    ensures notes { IfOk result (λ r. r.1.items ≡ notes.items ++ notes_of_all kept.items) }
    ensures counted { IfOk result (λ r. vec_len r.0 ≡ receipts_kept kept.items) }
{
    let mut receipts = Vec::new(alloc);
    for one in kept {
        append(one, &mut receipts, &mut notes)?;
    }
    Ok((receipts, notes))
}

/// Returns the report of a host that was opened with these specifications. It is of its units, its queues, at most
/// 65,536, and its memory, which stood under locks, and of what each seat kept. Called where a host is closed, once no
/// thread shares the locks. It fails, in this order, with
///
/// - `Unconfirmed`: the least ticket of a receipt whose Commit doesn't stand in its unit's history;
/// - `Outstanding`: the least ticket of a chain of the control queue, or of a request, that wasn't answered once and as
///   its unit's history says. If there is none: a ticket of what stood under a lock and isn't the host's, as
///   [`examine`] names it.
///
/// `NoMemory` where a growth was refused.
pub fn report_closed(
    alloc: Global,
    specs: &[UnitSpec],
    units: Vec<UnitState>,
    closed: ClosedQueues,
    memory: GuestMem,
    kept: Vec<Kept>,
) -> Result<Report, CloseFault>
    requires few { vec_len closed.queues ≤ 65536 }
    ensures report { IfOk result (λ r. IsReport specs.now r.units.items r.queues.items r.receipts.items r.notes.items) }
    ensures units { IfOk result (λ r. r.units.items ≡ units.items) }
    ensures receipts { IfOk result (λ r. r.receipts.items ≡ receipts_of_all kept.items) }
    ensures notes { IfOk result (λ r. r.notes.items ≡ closed.notes.items ++ notes_of_all kept.items) }
    ensures counted { IfOk result (λ r. vec_len r.receipts ≡ receipts_kept kept.items) }
    ensures queues { IfOk result (λ r. (r.queues ≡ closed.queues) × (r.fetched ≡ closed.fetched)) }
{
    let ClosedQueues {
        queues,
        notes,
        fetched,
    } = closed;
    let Ok((receipts, notes)) = together(alloc, notes, kept) else {
        return Err(CloseFault::NoMemory);
    };
    let report = Report {
        units,
        queues,
        memory,
        receipts,
        notes,
        fetched,
    };
    examine(alloc, specs, report)
}
