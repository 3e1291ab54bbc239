//! Tells whether a report adds up.

ghost use Rattle.std.specs.Prelude.{◌≡◌, ◌≤◌, ◌||◌, IfOk, length, vec_len, Option};
ghost use Rattle.ring_core.specs.declared.log.Ticket.{Ticket as ATicket};
ghost use Rattle.close_audit.specs.Closed.{Examines, IsFirst, is_outstanding};
ghost use Rattle.close_audit.specs.Inner.Finding.{Finds};
ghost use Rattle.close_audit.specs.Inner.Unconfirmed.{AllStand};

use crate::belonging::first_foreign;
use crate::confirming::{are_sound, first_unconfirmed, stand};
use crate::fault::CloseFault;
use crate::least::{first_of, lesser};
use crate::reading::{are_any_folded, read_notes, read_receipts, read_units};
use crate::report::Report;
use crate::tables::Tables;
use foundation::NoMemory;
use request_intake::UnitSpec;
use ring_core::Ticket;
use std::alloc::Global;

/// Returns the first ticket that is outstanding.
fn first_outstanding(alloc: Global, report: &Report) -> Result<Option<Ticket>, NoMemory>
    requires few { vec_len report.now.queues ≤ 65536 }
    requires stand { AllStand report.now.units.items }
    ensures { Finds report.now result }
{
    let units = report.units.as_slice();
    let queues = report.queues.as_slice();
    let mut tables = Tables::new(alloc, queues)?;
    let of_receipts = read_receipts(&mut tables, report.receipts.as_slice());
    let of_notes = read_notes(&mut tables, report.notes.as_slice());
    read_units(&mut tables, units);
    let of_queues = first_of(queues, are_any_folded(units), &tables);
    Ok(lesser(of_queues, lesser(of_receipts, of_notes)))
}

/// Looks whether a report of a host with these units adds up, and gives it back as it was where it does. Called where a
/// host is closed, with at most 65,536 queues. It refuses a report, in this order, and names the first such ticket by
/// queue and number:
///
/// - `Unconfirmed`: a receipt that its unit doesn't confirm;
/// - `Outstanding`: a chain of a request queue or of the control queue that isn't used, a request that isn't settled,
///   or a receipt or note of what is no accepted request;
/// - `Outstanding` of ticket 0/0: other units than those of the host. Their number is another, or one opened with
///   another address or capacity, or keeps no replies;
/// - `Outstanding` of the first ticket of an index: the first at which a queue of another number stands.
///
/// `NoMemory` where the tallies were refused memory. It takes time for each receipt, note, step and accepted chain,
/// folded steps too.
pub fn examine(alloc: Global, specs: &[UnitSpec], report: Report) -> Result<Report, CloseFault>
    requires { vec_len report.queues ≤ 65536 }
    ensures { Examines specs.now report result }
{
    if let Some(ticket) = first_unconfirmed(report.units.as_slice(), report.receipts.as_slice()) {
        return Err(CloseFault::Unconfirmed(ticket));
    }
    stand(report.units.as_slice());
    are_sound(report.queues.as_slice());
    match first_outstanding(alloc, &report) {
        Err(_) => Err(CloseFault::NoMemory),
        Ok(Some(ticket)) => Err(CloseFault::Outstanding(ticket)),
        Ok(None) => match first_foreign(specs, report.units.as_slice(), report.queues.as_slice()) {
            Some(ticket) => Err(CloseFault::Outstanding(ticket)),
            None => Ok(report),
        },
    }
}
