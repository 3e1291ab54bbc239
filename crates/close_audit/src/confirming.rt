//! Tells whether receipts are confirmed by their units.

ghost use Rattle.std.specs.Prelude.{◌≡◌, ◌↔◌, IsTrue, Some, slice_get};
ghost use Rattle.unit_model.specs.Unit.{IsUnit};
ghost use Rattle.ring_core.specs.Sound.{IsSound};
ghost use Rattle.close_audit.specs.Words.{is_before as comes_before};
ghost use Rattle.close_audit.specs.Closed.{IsConfirmedBy, ConfirmsOne, has_commits};
ghost use Rattle.close_audit.specs.Inner.Unconfirmed.{Confirms, with_unconfirmed, AllStand, AllSound};

use crate::least::lesser;
use logical_unit::{Place, Receipt, UnitState};
use ring_core::Ticket;
use virtqueue::Queue;

/// Returns whether a unit can say of a place whether a Commit stands there.
fn has_commits(unit: &UnitState, place: Place) -> bool
    ensures { result ≡ has_commits unit.now place }
{
    unit.keeps_replies() || unit.base() <= place
}

/// Returns whether a unit can say so, and the Commit of a receipt stands at its place in its history.
fn is_confirmed_by(unit: &UnitState, receipt: &Receipt) -> bool
    ensures { IsTrue result ↔ ConfirmsOne unit.now receipt.now }
{
    if !has_commits(unit, receipt.place()) {
        return false;
    }
    unit.confirm(receipt)
}

/// Returns true if the Commit of a receipt stands at its place in the history of its unit.
fn is_confirmed(units: &[UnitState], receipt: &Receipt) -> bool
    ensures { IsTrue result ↔ IsConfirmedBy units.now receipt.now }
{
    for unit in units {
        if is_confirmed_by(unit, receipt) {
            return true;
        }
    }
    false
}

/// Returns the ticket, if its receipt isn't confirmed.
fn unless(confirmed: bool, ticket: Ticket) -> Option<Ticket>
    ensures { result ≡ with_unconfirmed confirmed ticket }
{
    if confirmed { None } else { Some(ticket) }
}

/// Returns the first ticket of a receipt that isn't confirmed.
pub(crate) fn first_unconfirmed(units: &[UnitState], receipts: &[Receipt]) -> Option<Ticket>
    ensures { Confirms units.now receipts.now result }
{
    let mut first = None;
    for receipt in receipts {
        let confirmed = is_confirmed(units, receipt);
        first = lesser(first, unless(confirmed, receipt.ticket()));
    }
    first
}

/// Shows what is known of each unit.
pub(crate) fn stand(units: &[UnitState])
    ensures { AllStand units.now }
{
    for unit in units {
        unit.stands();
    }
}

/// Shows what is known of each queue.
pub(crate) fn are_sound(queues: &[Queue])
    ensures { AllSound queues.now }
{
    for queue in queues {
        queue.log();
    }
}
