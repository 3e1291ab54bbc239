//! The tallies of all requests, by one pass over what answered them and one over each history.

ghost use Rattle.std.specs.Prelude.{◌≡◌, nat_lt, Option};
ghost use Rattle.std.specs.Option.{option_map};
ghost use Rattle.std.specs.List.{fold};
ghost use Rattle.ring_core.specs.declared.log.Ticket.{Ticket as ATicket};
ghost use Rattle.close_audit.specs.Closed.{IsFirst};
ghost use Rattle.unit_model.specs.Base.{base_of, kept_steps};
ghost use Rattle.unit_model.specs.Steps.{alive};
ghost use Rattle.close_audit.specs.Settled.{any_folded};
ghost use Rattle.close_audit.specs.Inner.Tallies.{read, read_folded, read_alive, with_receipt, with_note, with_units, tally_at};
ghost use Rattle.close_audit.specs.Inner.Sources.{stray, stray_one};

use crate::least::lesser;
use crate::tables::Tables;
use crate::tally::{Answer, Fact, fact_of_alive, fact_of_commit, fact_of_one};
use logical_unit::{Receipt, UnitState};
use phases::Note;
use ring_core::Ticket;

/// Returns a ticket that is that of no request.
fn stray_one(known: bool, ticket: Ticket) -> Option<Ticket>
    ensures { result ≡ stray_one known ticket }
{
    if known { None } else { Some(ticket) }
}

/// Marks the requests that have a receipt. Answers the first ticket of a receipt that is that of no request.
pub(crate) fn read_receipts(tables: &mut Tables, receipts: &[Receipt]) -> Option<Ticket>
    ensures tallied { (t : ATicket) → tally_at tables.new.tables.items t
        ≡ option_map (λ s. fold (with_receipt t) s receipts.now) (tally_at tables.old.tables.items t) }
    ensures strays { IsFirst (stray (λ c. c.ticket) tables.old.tables.items receipts.now) result }
{
    let mut first = None;
    for receipt in receipts {
        let ticket = receipt.ticket();
        let known = tables.mark(ticket, Fact::Answered(Answer::Receipt));
        first = lesser(first, stray_one(known, ticket));
    }
    first
}

/// Marks the requests that have a note. Answers the first ticket of a note that is that of no request.
pub(crate) fn read_notes(tables: &mut Tables, notes: &[Note]) -> Option<Ticket>
    ensures tallied { (t : ATicket) → tally_at tables.new.tables.items t
        ≡ option_map (λ s. fold (with_note t) s notes.now) (tally_at tables.old.tables.items t) }
    ensures strays { IsFirst (stray (λ n. n.ticket) tables.old.tables.items notes.now) result }
{
    let mut first = None;
    for note in notes {
        let ticket = note.ticket();
        let known = tables.mark(ticket, Fact::Answered(Answer::Note(note.cause())));
        first = lesser(first, stray_one(known, ticket));
    }
    first
}

/// Marks what the folded Commits of a unit tell, from the oldest on, where the unit knows them. It stands at an index
/// among the units.
fn read_folded(tables: &mut Tables, index: usize, unit: &UnitState)
    ensures { (t : ATicket) → tally_at tables.new.tables.items t
        ≡ option_map (read_folded t index unit.now) (tally_at tables.old.tables.items t) }
{
    if !unit.keeps_replies() {
        return;
    }
    for place in 0..unit.base() {
        tables.tell(fact_of_commit(index, unit.commit_at(place)));
    }
}

/// Marks what the steps tell that a unit keeps, from the oldest on. It stands at an index among the units.
fn read_unit(tables: &mut Tables, index: usize, unit: &UnitState)
    ensures { (t : ATicket) → tally_at tables.new.tables.items t
        ≡ option_map (read t index (kept_steps unit.now.steps)) (tally_at tables.old.tables.items t) }
{
    for place in unit.base()..unit.steps() {
        tables.tell(fact_of_one(index, unit.step(place)));
    }
}

/// Marks the tasks that are alive in a unit.
fn read_alive(tables: &mut Tables, unit: &UnitState)
    ensures { (t : ATicket) → tally_at tables.new.tables.items t
        ≡ option_map (read_alive t (alive unit.now.steps)) (tally_at tables.old.tables.items t) }
{
    for number in 0..unit.alive_count() {
        tables.tell(fact_of_alive(unit.alive_ticket(number)));
    }
}

/// Marks what all units tell.
pub(crate) fn read_units(tables: &mut Tables, units: &[UnitState])
    ensures { (t : ATicket) → tally_at tables.new.tables.items t
        ≡ option_map (with_units t 0 units.now) (tally_at tables.old.tables.items t) }
{
    for (index, unit) in units.iter().enumerate() {
        read_folded(tables, index, unit);
        read_unit(tables, index, unit);
        read_alive(tables, unit);
    }
}

/// Returns whether steps of a unit are folded.
fn are_folded(unit: &UnitState) -> bool
    ensures { result ≡ nat_lt 0 (base_of unit.now.steps) }
{
    unit.base() > 0
}

/// Returns whether steps of some unit are folded.
pub(crate) fn are_any_folded(units: &[UnitState]) -> bool
    ensures { result ≡ any_folded units.now }
{
    units.iter().any(|unit| are_folded(unit))
}
