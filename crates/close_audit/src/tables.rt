//! A tally of each request, found by queue and number.

ghost use Rattle.std.specs.Prelude.{◌≡◌, ◌+◌, ◌<◌, ◌==◌, ℕ, List, length, replicate, slice_get, if◌then◌else◌, is_some, IfOk, Option};
ghost use Rattle.std.specs.Option.{option_map};
ghost use Rattle.ring_core.specs.declared.log.Ticket.{Ticket as ATicket};
ghost use Rattle.virtqueue.specs.Queue.{BareQueue};
ghost use Rattle.close_audit.specs.Inner.Tallies.{fresh, after, marking, tells, tally_in, tally_at, ends_amiss};
ghost use Rattle.close_audit.specs.Inner.Opening.{asked_count, Opens};

use crate::tally::{Fact, Tally, TicketFact};
use foundation::NoMemory;
use ring_core::Ticket;
use scsi_codec::FIRST_REQUEST_QUEUE;
use std::alloc::Global;
use virtqueue::Queue;

/// Gives the number of queues before the request queues.
const FIRST_REQUEST: usize = FIRST_REQUEST_QUEUE as usize;

/// A tally of each request.
#[derive(Drop)]
pub(crate) struct Tables {
    pub tables: Vec<Vec<Tally>>,
}

/// Returns how many requests the queue at an index accepted.
fn requests_of(queue_index: usize, queue: &Queue) -> usize
    ensures { result ≡ asked_count queue_index queue.now }
{
    if queue_index < FIRST_REQUEST {
        0
    } else {
        queue.log().accepted() as usize
    }
}

/// Makes so many fresh tallies.
fn fresh_table(alloc: Global, count: usize) -> Result<Vec<Tally>, NoMemory>
    ensures { IfOk result (λ table. table.items ≡ replicate count fresh) }
{
    let mut table = Vec::new(alloc);
    table.resize(count, Tally::fresh())?;
    Ok(table)
}

/// Marks the tally of a number, and tells whether there is one.
fn mark_in(table: &mut Vec<Tally>, number: u64, fact: Fact) -> bool
    ensures known { result ≡ is_some (slice_get table.old.items number) }
    ensures marks { (n : ℕ) → slice_get table.new.items n
        ≡ option_map (λ s. if number == n then after fact s else s) (slice_get table.old.items n) }
{
    let number = number as usize;
    if number < table.len() {
        let tally = table[number];
        table[number] = tally.after(fact);
        true
    } else {
        false
    }
}

impl Tables {
    /// Makes a fresh tally of each request of these queues.
    pub(crate) fn new(alloc: Global, queues: &[Queue]) -> Result<Tables, NoMemory>
        ensures { IfOk result (λ t. Opens queues.now t.tables.items) }
    {
        let mut tables = Vec::new(alloc);
        for queue in queues {
            let table = fresh_table(alloc, requests_of(tables.len(), queue))?;
            let Ok(()) = tables.push(table) else {
                return Err(NoMemory);
            };
        }
        Ok(Tables { tables })
    }

    /// Marks the tally of a ticket, and tells whether there is one: whether it is that of a request.
    pub(crate) fn mark(&mut self, ticket: Ticket, fact: Fact) -> bool
        ensures known { result ≡ is_some (tally_at self.old.tables.items ticket) }
        ensures marks { (t : ATicket) → tally_at self.new.tables.items t
            ≡ option_map (marking ticket fact t) (tally_at self.old.tables.items t) }
    {
        let queue = ticket.queue as usize;
        if queue < self.tables.len() {
            mark_in(&mut self.tables[queue], ticket.number, fact)
        } else {
            false
        }
    }

    /// Marks what a step tells, if it tells anything.
    pub(crate) fn tell(&mut self, told: Option<TicketFact>)
        ensures { (t : ATicket) → tally_at self.new.tables.items t
            ≡ option_map (tells told t) (tally_at self.old.tables.items t) }
    {
        if let Some(told) = told {
            self.mark(told.ticket, told.fact);
        }
    }

    /// Returns true if the request of a ticket isn't settled. Some unit's steps may be folded.
    pub(crate) fn ends_amiss(&self, ticket: Ticket, folded: bool) -> bool
        ensures { result ≡ ends_amiss folded (tally_at self.now.tables.items ticket) }
    {
        match self.tables.get(ticket.queue as usize) {
            None => false,
            Some(table) => match table.get(ticket.number as usize) {
                None => false,
                Some(tally) => !tally.ends_well(folded),
            },
        }
    }
}
