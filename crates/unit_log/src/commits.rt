//! The Commits among folded steps, with their tickets.

ghost use Rattle.std.specs.Prelude.{◌≡◌, ◌<◌, ◌≤◌, ◌↔◌, ℕ, IsTrue, [], List, length, OnOk, OnErr, Option};
ghost use Rattle.unit_log.specs.Inner.Runs.{AreBefore, AreTables, Stands, Finds, Adds, runs_of, tables_of};

use crate::runs::{Run, add, is_in, number_at};
use ring_core::Ticket;
use std::alloc::{AllocError, Global};
use std::marker::Model;

/// The Commits of each queue, in runs.
#[derive(Drop)]
pub(crate) struct Commits {
    alloc: Global,
    queues: Vec<Vec<Run>>,
}

impl Model for Commits {
    ghost use Rattle.std.specs.Prelude.{List};
    ghost use Rattle.unit_log.specs.declared.runs.Run.{Run as ARun};
    ghost use Rattle.unit_log.specs.Inner.Runs.{AreTables, tables_of};

    ghost Value = { List (List ARun) };

    ghost view = { λ c. tables_of c.queues.items };

    ghost invariant = { λ c. AreTables (tables_of c.queues.items) };
}

/// Makes a list for each queue up to one that is wanted.
fn grow(alloc: Global, queues: &mut Vec<Vec<Run>>, wanted: usize) -> Result<(), AllocError>
    ensures same { (q : ℕ) → runs_of q (tables_of queues.new.items) ≡ runs_of q (tables_of queues.old.items) }
    ensures there { OnOk result (wanted ≤ length queues.new.items) }
    ensures few { length queues.old.items ≤ 65536 → wanted ≤ 65536 → length queues.new.items ≤ 65536 }
{
    for _ in queues.len()..wanted {
        let Ok(()) = queues.push(Vec::new(alloc)) else {
            return Err(AllocError);
        };
    }
    Ok(())
}

/// Returns the ticket of the Commit at a place, by the runs of each queue.
fn ticket_in(queues: &[Vec<Run>], place: u64) -> Option<Ticket>
    requires { AreTables (tables_of queues.now) }
    ensures { Finds place (tables_of queues.now) result }
{
    for queue in 0..queues.len() {
        if let Some(number) = number_at(queues[queue].as_slice(), place) {
            return Some(Ticket {
                queue: queue as u16,
                number,
            });
        }
    }
    None
}

impl Commits {
    /// Makes a list of none.
    pub(crate) fn new(alloc: Global) -> Commits
        ensures { result ≡ [] }
    {
        Commits {
            alloc,
            queues: Vec::new(alloc),
        }
    }

    /// Returns true if the Commit of a ticket stands at a place.
    pub(crate) fn stands(&self, place: u64, ticket: Ticket) -> bool
        ensures { IsTrue result ↔ Stands place ticket self.now }
    {
        match self.queues.get(ticket.queue as usize) {
            None => false,
            Some(runs) => is_in(runs.as_slice(), place, ticket.number),
        }
    }

    /// Returns the ticket of the Commit at a place, if one stands there.
    pub(crate) fn ticket_at(&self, place: u64) -> Option<Ticket>
        ensures { Finds place self.now result }
    {
        ticket_in(self.queues.as_slice(), place)
    }

    /// Adds one more, behind all of its queue. `AllocError` where memory was refused, with those that are there as
    /// before.
    pub(crate) fn add(&mut self, place: u64, ticket: Ticket) -> Result<(), AllocError>
        requires { AreBefore place (runs_of ticket.queue self.old) }
        ensures ok { OnOk result (Adds place ticket self.old self.new) }
        ensures err { OnErr result ((q : ℕ) → runs_of q self.new ≡ runs_of q self.old) }
    {
        let queue = ticket.queue as usize;
        grow(self.alloc, &mut self.queues, queue + 1)?;
        add(&mut self.queues[queue], place, ticket.number)
    }
}
