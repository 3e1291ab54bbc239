//! A WRITE whose pages are made away from its unit.

ghost use Rattle.std.specs.Prelude.{◌≡◌, length, IfSome, Some};
ghost use Rattle.cdb.specs.declared.commands.Command.TheVariants.{Write};
ghost use Rattle.block_store.specs.Drafts.{edges_draft, prepared_draft};
ghost use Rattle.block_commands.specs.Prepared.{IsOf};

use block_store::{Edges, Prepared};
use cdb::Command;
use task_set::{SharedRequest, Task};

/// A WRITE, shared with its task, with copies of the pages that its range covers in part, and spare pages for the
/// others. `UnitState::start_pages` gives it in a hold of the unit's lock; the pages are made after that.
#[derive(Drop)]
pub struct StartedWrite {
    edges: Edges,
    spare: Option<Prepared>,
    request: SharedRequest,
    ghost own: { request.command ≡ Write (edges_draft edges).first (edges_draft edges).count },
}

/// A WRITE, shared with its task, with the new pages of its range, for `UnitState::commit_with`.
#[derive(Drop)]
pub struct PreparedWrite {
    pages: Prepared,
    request: SharedRequest,
    ghost own: { IsOf request.command request.data_out (prepared_draft pages) },
}

impl StartedWrite {
    /// Joins a WRITE, the edges of its range, and spare pages.
    pub(crate) fn new(edges: Edges, spare: Option<Prepared>, request: SharedRequest) -> StartedWrite
        requires { request.command ≡ Write (edges_draft edges).first (edges_draft edges).count }
    {
        StartedWrite {
            edges,
            spare,
            request,
        }
    }

    /// Makes the new pages, and frees the spare ones that it doesn't need. The thread that has the job calls it, with
    /// no lock held. `None` where memory was refused.
    pub fn prepare(self) -> Option<PreparedWrite> {
        let StartedWrite {
            edges,
            spare,
            request,
        } = self;
        match edges.prepare(request.data(), spare) {
            Ok(pages) => Some(PreparedWrite { pages, request }),
            Err(_) => None,
        }
    }
}

impl PreparedWrite {
    /// Returns the pages, where they are of the task's command and data: exactly then they may be put in place for it.
    pub(crate) fn pages_of(self, task: &Task) -> Option<Prepared>
        ensures { IfSome result (λ pages. IsOf task.now.seen.entry.command task.now.seen.entry.data_out (prepared_draft pages)) }
    {
        let PreparedWrite { pages, request } = self;
        if request.command() == task.command() && request.data() == task.data() {
            return Some(pages);
        }
        None
    }
}

/// Returns the pages, if there are any and they are of the task's command and data.
#[inline(always)]
pub(crate) fn pages_for(prepared: Option<PreparedWrite>, task: &Task) -> Option<Prepared>
    ensures { IfSome result (λ pages. IsOf task.now.seen.entry.command task.now.seen.entry.data_out (prepared_draft pages)) }
{
    match prepared {
        Some(prepared) => prepared.pages_of(task),
        None => None,
    }
}
