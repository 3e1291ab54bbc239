//! One task management function, from its beginning to its response.

ghost use Rattle.std.specs.Prelude.{◌≡◌, ◌<◌, ◌≤◌, length, slice_get};
ghost use Rattle.task_mgmt.specs.Functions.{opened, marking, next_mark, asking, failing, checking, is_over, response_of};
ghost use Rattle.task_mgmt.specs.Inner.Functions.{IsKnownKind};

use crate::kind::Kind;
use arrayvec::ArrayVec;
use request_intake::MOST_UNITS;
use scsi_codec::FunctionResponse;
use std::marker::Model;

/// A mark of a unit, or a look at it: a mark is clear once every task that it met has left, a look at once.
#[derive(Clone, Copy, Default)]
pub struct Mark {
    /// The index of the unit in the inventory.
    pub unit: usize,
    /// The number of steps of the unit's history before the mark. It is 0 for a look, which is no step and met no task.
    pub place: u64,
}

/// A task management function that has begun (SAM-5 §7.1). It first visits each of its units, once and by rising
/// LUN, then checks each of them in that order, where it waits for its mark, and then has its response. No call takes
/// memory.
#[derive(Drop)]
pub struct Function {
    kind: Kind,
    found: bool,
    refused: bool,
    left: ArrayVec<usize, MOST_UNITS>,
    waits: ArrayVec<Mark, MOST_UNITS>,
}

impl Model for Function {
    ghost use Rattle.std.specs.Prelude.{◌+◌, ◌≤◌, length};
    ghost use Rattle.task_mgmt.specs.Functions.{PlainFunction};
    ghost use Rattle.task_mgmt.specs.Inner.Functions.{IsKnownKind};

    ghost Value = { PlainFunction };

    ghost view = { λ f. record {
      kind = f.kind;
      found = f.found;
      refused = f.refused;
      left = f.left.items;
      waits = f.waits.items;
    } };

    ghost invariant = { λ f. (length f.left.items + length f.waits.items ≤ 64) × IsKnownKind f.kind };
}

impl Function {
    /// Makes a function that has visited none of its units.
    pub(crate) fn opened(kind: Kind, units: ArrayVec<usize, MOST_UNITS>) -> Function
        requires { IsKnownKind kind }
        ensures { result ≡ opened kind units.items }
    {
        Function {
            kind,
            found: false,
            refused: false,
            left: units,
            waits: ArrayVec::new(),
        }
    }

    /// Returns what it does on each of its units. Asked before the next one is visited.
    pub fn kind(&self) -> Kind
        ensures kind { result ≡ self.now.kind }
        ensures known { IsKnownKind self.now.kind }
    {
        self.kind
    }

    /// Returns the unit to be visited next, by its index in the inventory; `None` where none is left.
    pub fn next_unit(&self) -> Option<usize>
        ensures { result ≡ slice_get self.now.left 0 }
    {
        self.left.as_slice().first().copied()
    }

    /// Tells that the next unit was marked, and so many steps of its history stand before the mark.
    pub fn marked(&mut self, place: u64)
        requires { 0 < length self.old.left }
        ensures { self.new ≡ marking (next_mark place self.old) self.old }
    {
        let unit = self.left.remove(0);
        self.waits.push(Mark { unit, place });
    }

    /// Tells that a query looked at the next unit, and found a task or none. Its check is still to come, and is clear
    /// at once.
    pub fn found(&mut self, yes: bool)
        requires { 0 < length self.old.left }
        ensures { self.new ≡ asking yes self.old }
    {
        let look = Mark {
            unit: self.left.remove(0),
            place: 0,
        };
        self.waits.push(look);
        self.found = yes || self.found;
    }

    /// Tells that a unit can't be visited, since its mark was refused memory, or it isn't the one that was named: no unit
    /// is left, and the response is FAILURE.
    pub fn refused(&mut self)
        ensures { self.new ≡ failing self.old }
    {
        self.left.clear();
        self.refused = true;
    }

    /// Returns the mark or look that is to be clear next; `None` where none is waited for.
    pub fn waits_for(&self) -> Option<Mark>
        ensures { result ≡ slice_get self.now.waits 0 }
    {
        self.waits.as_slice().first().copied()
    }

    /// Tells that the mark or look that was waited for is clear, or waited for no more since the function failed.
    pub fn cleared(&mut self)
        requires { 0 < length self.old.waits }
        ensures { self.new ≡ checking self.old }
    {
        self.waits.remove(0);
    }

    /// Returns true if no unit is left and no mark waited for: it may be answered.
    pub fn finished(&self) -> bool
        ensures { result ≡ is_over self.now }
    {
        self.left.is_empty() && self.waits.is_empty()
    }

    /// Returns its response (VIRTIO 1.2 §5.6.6.2), once it is finished.
    pub fn answer(&self) -> FunctionResponse
        ensures { result ≡ response_of self.now }
    {
        if self.refused {
            return FunctionResponse::Failure;
        }
        match self.kind {
            Kind::Querying(_) if self.found => FunctionResponse::Succeeded,
            Kind::Querying(_) | Kind::Marking(_) => FunctionResponse::Complete,
        }
    }
}
