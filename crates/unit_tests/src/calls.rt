//! The calls of a unit, each with whether its history is then longer by the step that its answer says, or by none.

use crate::acts::{Comes, Ends};
use command_model::{CHECK_CONDITION, GOOD, Reply};
use foundation::NoMemory;
use logical_unit::{Arrival, Entered, Job, JobList, Outcome, Place, Receipt, StepKind, UnitState};
use ring_core::{Answered, Ticket};
use unit_attention::Code;
use unit_model::{Reason, Rule};

/// Returns true if a history that had so many steps is longer by this one, or by none.
fn is_told(unit: &UnitState, before: u64, step: Option<StepKind>) -> bool {
    let now = before.saturating_add(u64::from(step.is_some()));
    unit.steps() == now && unit.step(before) == step
}

/// The fate of an arrival.
#[derive(Drop)]
pub(crate) struct Came {
    /// `None` where memory was refused.
    pub(crate) comes: Option<Comes>,
    /// Its job, where the caller got it.
    pub(crate) job: Option<Job>,
    step: Option<StepKind>,
    /// True if the history says the same.
    pub(crate) is_told: bool,
}

/// Returns the parts of an answer of `enter`.
fn parts_of(entered: Entered, ticket: Ticket) -> Came {
    let (comes, job, step) = match entered {
        Entered::Run(job) => (Some(Comes::Run), Some(job), Some(StepKind::Enter(ticket))),
        Entered::Parked => (Some(Comes::Parked), None, Some(StepKind::Enter(ticket))),
        Entered::Full(job) => (Some(Comes::Full), Some(job), Some(StepKind::Full(ticket))),
        Entered::Stale(job) => (Some(Comes::Stale), Some(job), None),
        Entered::Busy(job) => (None, Some(job), None),
    };
    Came {
        comes,
        job,
        step,
        is_told: false,
    }
}

/// Has an arrival enter.
pub(crate) fn enter(unit: &mut UnitState, arrival: Arrival) -> Came {
    let ticket = arrival.ticket();
    let before = unit.steps();
    let mut came = parts_of(unit.enter(arrival), ticket);
    came.is_told = is_told(unit, before, came.step);
    came
}

/// Returns what a reply says.
fn ends_of(reply: &Reply) -> Ends {
    match reply.sense {
        None => {
            if reply.status == GOOD {
                Ends::Good(reply.payload.len())
            } else {
                Ends::Otherwise
            }
        }
        Some(sense) => {
            if reply.status == CHECK_CONDITION {
                Ends::Sense(sense.key, sense.asc, sense.ascq)
            } else {
                Ends::Otherwise
            }
        }
    }
}

/// Returns what a receipt says.
pub(crate) fn ends_of_receipt(receipt: &Receipt) -> Ends {
    match receipt.reply() {
        Some(reply) => ends_of(reply),
        None => Ends::Otherwise,
    }
}

/// Returns which step an outcome says.
fn step_of(outcome: &Outcome, ticket: Ticket) -> Option<StepKind> {
    match outcome {
        Outcome::Reply(_) => Some(StepKind::Commit(ticket)),
        Outcome::Busy => Some(StepKind::Busy(ticket)),
        Outcome::Aborted(_) | Outcome::Unknown => None,
    }
}

/// Commits a job. `None` where the unit's disk is backed, which none is here, or the history doesn't say the same.
pub(crate) fn commit(unit: &mut UnitState, job: &Job) -> Option<Outcome> {
    if unit.is_backed() {
        return None;
    }
    let before = unit.steps();
    let outcome = unit.commit(job);
    let step = step_of(&outcome, job.ticket());
    if is_told(unit, before, step) {
        Some(outcome)
    } else {
        None
    }
}

/// The room in a list of jobs that these calls want free.
const PLACES: usize = 64;

/// Has the task of a completed chain leave, and returns true if it does. `None` where the history doesn't say the same.
pub(crate) fn leave(unit: &mut UnitState, answered: Answered, out: &mut JobList) -> Option<bool> {
    if out.limit().saturating_sub(out.len()) < PLACES {
        return None;
    }
    let ticket = answered.ticket();
    let before = unit.steps();
    let has_left = unit.leave(answered, out).is_ok();
    let step = if has_left {
        Some(StepKind::Leave(ticket))
    } else {
        None
    };
    if is_told(unit, before, step) {
        Some(has_left)
    } else {
        None
    }
}

/// Returns the place of a step, where so many stood before it and the history says the same; `NoMemory` where that was
/// answered and the history is as it was.
fn place_told(
    unit: &UnitState,
    before: u64,
    answer: Result<Place, NoMemory>,
    step: StepKind,
) -> Result<Option<Place>, NoMemory> {
    match answer {
        Ok(place) => {
            if place == before && is_told(unit, before, Some(step)) {
                Ok(Some(place))
            } else {
                Ok(None)
            }
        }
        Err(NoMemory) => {
            if is_told(unit, before, None) {
                Err(NoMemory)
            } else {
                Ok(None)
            }
        }
    }
}

/// Aborts tasks of a unit; `None` where the list has too little room.
pub(crate) fn abort(
    unit: &mut UnitState,
    rule: Rule,
    out: &mut JobList,
) -> Result<Option<Place>, NoMemory> {
    if out.limit().saturating_sub(out.len()) < PLACES {
        return Ok(None);
    }
    let before = unit.steps();
    let answer = unit.abort(rule, out);
    place_told(unit, before, answer, StepKind::Abort(rule))
}

/// Resets a unit; `None` where the list has too little room.
pub(crate) fn reset(unit: &mut UnitState, out: &mut JobList) -> Result<Option<Place>, NoMemory> {
    if out.limit().saturating_sub(out.len()) < PLACES {
        return Ok(None);
    }
    let before = unit.steps();
    let answer = unit.reset(Code::BUS_DEVICE_RESET_FUNCTION, out);
    place_told(unit, before, answer, StepKind::Reset)
}

/// Returns how a job ends where it ends without a reply.
pub(crate) fn ends_without_reply(reason: Reason) -> Ends {
    match reason {
        Reason::Aborted => Ends::Aborted,
        Reason::Reset => Ends::Reset,
    }
}
