//! The tally of a request, while a report is examined.

ghost use Rattle.std.specs.Prelude.{◌≡◌, Option};
ghost use Rattle.close_audit.specs.Inner.Tallies.{joined, fresh, home_at, elsewhere, visited, stepped, after, is_ground, is_end, is_fine, ends_well, told, fact_of, fact_of_one, fact_of_commit, fact_of_alive};

use logical_unit::StepKind;
use phases::Cause;
use ring_core::Ticket;

/// The receipts and notes of a request so far.
#[derive(Clone, Copy)]
pub enum Answer {
    /// Nothing.
    Missing,
    /// A receipt.
    Receipt,
    /// A note.
    Note(Cause),
    /// More than one of these.
    Several,
}

impl Answer {
    /// Adds one more.
    fn and(self, more: Answer) -> Answer
        ensures { result ≡ joined self more }
    {
        match self {
            Answer::Missing => more,
            Answer::Receipt | Answer::Note(_) | Answer::Several => Answer::Several,
        }
    }

    /// Returns whether it is one answer, and of what the kept steps tell of the task: that it entered, met TASK SET
    /// FULL, ran, was answered BUSY. Steps that are folded may have been its Enter or its Full.
    fn is_fine(self, entered: bool, full: bool, ran: bool, busy: bool, folded: bool) -> bool
        ensures { result ≡ is_fine self entered full ran busy folded }
    {
        match self {
            Answer::Receipt => !entered || ran,
            Answer::Note(why) => is_ground(why, entered, full, folded)
                && (!ran && (!entered || is_end(why, ran, busy))),
            Answer::Missing | Answer::Several => false,
        }
    }
}

/// Returns whether a note of this cause has what it has to have.
fn is_ground(why: Cause, entered: bool, full: bool, folded: bool) -> bool
    ensures { result ≡ is_ground why entered full folded }
{
    match why {
        Cause::Busy | Cause::Direct => true,
        Cause::Aborted => entered || folded,
        Cause::Full => full || folded,
        Cause::Stale | Cause::Unknown => false,
    }
}

/// Returns whether a note of this cause is of what became of a task that entered.
fn is_end(why: Cause, ran: bool, busy: bool) -> bool
    ensures { result ≡ is_end why ran busy }
{
    match why {
        Cause::Busy => busy,
        Cause::Aborted => !(ran || busy),
        Cause::Full | Cause::Direct | Cause::Stale | Cause::Unknown => false,
    }
}

/// A step of a task.
#[derive(Clone, Copy)]
pub enum TaskStep {
    Enter,
    Commit,
    Busy,
    Leave,
}

/// A fact that is told of a request.
#[derive(Clone, Copy)]
pub enum Fact {
    /// A receipt or a note.
    Answered(Answer),
    /// It met TASK SET FULL.
    Full,
    /// The unit of this index keeps a step of its task, or knows its folded Commit.
    Step(usize, TaskStep),
    /// Its task is alive in some unit.
    Alive,
}

/// The fact that a step tells, and of which request.
#[derive(Clone, Copy)]
pub struct TicketFact {
    pub ticket: Ticket,
    pub fact: Fact,
}

/// Returns what a step of a task in a unit tells.
fn told(unit: usize, what: TaskStep, ticket: Ticket) -> Option<TicketFact>
    ensures { result ≡ told unit what ticket }
{
    Some(TicketFact {
        ticket,
        fact: Fact::Step(unit, what),
    })
}

/// Returns what a step of a unit tells.
fn fact_of(unit: usize, kind: StepKind) -> Option<TicketFact>
    ensures { result ≡ fact_of unit kind }
{
    match kind {
        StepKind::Enter(ticket) => told(unit, TaskStep::Enter, ticket),
        StepKind::Full(ticket) => Some(TicketFact {
            ticket,
            fact: Fact::Full,
        }),
        StepKind::Commit(ticket) => told(unit, TaskStep::Commit, ticket),
        StepKind::Busy(ticket) => told(unit, TaskStep::Busy, ticket),
        StepKind::Abort(_) | StepKind::Reset | StepKind::Resize => None,
        StepKind::Leave(ticket) => told(unit, TaskStep::Leave, ticket),
    }
}

/// Returns what a step of a unit tells, if there is one.
pub(crate) fn fact_of_one(unit: usize, step: Option<StepKind>) -> Option<TicketFact>
    ensures { result ≡ fact_of_one unit step }
{
    match step {
        None => None,
        Some(kind) => fact_of(unit, kind),
    }
}

/// Returns what a Commit of a unit tells, if there is one.
pub(crate) fn fact_of_commit(unit: usize, ticket: Option<Ticket>) -> Option<TicketFact>
    ensures { result ≡ fact_of_commit unit ticket }
{
    match ticket {
        None => None,
        Some(ticket) => told(unit, TaskStep::Commit, ticket),
    }
}

/// Returns what a task tells that is alive, if there is one.
pub(crate) fn fact_of_alive(ticket: Option<Ticket>) -> Option<TicketFact>
    ensures { result ≡ fact_of_alive ticket }
{
    match ticket {
        None => None,
        Some(ticket) => Some(TicketFact {
            ticket,
            fact: Fact::Alive,
        }),
    }
}

/// Returns the first of the units that keep a step of a task, once a further one was read.
fn home_at(unit: usize, home: Option<usize>) -> Option<usize>
    ensures { result ≡ home_at unit home }
{
    match home {
        None => Some(unit),
        Some(first) => Some(first),
    }
}

/// Returns whether another unit than this one keeps a step of a task.
fn is_elsewhere(unit: usize, home: Option<usize>) -> bool
    ensures { result ≡ elsewhere unit home }
{
    match home {
        None => false,
        Some(first) => first != unit,
    }
}

/// All that is known of a request, as its answers and then the units are read.
#[derive(Clone, Copy)]
pub struct Tally {
    answer: Answer,
    /// The first unit that keeps a step of its task, or knows its folded Commit.
    home: Option<usize>,
    /// Another unit does, too.
    astray: bool,
    /// A unit keeps its Enter.
    entered: bool,
    /// A unit keeps its Full.
    full: bool,
    /// A unit keeps its Commit, or knows that it is folded.
    ran: bool,
    /// A unit keeps its Busy.
    busy: bool,
    /// Its task is alive in some unit.
    alive: bool,
}

impl Tally {
    /// Makes a tally before anything is read.
    pub(crate) fn fresh() -> Tally
        ensures { result ≡ fresh }
    {
        Tally {
            answer: Answer::Missing,
            home: None,
            astray: false,
            entered: false,
            full: false,
            ran: false,
            busy: false,
            alive: false,
        }
    }

    /// Returns the tally once a step of the task was read in a unit.
    fn visited(self, unit: usize) -> Tally
        ensures { result ≡ visited unit self }
    {
        Tally {
            home: home_at(unit, self.home),
            astray: is_elsewhere(unit, self.home) || self.astray,
            ..self
        }
    }

    /// Returns the tally with a step of the task.
    fn stepped(self, what: TaskStep) -> Tally
        ensures { result ≡ stepped what self }
    {
        match what {
            TaskStep::Enter => Tally {
                entered: true,
                ..self
            },
            TaskStep::Commit => Tally { ran: true, ..self },
            TaskStep::Busy => Tally { busy: true, ..self },
            TaskStep::Leave => self,
        }
    }

    /// Returns the tally once this was read.
    pub(crate) fn after(self, fact: Fact) -> Tally
        ensures { result ≡ after fact self }
    {
        match fact {
            Fact::Answered(more) => Tally {
                answer: self.answer.and(more),
                ..self
            },
            Fact::Full => Tally { full: true, ..self },
            Fact::Step(unit, what) => self.visited(unit).stepped(what),
            Fact::Alive => Tally {
                alive: true,
                ..self
            },
        }
    }

    /// Returns true if the request is settled, once all was read. Some unit's steps may be folded.
    pub(crate) fn ends_well(self, folded: bool) -> bool
        ensures { result ≡ ends_well folded self }
    {
        !self.alive
            && (!self.astray
                && self
                    .answer
                    .is_fine(self.entered, self.full, self.ran, self.busy, folded))
    }
}
