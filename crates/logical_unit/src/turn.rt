//! The turn of a task that was found.

ghost use Rattle.std.specs.Prelude.{◌≡◌, ◌≢◌, ◌||◌, is_some, IsTrue, IsFalse};
ghost use Rattle.unit_model.specs.Asking.{asked_of};
ghost use Rattle.logical_unit.specs.Inner.Turns.{Turns};

use cdb::{Command, ModeRequest, WideCommand};
use task_set::{Job, Task};
use unit_model::Reason;

/// The turn of a task for its job: it may run, it was marked, or it can't take the step.
#[derive(Drop)]
pub(crate) enum Turn {
    /// Nothing: it is another's, it did already, or it was never handed out.
    Unknown,
    /// It was marked, and ends so.
    Aborted(Reason),
    /// It runs.
    Ready,
}

/// Returns true if two MODE SENSEs ask for the same.
fn asks_same(request: ModeRequest, other: ModeRequest) -> bool
    ensures yes { IsTrue result → request ≡ other }
    ensures no { IsFalse result → request ≢ other }
{
    request == other
}

/// Returns true if two commands of the wide profile alone are one.
fn is_same_wide(command: WideCommand, other: WideCommand) -> bool
    ensures yes { IsTrue result → command ≡ other }
    ensures no { IsFalse result → command ≢ other }
{
    match (command, other) {
        (WideCommand::ModeSense(request), WideCommand::ModeSense(another)) => {
            asks_same(request, another)
        }
        (WideCommand::ModeSense(_), _) | (_, WideCommand::ModeSense(_)) => false,
        (WideCommand::ReadDefectData(request), WideCommand::ReadDefectData(another)) => {
            request == another
        }
        (WideCommand::ReadDefectData(_), _) | (_, WideCommand::ReadDefectData(_)) => false,
        _ => command == other,
    }
}

/// Returns true if two commands are one.
fn is_same(command: Command, other: Command) -> bool
    ensures yes { IsTrue result → command ≡ other }
    ensures no { IsFalse result → command ≢ other }
{
    match (command, other) {
        (Command::Wide(wide), Command::Wide(another)) => is_same_wide(wide, another),
        (Command::Wide(_), _) | (_, Command::Wide(_)) => false,
        _ => command == other,
    }
}

/// Returns true if the task entered with what the job says.
pub(crate) fn is_as_asked(task: &Task, job: &Job) -> bool
    ensures yes { IsTrue result → asked_of task.now.seen.entry ≡ asked_of job.now.entry }
    ensures no { IsFalse result → asked_of task.now.seen.entry ≢ asked_of job.now.entry }
{
    task.id() == job.id()
        && task.attribute() == job.attribute()
        && task.asks_medium() == job.asks_medium()
        && is_same(task.command(), job.command())
}

/// Returns what the task may do for the job of its ticket.
pub(crate) fn turn_of(task: &Task, job: &Job) -> Turn
    ensures { Turns task.now.seen job.now result }
{
    if !is_as_asked(task, job) || task.is_done() {
        return Turn::Unknown;
    }
    match task.mark() {
        Some(reason) => Turn::Aborted(reason),
        None => {
            if task.is_enabled() {
                Turn::Ready
            } else {
                Turn::Unknown
            }
        }
    }
}

/// Returns true if the task may leave: its command ran or was answered BUSY, or it was marked.
pub(crate) fn is_ended(task: &Task) -> bool
    ensures { result ≡ (task.now.seen.done || is_some task.now.seen.mark) }
{
    task.is_done() || task.mark().is_some()
}
