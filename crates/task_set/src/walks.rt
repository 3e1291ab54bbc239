//! Passes over the tasks of a set, which stand by order of entry.

ghost use Rattle.std.specs.Prelude.{◌≡◌, ◌+◌, ◌<◌, ◌≤◌, ◌++◌, length, map, ◌||◌, nat_lt, IfSome, IfNone, slice_index_or, Some, None};
ghost use Rattle.std.specs.List.{remove};
ghost use Rattle.unit_model.specs.Tasks.{AreDistinct, any_head_of_queue, any_ordered, is_ordered};
ghost use Rattle.unit_model.specs.Seen.{any_met, any_before, finished, with_mark, freed};
ghost use Rattle.task_set.specs.Tasks.{PlainTask};
ghost use Rattle.task_set.specs.Inner.Tasks.{entries_of, seen_of, moved, all_given, task_at, without, blocked_where};

use crate::job::JobList;
use crate::task::Task;
use request_intake::TaskAttribute;
use ring_core::Ticket;
use unit_model::{Reason, Rule};

/// Returns true if there is a HEAD OF QUEUE task.
fn has_head_of_queue(tasks: &[Task]) -> bool
    ensures { result ≡ any_head_of_queue (entries_of tasks.now) }
{
    for task in tasks {
        if task.attribute() == TaskAttribute::HeadOfQueue {
            return true;
        }
    }
    false
}

/// Returns the index of the task of a ticket.
pub(crate) fn index_of(tasks: &[Task], ticket: Ticket) -> Option<usize>
    ensures none { IfNone result ((task_at ticket tasks.now ≡ None) × (without ticket tasks.now ≡ tasks.now)) }
    ensures within { IfSome result (λ i. i < length tasks.now) }
    ensures task { IfSome result
        (λ i. (d : PlainTask) → task_at ticket tasks.now ≡ Some (slice_index_or tasks.now i d)) }
    ensures rest { IfSome result (λ i. without ticket tasks.now ≡ remove tasks.now i) }
{
    for (i, task) in tasks.iter().enumerate() {
        if task.ticket() == ticket {
            return Some(i);
        }
    }
    None
}

/// Tells that the command of this ticket ran, or was answered BUSY.
pub(crate) fn finish_all(tasks: &mut [Task], ticket: Ticket, well: bool)
    ensures { tasks.new ≡ map (moved (finished ticket well)) tasks.old }
{
    for task in tasks.iter_mut() {
        task.finish(ticket, well);
    }
}

/// Marks each task that the rule meets and that isn't done, and hands out those that were parked.
pub(crate) fn mark_all(tasks: &mut [Task], rule: Rule, reason: Reason, out: &mut JobList)
    requires { length out.old.jobs + length tasks.old ≤ out.old.limit }
    ensures tasks { tasks.new ≡ map (moved (with_mark rule reason)) tasks.old }
    ensures out { out.new ≡ record out.old { jobs = out.old.jobs ++ all_given (with_mark rule reason) tasks.old } }
{
    for task in tasks.iter_mut() {
        task.mark_by(rule, reason, out);
    }
}

/// Returns true if a task of this attribute is blocked, by a HEAD OF QUEUE task anywhere, or by an ORDERED one or any
/// one before it.
fn is_blocked(attribute: TaskAttribute, head_of_queue: bool, ordered: bool, any: bool) -> bool
    ensures { result ≡ blocked_where attribute head_of_queue ordered any }
{
    match attribute {
        TaskAttribute::HeadOfQueue => false,
        TaskAttribute::Simple => head_of_queue || ordered,
        TaskAttribute::Ordered => head_of_queue || any,
    }
}

/// Returns true if an ORDERED task stands before what comes behind a task of this attribute.
fn has_ordered(before: bool, attribute: TaskAttribute) -> bool
    ensures { result ≡ (before || is_ordered attribute) }
{
    before || attribute == TaskAttribute::Ordered
}

/// Lets each task run that no other blocks, and hands out those that were parked. One pass looks for a HEAD OF
/// QUEUE task, one knows what stood before each.
pub(crate) fn free_all(tasks: &mut [Task], out: &mut JobList)
    requires room { length out.old.jobs + length tasks.old ≤ out.old.limit }
    requires distinct { AreDistinct (entries_of tasks.old) }
    ensures tasks { tasks.new ≡ map (moved (freed (entries_of tasks.old))) tasks.old }
    ensures out { out.new
        ≡ record out.old { jobs = out.old.jobs ++ all_given (freed (entries_of tasks.old)) tasks.old } }
{
    let head_of_queue = has_head_of_queue(tasks);
    let mut ordered = false;
    for (i, task) in tasks.iter_mut().enumerate() {
        let attribute = task.attribute();
        let blocked = is_blocked(attribute, head_of_queue, ordered, i > 0);
        ordered = has_ordered(ordered, attribute);
        task.enable_unless(blocked, out);
    }
}

/// Returns true if a rule meets a task.
pub(crate) fn has_met(tasks: &[Task], rule: Rule) -> bool
    ensures { result ≡ any_met rule (entries_of tasks.now) }
{
    for task in tasks {
        if task.is_met(rule) {
            return true;
        }
    }
    false
}

/// Returns true if a rule meets a task that entered before a place of the history.
pub(crate) fn has_met_before(tasks: &[Task], place: u64, rule: Rule) -> bool
    ensures { result ≡ any_before place rule (seen_of tasks.now) }
{
    for task in tasks {
        if task.place() < place && task.is_met(rule) {
            return true;
        }
    }
    false
}
