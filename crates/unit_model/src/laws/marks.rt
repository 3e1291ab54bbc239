//! Laws of marks: what they say of tasks, and when a place is clear.

ghost use Rattle.std.specs.Prelude.{ℕ, ◌≡◌, ◌↔◌, ◌∷◌, ◌++◌, List, Some, None, true, false, not};
ghost use Rattle.ring_core.specs.declared.log.Ticket.{Ticket};
ghost use Rattle.unit_model.specs.declared.reason.Reason.{Reason as AReason};
ghost use Rattle.unit_model.specs.declared.rule.Rule.{Rule as ARule};
ghost use Rattle.unit_model.specs.Steps.{Step, done, has_left};
ghost use Rattle.unit_model.specs.Marks.{mark_of, marked};
ghost use Rattle.unit_model.specs.Seen.{tasks_of, any_before};
ghost use Rattle.unit_model.specs.Clearing.{is_clear, AreGone, rule_at};
ghost use Rattle.unit_model.specs.Contents.{Opening};
ghost use Rattle.unit_model.specs.Lawful.{IsLawful};

/// A task that is marked has no Commit and no Busy, neither before nor in whatever follows: its command
/// changed nothing. A task that is done isn't marked.
pub fn marked_commands_never_run()
    ensures never { (o : Opening) (t : Ticket) (later past : List Step) → IsLawful o (later ++ past) →
        marked t past ≡ true → done t (later ++ past) ≡ false }
    ensures never_after { (o : Opening) (t : Ticket) (later past : List Step) → IsLawful o (later ++ past) →
        done t past ≡ true → marked t (later ++ past) ≡ false }
{}

/// A task that left with no Commit and no Busy was marked.
pub fn what_left_undone_was_marked()
    ensures { (o : Opening) (t : Ticket) (h : List Step) → IsLawful o h → has_left t h ≡ true → done t h ≡ false →
        marked t h ≡ true }
{}

/// The reason of a task's first mark stays.
pub fn first_mark_stays()
    ensures { (t : Ticket) (r : AReason) (later past : List Step) → mark_of t past ≡ Some r →
        mark_of t (later ++ past) ≡ Some r }
{}

/// A place is clear exactly where each task that its step met has left.
pub fn places_are_clear_when_all_have_left()
    ensures { (o : Opening) (place : ℕ) (h : List Step) → IsLawful o h → (is_clear place h ≡ true) ↔ AreGone place h }
{}

/// The place of an Abort or a Reset is clear exactly where its rule meets none of the tasks alive that entered before
/// it (SAM-5 §7.2, §7.3, §7.5 to §7.7). Any other place is clear. So a task set alone tells which places are clear.
pub fn places_are_clear_where_no_earlier_task_is_met()
    ensures met { (o : Opening) (place : ℕ) (rule : ARule) (h : List Step) →
        IsLawful o h → rule_at place h ≡ Some rule →
        is_clear place h ≡ not (any_before place rule (tasks_of h)) }
    ensures none { (place : ℕ) (h : List Step) → rule_at place h ≡ None → is_clear place h ≡ true }
{}
