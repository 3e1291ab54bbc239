//! Laws of tasks: which are alive, enabled and blocked.

ghost use Rattle.std.specs.Prelude.{◌≡◌, ◌<◌, ◌≤◌, ◌∷◌, ◌++◌, List, length, true, false, not};
ghost use Rattle.std.specs.List.{list_any};
ghost use Rattle.ring_core.specs.declared.log.Ticket.{Ticket};
ghost use Rattle.command_model.specs.PlainReply.{PlainReply};
ghost use Rattle.unit_model.specs.Tasks.{Entry, AreDistinct, any_task, is_blocked};
ghost use Rattle.unit_model.specs.Steps.{Step, alive, is_alive, next_number, has_entered, done, has_left};
ghost use Rattle.unit_model.specs.Marks.{marked};
ghost use Rattle.unit_model.specs.Enabling.{enabled};
ghost use Rattle.unit_model.specs.Contents.{Opening};
ghost use Rattle.unit_model.specs.Lawful.{May, IsLawful};

/// A ticket is that of at most one task that is alive, and at most 64 tasks are alive.
pub fn alive_tasks_are_distinct()
    ensures distinct { (o : Opening) (h : List Step) → IsLawful o h → AreDistinct (alive h) }
    ensures few { (o : Opening) (h : List Step) → IsLawful o h → length (alive h) ≤ 64 }
{}

/// A ticket enters once, its command runs once, and what has left isn't alive.
pub fn each_happens_once()
    ensures enters { (o : Opening) (e : Entry) (past : List Step) → IsLawful o (Step.Enter e ∷ past) →
        has_entered e.ticket past ≡ false }
    ensures runs { (o : Opening) (t : Ticket) (r : PlainReply) (past : List Step) →
        IsLawful o (Step.Commit t r ∷ past) → done t past ≡ false }
    ensures leaves { (o : Opening) (t : Ticket) (h : List Step) → IsLawful o h → has_left t h ≡ true →
        is_alive t h ≡ false }
{}

/// A task never enters where 64 are alive, and is never refused with TASK SET FULL where fewer are.
pub fn full_alone_where_64_are_alive()
    ensures full { (o : Opening) (e : Entry) (past : List Step) → length (alive past) ≡ 64 →
        May o (Step.Enter e) past → ⊥ }
    ensures refused { (o : Opening) (t : Ticket) (past : List Step) → length (alive past) ≡ 64 →
        next_number t.queue past ≤ t.number → May o (Step.Full t) past }
    ensures not_full { (o : Opening) (t : Ticket) (past : List Step) → length (alive past) < 64 →
        May o (Step.Full t) past → ⊥ }
{}

/// A task that was found enabled once stays so, whatever follows.
pub fn enabled_stays_enabled()
    ensures { (e : Entry) (later past : List Step) → enabled e past ≡ true → enabled e (later ++ past) ≡ true }
{}

/// A task that enters is enabled exactly where the tasks that are alive then don't block it.
pub fn unblocked_is_enabled_at_once()
    ensures { (e : Entry) (past : List Step) → has_entered e.ticket past ≡ false →
        enabled e (Step.Enter e ∷ past) ≡ not (is_blocked e (alive (Step.Enter e ∷ past))) }
{}

/// At least one of the tasks alive isn't blocked, if any is alive.
pub fn some_task_is_free()
    ensures { (h : List Step) → any_task (alive h) ≡ true →
        list_any (λ e. not (is_blocked e (alive h))) (alive h) ≡ true }
{}

/// A task that is neither done nor marked doesn't leave.
pub fn leaves_once_ended()
    ensures { (o : Opening) (t : Ticket) (past : List Step) → done t past ≡ false → marked t past ≡ false →
        May o (Step.Leave t) past → ⊥ }
{}
