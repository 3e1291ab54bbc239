//! Laws of what a task set keeps of its tasks after each step, told by what it kept before: it needs no history.

ghost use Rattle.std.specs.Prelude.{ℕ, ◌≡◌, ◌==◌, ◌∷◌, ◌++◌, List, [], length, map, false, Some};
ghost use Rattle.std.specs.Option.{option_map};
ghost use Rattle.ring_core.specs.declared.log.Ticket.{Ticket};
ghost use Rattle.unit_attention.specs.declared.code.Code.{Code};
ghost use Rattle.command_model.specs.PlainReply.{PlainReply};
ghost use Rattle.command_model.specs.Statuses.{good};
ghost use Rattle.unit_model.specs.declared.rule.Rule.{Rule as ARule};
ghost use Rattle.unit_model.specs.declared.rule.Rule.TheVariants.{All};
ghost use Rattle.unit_model.specs.declared.reason.Reason.TheVariants.{Aborted, Reset};
ghost use Rattle.unit_model.specs.Tasks.{Entry, task_of, without};
ghost use Rattle.unit_model.specs.Steps.{Step, alive};
ghost use Rattle.unit_model.specs.Seen.{Seen, seen, tasks_of, entries, seen_at, others, joined, finished, with_mark, freed};
ghost use Rattle.unit_model.specs.Contents.{Opening};
ghost use Rattle.unit_model.specs.Lawful.{IsLawful};

/// A task set keeps the tasks that are alive, and finds them by ticket.
pub fn what_is_kept_is_alive()
    ensures entries { (h : List Step) → entries (tasks_of h) ≡ alive h }
    ensures number { (h : List Step) → length (tasks_of h) ≡ length (alive h) }
    ensures found { (t : Ticket) (h : List Step) → seen_at t (tasks_of h) ≡ option_map (seen h) (task_of t (alive h)) }
    ensures own { (t : Ticket) (h : List Step) (s : Seen) → seen_at t (tasks_of h) ≡ Some s →
        (task_of t (alive h) ≡ Some s.entry) × (s ≡ seen h s.entry) }
    ensures others { (t : Ticket) (h : List Step) → entries (others t (tasks_of h)) ≡ without t (alive h) }
{}

/// An Enter appends its task and changes no other; a Full and a Resize change none.
pub fn an_enter_appends()
    ensures enter { (o : Opening) (e : Entry) (past : List Step) → IsLawful o (Step.Enter e ∷ past) →
        tasks_of (Step.Enter e ∷ past) ≡ tasks_of past ++ joined (length past) (alive past ++ e ∷ []) e ∷ [] }
    ensures full { (t : Ticket) (past : List Step) → tasks_of (Step.Full t ∷ past) ≡ tasks_of past }
    ensures resize { (blocks : ℕ) (past : List Step) → tasks_of (Step.Resize blocks ∷ past) ≡ tasks_of past }
{}

/// A task is done after its Commit or Busy, well after a Commit with GOOD, and no other changes.
pub fn a_commit_or_busy_finishes()
    ensures commit { (t : Ticket) (r : PlainReply) (past : List Step) →
        tasks_of (Step.Commit t r ∷ past) ≡ map (finished t (r.status == good)) (tasks_of past) }
    ensures busy { (t : Ticket) (past : List Step) → tasks_of (Step.Busy t ∷ past) ≡ map (finished t false) (tasks_of past) }
{}

/// An Abort and a Reset mark those that they meet, where they aren't done.
pub fn an_abort_or_reset_marks()
    ensures abort { (o : Opening) (rule : ARule) (past : List Step) → IsLawful o past →
        tasks_of (Step.Abort rule ∷ past) ≡ map (with_mark rule Aborted) (tasks_of past) }
    ensures reset { (o : Opening) (c : Code) (past : List Step) → IsLawful o past →
        tasks_of (Step.Reset c ∷ past) ≡ map (with_mark All Reset) (tasks_of past) }
{}

/// A Leave takes its task away, and the others are enabled where those that are left don't block them.
pub fn a_leave_frees()
    ensures { (t : Ticket) (past : List Step) →
        tasks_of (Step.Leave t ∷ past) ≡ map (freed (entries (others t (tasks_of past)))) (others t (tasks_of past)) }
{}
