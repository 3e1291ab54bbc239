//! The steps that the tasks alive may still take. A log with room for these never lacks it when one of them runs, is
//! answered BUSY or leaves.

ghost use Rattle.std.specs.Prelude.{ℕ, ◌≡◌, ◌<◌, ◌≤◌, ◌+◌, ◌∷◌, List, true};
ghost use Rattle.ring_core.specs.declared.log.Ticket.{Ticket};
ghost use Rattle.unit_attention.specs.declared.code.Code.{Code};
ghost use Rattle.command_model.specs.PlainReply.{PlainReply};
ghost use Rattle.unit_model.specs.declared.rule.Rule.{Rule as ARule};
ghost use Rattle.unit_model.specs.Tasks.{Entry};
ghost use Rattle.unit_model.specs.Steps.{Step, is_alive};
ghost use Rattle.unit_model.specs.Seen.{tasks_of, owed};
ghost use Rattle.unit_model.specs.Contents.{Opening};
ghost use Rattle.unit_model.specs.Lawful.{IsLawful};

/// A task that enters may take two steps, and each that it takes is one of those owed; other steps change nothing.
pub fn each_step_is_owed()
    ensures enter { (o : Opening) (e : Entry) (past : List Step) → IsLawful o (Step.Enter e ∷ past) →
        owed (tasks_of (Step.Enter e ∷ past)) ≡ owed (tasks_of past) + 2 }
    ensures commit { (o : Opening) (t : Ticket) (r : PlainReply) (past : List Step) →
        IsLawful o (Step.Commit t r ∷ past) → owed (tasks_of (Step.Commit t r ∷ past)) + 1 ≤ owed (tasks_of past) }
    ensures busy { (o : Opening) (t : Ticket) (past : List Step) → IsLawful o (Step.Busy t ∷ past) →
        owed (tasks_of (Step.Busy t ∷ past)) + 1 ≤ owed (tasks_of past) }
    ensures leave { (o : Opening) (t : Ticket) (past : List Step) → IsLawful o (Step.Leave t ∷ past) →
        owed (tasks_of (Step.Leave t ∷ past)) + 1 ≤ owed (tasks_of past) }
    ensures full { (t : Ticket) (past : List Step) → owed (tasks_of (Step.Full t ∷ past)) ≡ owed (tasks_of past) }
    ensures resize { (blocks : ℕ) (past : List Step) →
        owed (tasks_of (Step.Resize blocks ∷ past)) ≡ owed (tasks_of past) }
    ensures abort { (o : Opening) (rule : ARule) (past : List Step) → IsLawful o past →
        owed (tasks_of (Step.Abort rule ∷ past)) ≡ owed (tasks_of past) }
    ensures reset { (o : Opening) (c : Code) (past : List Step) → IsLawful o past →
        owed (tasks_of (Step.Reset c ∷ past)) ≡ owed (tasks_of past) }
{}

/// At most 128 are owed, and where a task is alive, one is.
pub fn at_most_128_are_owed()
    ensures few { (o : Opening) (h : List Step) → IsLawful o h → owed (tasks_of h) ≤ 128 }
    ensures some { (t : Ticket) (h : List Step) → is_alive t h ≡ true → 0 < owed (tasks_of h) }
{}
