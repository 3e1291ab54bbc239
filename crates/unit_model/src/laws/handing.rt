//! Each task is handed out once: where it enters, where a Leave enables it, or where an Abort or a Reset marks
//! it. Said for any weight of tickets: what a step hands out is what the parked tasks weigh less after it.

ghost use Rattle.std.specs.Prelude.{ℕ, ◌≡◌, ◌<◌, ◌+◌, ◌∷◌, List, true, false, if◌then◌else◌};
ghost use Rattle.ring_core.specs.declared.log.Ticket.{Ticket};
ghost use Rattle.unit_attention.specs.declared.code.Code.{Code};
ghost use Rattle.command_model.specs.PlainReply.{PlainReply};
ghost use Rattle.unit_model.specs.declared.rule.Rule.{Rule as ARule};
ghost use Rattle.unit_model.specs.Tasks.{Entry, any_task, is_blocked};
ghost use Rattle.unit_model.specs.Steps.{Step, alive, has_entered};
ghost use Rattle.unit_model.specs.Enabling.{newly_enabled, newly_marked};
ghost use Rattle.unit_model.specs.Contents.{Opening};
ghost use Rattle.unit_model.specs.Lawful.{IsLawful};
ghost use Rattle.unit_model.specs.Weights.{weight, alive_count, parked_count, each_one};

/// Fewer tasks are parked than alive, if any is alive: one of them was handed out.
pub fn fewer_are_parked_than_alive()
    ensures { (h : List Step) → any_task (alive h) ≡ true → parked_count each_one h < alive_count each_one h }
{}

/// A task that enters is parked where the tasks that are alive then block it, and no other is parked or handed out.
pub fn an_enter_parks_what_is_blocked()
    ensures { (p : Ticket → ℕ) (e : Entry) (past : List Step) → has_entered e.ticket past ≡ false →
        parked_count p (Step.Enter e ∷ past)
        ≡ parked_count p past + (if is_blocked e (alive (Step.Enter e ∷ past)) then p e.ticket else 0) }
{}

/// A Leave hands out what it newly enables, which was parked, and parks none.
pub fn a_leave_hands_out_what_was_parked()
    ensures { (o : Opening) (p : Ticket → ℕ) (t : Ticket) (past : List Step) → IsLawful o (Step.Leave t ∷ past) →
        parked_count p past ≡ parked_count p (Step.Leave t ∷ past) + weight p (newly_enabled t past) }
{}

/// An Abort and a Reset hand out what they newly mark, which was parked, and park none.
pub fn marks_hand_out_what_was_parked()
    ensures abort { (p : Ticket → ℕ) (rule : ARule) (past : List Step) →
        parked_count p past ≡ parked_count p (Step.Abort rule ∷ past) + weight p (newly_marked (Step.Abort rule) past) }
    ensures reset { (p : Ticket → ℕ) (c : Code) (past : List Step) →
        parked_count p past ≡ parked_count p (Step.Reset c ∷ past) + weight p (newly_marked (Step.Reset c) past) }
{}

/// The other steps hand out none and park none.
pub fn other_steps_hand_out_nothing()
    ensures commit { (p : Ticket → ℕ) (t : Ticket) (r : PlainReply) (past : List Step) →
        parked_count p (Step.Commit t r ∷ past) ≡ parked_count p past }
    ensures busy { (p : Ticket → ℕ) (t : Ticket) (past : List Step) →
        parked_count p (Step.Busy t ∷ past) ≡ parked_count p past }
    ensures full { (p : Ticket → ℕ) (t : Ticket) (past : List Step) →
        parked_count p (Step.Full t ∷ past) ≡ parked_count p past }
    ensures resize { (p : Ticket → ℕ) (blocks : ℕ) (past : List Step) →
        parked_count p (Step.Resize blocks ∷ past) ≡ parked_count p past }
{}
