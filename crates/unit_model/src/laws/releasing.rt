//! Laws of the tasks that a step hands out, by what a task set keeps of each: those that waited before it and wait no
//! more.

ghost use Rattle.std.specs.Prelude.{◌≡◌, ◌&&◌, ◌∷◌, List, None, is_some, not, true};
ghost use Rattle.std.specs.List.{AllByRecursion};
ghost use Rattle.ring_core.specs.declared.log.Ticket.{Ticket};
ghost use Rattle.unit_attention.specs.declared.code.Code.{Code};
ghost use Rattle.unit_model.specs.declared.rule.Rule.{Rule as ARule};
ghost use Rattle.unit_model.specs.declared.rule.Rule.TheVariants.{All};
ghost use Rattle.unit_model.specs.declared.reason.Reason.TheVariants.{Aborted, Reset};
ghost use Rattle.unit_model.specs.Tasks.{task_of};
ghost use Rattle.unit_model.specs.Steps.{Step, alive};
ghost use Rattle.unit_model.specs.Enabling.{is_parked};
ghost use Rattle.unit_model.specs.Released.{released};
ghost use Rattle.unit_model.specs.Seen.{seen, waits, with_mark, freed};
ghost use Rattle.unit_model.specs.Contents.{Opening};
ghost use Rattle.unit_model.specs.Lawful.{IsLawful};

/// A Leave hands out the tasks that stay, that waited and that it frees (SAM-5 §8.6), and not the one that leaves.
pub fn a_leave_hands_out_what_it_frees()
    ensures staying { (o : Opening) (t : Ticket) (past : List Step) → IsLawful o (Step.Leave t ∷ past) →
        AllByRecursion (λ e. is_some (task_of e.ticket (released (Step.Leave t) past))
        ≡ (waits (seen past e) && not (waits (freed (alive (Step.Leave t ∷ past)) (seen past e)))))
        (alive (Step.Leave t ∷ past)) }
    ensures leaving { (o : Opening) (t : Ticket) (past : List Step) → IsLawful o (Step.Leave t ∷ past) →
        task_of t (released (Step.Leave t) past) ≡ None }
{}

/// An Abort and a Reset hand out those that waited and that they mark (SAM-5 §7.2, §7.3, §7.5 to §7.7).
pub fn marks_hand_out_what_they_mark()
    ensures abort { (o : Opening) (rule : ARule) (past : List Step) → IsLawful o past →
        AllByRecursion (λ e. is_some (task_of e.ticket (released (Step.Abort rule) past))
        ≡ (waits (seen past e) && not (waits (with_mark rule Aborted (seen past e)))))
        (alive past) }
    ensures reset { (o : Opening) (c : Code) (past : List Step) → IsLawful o past →
        AllByRecursion (λ e. is_some (task_of e.ticket (released (Step.Reset c) past))
        ≡ (waits (seen past e) && not (waits (with_mark All Reset (seen past e)))))
        (alive past) }
{}

/// A task that a step hands out was alive and parked before it.
pub fn what_is_handed_out_was_parked()
    ensures parked { (step : Step) (past : List Step) →
        AllByRecursion (λ e. is_parked past e ≡ true) (released step past) }
    ensures alive { (step : Step) (t : Ticket) (past : List Step) → task_of t (alive past) ≡ None →
        task_of t (released step past) ≡ None }
{}
