//! Laws that follow from the definitions alone.

ghost use Rattle.std.specs.Prelude.{◌≡◌, ◌≢◌, ◌<◌, ◌≤◌, ◌==◌, nat_le, ℕ, Bool, true, false, List, [], ◌∷◌, length, map, slice_get, Option, Some, None, Ok, Err};
ghost use Rattle.std.specs.List.{list_any};
ghost use Rattle.unit_model.specs.Steps.{Step};
ghost use Rattle.unit_model.specs.Clearing.{is_clear};
ghost use Rattle.unit_model.specs.declared.rule.Rule.{Rule};
ghost use Rattle.unit_model.specs.declared.rule.Rule.TheVariants.{Id, All};
ghost use Rattle.scsi_codec.specs.declared.lun.Address.{Address};
ghost use Rattle.scsi_codec.specs.declared.control_queue.FunctionResponse.TheVariants.{Complete, BadTarget, Failure, Succeeded, Rejected, IncorrectLun};
ghost use Rattle.scsi_codec.specs.declared.control_queue.Control.TheVariants.{TaskManagement, AsynchronousNotification, MalformedFunction, MalformedNotification};
ghost use Rattle.request_intake.specs.Inventory.{has_target, index_of};
ghost use Rattle.task_mgmt.specs.declared.kind.Kind.{Kind};
ghost use Rattle.task_mgmt.specs.declared.kind.Kind.TheVariants.{Marking, Querying};
ghost use Rattle.task_mgmt.specs.declared.kind.MarkBy.{MarkBy};
ghost use Rattle.task_mgmt.specs.declared.kind.MarkBy.TheVariants.{Abort, Reset};
ghost use Rattle.task_mgmt.specs.declared.function.Mark.{Mark};
ghost use Rattle.task_mgmt.specs.declared.control.ControlDecision.TheVariants.{Direct};
ghost use Rattle.task_mgmt.specs.Functions.{PlainFunction, kind_of, opened, next_look, failing, is_over, response_of};
ghost use Rattle.task_mgmt.specs.Demands.{is_of_target, indexes_of, demanded};
ghost use Rattle.task_mgmt.specs.Control.{decided_of};
ghost use Rattle.task_mgmt.specs.Visits.{all_marked, all_asked, all_checked, AreRising};

use unit_attention::Code;

/// Each subtype has its kind (VIRTIO 1.2 §5.6.6.2, SAM-5 §7.2 to §7.10).
pub fn kinds_by_subtype()
    ensures abort_task { (id : ℕ) → kind_of 0 id ≡ Some (Marking (Abort (Id id))) }
    ensures abort_task_set { (id : ℕ) → kind_of 1 id ≡ Some (Marking (Abort All)) }
    ensures clear_aca { (id : ℕ) → kind_of 2 id ≡ None }
    ensures clear_task_set { (id : ℕ) → kind_of 3 id ≡ Some (Marking (Abort All)) }
    ensures nexus_reset { (id : ℕ) → kind_of 4 id ≡ Some (Marking (Reset Code.I_T_NEXUS_LOSS)) }
    ensures unit_reset { (id : ℕ) → kind_of 5 id ≡ Some (Marking (Reset Code.BUS_DEVICE_RESET_FUNCTION)) }
    ensures query_task { (id : ℕ) → kind_of 6 id ≡ Some (Querying (Id id)) }
    ensures query_task_set { (id : ℕ) → kind_of 7 id ≡ Some (Querying All) }
    ensures others { (subtype id : ℕ) → 7 < subtype → kind_of subtype id ≡ None }
{}

/// The first cause that holds is the refusal: a subtype that isn't offered, an address that isn't readable or a
/// target that isn't there, a LUN that its target lacks.
pub fn refusals_in_order()
    ensures subtype { (units : List Address) (subtype : ℕ) (address : Option Address) (id : ℕ)
        → kind_of subtype id ≡ None → demanded units subtype address id ≡ Err Rejected }
    ensures address { (units : List Address) (subtype : ℕ) (id : ℕ) (kind : Kind)
        → kind_of subtype id ≡ Some kind → demanded units subtype None id ≡ Err BadTarget }
    ensures target { (units : List Address) (subtype : ℕ) (a : Address) (id : ℕ) (kind : Kind)
        → kind_of subtype id ≡ Some kind → has_target units a.target ≡ false
        → demanded units subtype (Some a) id ≡ Err BadTarget }
    ensures lun { (units : List Address) (subtype : ℕ) (a : Address) (id : ℕ) (kind : Kind)
        → kind_of subtype id ≡ Some kind → has_target units a.target ≡ true → subtype ≢ 4
        → index_of units a ≡ None → demanded units subtype (Some a) id ≡ Err IncorrectLun }
{}

/// A function that isn't refused is for one unit, or for all units of its target, whatever the LUN.
pub fn units_of_functions()
    ensures one { (units : List Address) (subtype : ℕ) (a : Address) (id unit_index : ℕ) (kind : Kind)
        → kind_of subtype id ≡ Some kind → has_target units a.target ≡ true → subtype ≢ 4
        → index_of units a ≡ Some unit_index → demanded units subtype (Some a) id ≡ Ok (kind, unit_index ∷ []) }
    ensures all { (units : List Address) (a : Address) (id : ℕ) → has_target units a.target ≡ true
        → demanded units 4 (Some a) id ≡ Ok (Marking (Reset Code.I_T_NEXUS_LOSS), indexes_of units a.target) }
{}

/// The indexes of a target's units are all that there are, each once, rising.
pub fn places_are_those_of_the_target()
    ensures all { (units : List Address) (target unit_index : ℕ)
        → list_any (λ it. it == unit_index) (indexes_of units target) ≡ is_of_target target (slice_get units unit_index) }
    ensures rising { (units : List Address) (target : ℕ) → AreRising (indexes_of units target) }
{}

/// A function that marks visits each of its units once, in their order, and waits for each mark.
pub fn each_unit_is_marked_once()
    ensures none_left { (kind : Kind) (units places : List ℕ) → length places ≡ length units
        → (all_marked places (opened kind units)).left ≡ [] }
    ensures units { (kind : Kind) (units places : List ℕ) → length places ≡ length units
        → map (λ (m : Mark). m.unit) (all_marked places (opened kind units)).waits ≡ units }
    ensures places { (kind : Kind) (units places : List ℕ) → length places ≡ length units
        → map (λ (m : Mark). m.place) (all_marked places (opened kind units)).waits ≡ places }
{}

/// A query looks at each of its units once, in their order, is over once each of them was checked, and not before, and
/// is answered whether a look found a task.
pub fn each_unit_is_asked_once()
    ensures none_left { (kind : Kind) (units : List ℕ) (looks : List Bool) → length looks ≡ length units
        → (all_asked looks (opened kind units)).left ≡ [] }
    ensures units { (kind : Kind) (units : List ℕ) (looks : List Bool) → length looks ≡ length units
        → map (λ (m : Mark). m.unit) (all_asked looks (opened kind units)).waits ≡ units }
    ensures over { (kind : Kind) (units : List ℕ) (looks : List Bool) (n : ℕ) → length looks ≡ length units
        → is_over (all_checked n (all_asked looks (opened kind units))) ≡ nat_le (length units) n }
    ensures found { (kind : Kind) (units : List ℕ) (looks : List Bool)
        → (all_asked looks (opened kind units)).found ≡ list_any (λ look. look) looks }
{}

/// A query's check of a unit is clear whatever the unit's history, now and later.
pub fn looks_are_clear()
    ensures { (f : PlainFunction) (h : List Step) → is_clear (next_look f).place h ≡ true }
{}

/// A function that has no unit left is over once each of its marks was clear, and not before.
pub fn each_mark_is_waited_for()
    ensures { (f : PlainFunction) (n : ℕ) → f.left ≡ []
        → is_over (all_checked n f) ≡ nat_le (length f.waits) n }
{}

/// A function that was refused memory has no unit left, waits for the marks that it made, and has failed.
pub fn refused_functions_fail()
    ensures none_left { (f : PlainFunction) (n : ℕ) → (all_checked n (failing f)).left ≡ [] }
    ensures over { (f : PlainFunction) (n : ℕ)
        → is_over (all_checked n (failing f)) ≡ nat_le (length f.waits) n }
    ensures fails { (f : PlainFunction) (n : ℕ) → response_of (all_checked n (failing f)) ≡ Failure }
{}

/// A function that wasn't refused memory is answered by its kind and by what it found.
pub fn responses_of_functions()
    ensures marking { (f : PlainFunction) (mark : MarkBy)
        → f.kind ≡ Marking mark → f.refused ≡ false → response_of f ≡ Complete }
    ensures found { (f : PlainFunction) (rule : Rule)
        → f.kind ≡ Querying rule → f.refused ≡ false → f.found ≡ true → response_of f ≡ Succeeded }
    ensures not_found { (f : PlainFunction) (rule : Rule)
        → f.kind ≡ Querying rule → f.refused ≡ false → f.found ≡ false → response_of f ≡ Complete }
{}

/// The answers that need no function, with room and without.
pub fn direct_answers()
    ensures notification { (units : List Address)
        → decided_of units AsynchronousNotification 5 ≡ Direct (0 ∷ 0 ∷ 0 ∷ 0 ∷ 0 ∷ []) }
    ensures malformed_notification { (units : List Address)
        → decided_of units MalformedNotification 5 ≡ Direct (0 ∷ 0 ∷ 0 ∷ 0 ∷ 9 ∷ []) }
    ensures malformed_function { (units : List Address) → decided_of units MalformedFunction 1 ≡ Direct (9 ∷ []) }
    ensures short_notification { (units : List Address) → decided_of units AsynchronousNotification 4 ≡ Direct [] }
    ensures short_malformed_notification { (units : List Address)
        → decided_of units MalformedNotification 4 ≡ Direct [] }
    ensures short_malformed_function { (units : List Address) → decided_of units MalformedFunction 0 ≡ Direct [] }
    ensures short_function { (units : List Address) (subtype : ℕ) (address : Option Address) (id : ℕ)
        → decided_of units (TaskManagement subtype address id) 0 ≡ Direct [] }
{}
