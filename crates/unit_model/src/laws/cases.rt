//! Small cases, which show what the definitions say.

ghost use Rattle.std.specs.Prelude.{ℕ, ◌≡◌, ◌∷◌, List, [], length, Some, None, false, true};
ghost use Rattle.request_intake.specs.declared.attribute.TaskAttribute.TheVariants.{Simple, Ordered, HeadOfQueue};
ghost use Rattle.unit_attention.specs.Code.{code};
ghost use Rattle.cdb.specs.declared.commands.Command.TheVariants.{Read};
ghost use Rattle.command_model.specs.PlainReply.{PlainReply, success};
ghost use Rattle.block_store.specs.Blocks.{zero_block};
ghost use Rattle.unit_model.specs.declared.rule.Rule.TheVariants.{Id};
ghost use Rattle.unit_model.specs.declared.reason.Reason.TheVariants.{Aborted, Reset};
ghost use Rattle.unit_model.specs.Steps.{Step};
ghost use Rattle.unit_model.specs.Marks.{mark_of};
ghost use Rattle.unit_model.specs.Enabling.{enabled, newly_enabled, newly_marked};
ghost use Rattle.unit_model.specs.Clearing.{is_clear};
ghost use Rattle.unit_model.specs.Contents.{blocks_of, reply_after};
ghost use Rattle.unit_model.specs.Lawful.{May, IsLawful};
ghost use Rattle.unit_model.specs.Cases.{calm_unit, nth, test_unit_ready, three_enter, runs, leaves, ordered_between, after_both, simple_first, head_first, write_of_3, read_of_3, parked_write, taken_write, committed_write};

/// An ORDERED task between SIMPLE ones runs after the older one left, and the younger one runs after
/// it left (SAM-5 §8.6).
pub fn ordered_stands_between()
    ensures lawful { IsLawful calm_unit ordered_between }
    ensures handed_out_in_turn { newly_enabled (nth 0) (runs 0 ∷ three_enter Ordered) ≡ test_unit_ready 1 Ordered ∷ [] }
    ensures not_before_the_older_left { (r : PlainReply) →
        May calm_unit (Step.Commit (nth 1) r) (runs 0 ∷ three_enter Ordered) → ⊥ }
    ensures not_after_the_younger { (r : PlainReply) →
        May calm_unit (Step.Commit (nth 2) r) (leaves 0 ∷ runs 0 ∷ three_enter Ordered) → ⊥ }
{}

/// A HEAD OF QUEUE task runs at once, before or after an older SIMPLE task that is alive; a younger SIMPLE
/// task isn't enabled until it left (SAM-5 §8.6).
pub fn either_may_be_first()
    ensures simple_first { IsLawful calm_unit (after_both simple_first) }
    ensures head_first { IsLawful calm_unit (after_both head_first) }
    ensures younger_waits { enabled (test_unit_ready 2 Simple) (leaves 0 ∷ simple_first) ≡ false }
    ensures none_handed_out { newly_enabled (nth 0) simple_first ≡ [] }
    ensures younger_goes_on { enabled (test_unit_ready 2 Simple) (leaves 1 ∷ leaves 0 ∷ simple_first) ≡ true }
{}

/// An abort of a task that is parked marks it, and hands it out. It doesn't meet a task with another identifier. The
/// block that the aborted task would have written is zeros (SAM-5 §7.2).
pub fn abort_of_a_parked_task()
    ensures marked { (bytes : List ℕ) → mark_of (nth 1) (Step.Abort (Id 7) ∷ parked_write bytes) ≡ Some Aborted }
    ensures handed_out { (bytes : List ℕ) →
        newly_marked (Step.Abort (Id 7)) (parked_write bytes) ≡ write_of_3 1 bytes ∷ [] }
    ensures not_met { (bytes : List ℕ) → mark_of (nth 0) (Step.Abort (Id 7) ∷ parked_write bytes) ≡ None }
    ensures unwritten { (bytes : List ℕ) → blocks_of calm_unit (Step.Abort (Id 7) ∷ parked_write bytes) 3 ≡ zero_block }
    ensures lawful { (bytes : List ℕ) →
        IsLawful calm_unit (leaves 0 ∷ runs 0 ∷ leaves 1 ∷ Step.Abort (Id 7) ∷ parked_write bytes) }
{}

/// An abort of a task that was handed out and has not run marks it, and hands out none; it waits for it.
pub fn abort_of_a_taken_task()
    ensures marked { (bytes : List ℕ) → mark_of (nth 1) (Step.Abort (Id 7) ∷ taken_write bytes) ≡ Some Aborted }
    ensures first_reason { (bytes : List ℕ) →
        mark_of (nth 1) (Step.Abort (Id 7) ∷ Step.Reset (code 0x29 0x03) ∷ taken_write bytes) ≡ Some Reset }
    ensures never_runs { (bytes : List ℕ) (r : PlainReply) →
        May calm_unit (Step.Commit (nth 1) r) (Step.Abort (Id 7) ∷ taken_write bytes) → ⊥ }
    ensures none_handed_out { (bytes : List ℕ) → newly_marked (Step.Abort (Id 7)) (taken_write bytes) ≡ [] }
    ensures unwritten { (bytes : List ℕ) → blocks_of calm_unit (Step.Abort (Id 7) ∷ taken_write bytes) 3 ≡ zero_block }
    ensures waits { (bytes : List ℕ) → is_clear 1 (Step.Abort (Id 7) ∷ taken_write bytes) ≡ false }
    ensures goes_on { (bytes : List ℕ) → is_clear 1 (leaves 1 ∷ Step.Abort (Id 7) ∷ taken_write bytes) ≡ true }
{}

/// An abort of a task that ran doesn't mark it, and still waits for it.
pub fn abort_of_a_committed_task()
    ensures unmarked { (bytes : List ℕ) → mark_of (nth 1) (Step.Abort (Id 7) ∷ committed_write bytes) ≡ None }
    ensures lawful { (bytes : List ℕ) → IsLawful calm_unit (leaves 1 ∷ Step.Abort (Id 7) ∷ committed_write bytes) }
    ensures written { (bytes : List ℕ) → length bytes ≡ 512 →
        blocks_of calm_unit (Step.Abort (Id 7) ∷ committed_write bytes) 3 ≡ bytes }
    ensures waits { (bytes : List ℕ) → is_clear 2 (Step.Abort (Id 7) ∷ committed_write bytes) ≡ false }
    ensures goes_on { (bytes : List ℕ) → is_clear 2 (leaves 1 ∷ Step.Abort (Id 7) ∷ committed_write bytes) ≡ true }
{}

/// A READ of a block that a WRITE gave its data gives these.
pub fn what_was_written_is_read()
    ensures { (bytes : List ℕ) → length bytes ≡ 512 →
        reply_after calm_unit (read_of_3 2) (leaves 1 ∷ committed_write bytes) ≡ success (Read 3 1) bytes }
{}
