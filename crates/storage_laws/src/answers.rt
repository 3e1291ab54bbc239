//! What is answered is on the medium.

ghost use Rattle.std.specs.Prelude.{ℕ, ◌≡◌, List, Some, true};
ghost use Rattle.block_store.specs.Storage.{Ledger};
ghost use Rattle.command_model.specs.PlainReply.{PlainReply};
ghost use Rattle.unit_model.specs.Endings.{Ending};
ghost use Rattle.unit_model.specs.Flushing.{IsThrough};
ghost use Rattle.unit_model.specs.Jobs.{PlainJob};
ghost use Rattle.unit_model.specs.Unit.{PlainUnit, waits_behind};
ghost use Rattle.device_model.specs.Parts.{Outcome, Hand};
ghost use Rattle.device_model.specs.World.{PlainWorld};
ghost use Rattle.device_model.specs.Happens.{Occurrence, Reached, transitions_of};
ghost use Rattle.device_model.specs.Found.{UnitIs, HasHand};
ghost use Rattle.storage_laws.specs.Whole.{KeepsWholeBlocks};

/// A command that changed the blocks of its unit ended with GOOD. The unit tells of no volatile write cache, or the command asked
/// for the medium (FUA). As long as that reply is to be told, a crash leaves each block as it was once the command had run, or
/// later. `what_was_written_through_stays` says that it does so behind the answer, too. Blocks have 512 bytes all along, as those
/// of a device have.
pub fn an_answer_is_on_the_medium()
    ensures { (old : PlainWorld) (trace : List Occurrence) (w : PlainWorld) (reached : Reached old trace w) (k : ℕ) (x : PlainJob)
        (r : PlainReply) (u : PlainUnit) (l : Ledger) → KeepsWholeBlocks old (transitions_of old trace w reached.runs) →
        HasHand w k (Hand.Done x (Outcome.Ended (Ending.Replied r))) → UnitIs w x.unit u → u.storage ≡ Some l →
        waits_behind u x.entry r.status ≡ true → IsThrough u.opening u.steps l x.entry.ticket }
{}
