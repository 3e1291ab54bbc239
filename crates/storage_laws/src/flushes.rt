//! A flush lasts, and so does what was written through.

ghost use Rattle.std.specs.Prelude.{ℕ, ◌≡◌, Some, length};
ghost use Rattle.block_store.specs.Storage.{Ledger};
ghost use Rattle.ring_core.specs.declared.log.Ticket.{Ticket};
ghost use Rattle.unit_model.specs.Tasks.{Entry};
ghost use Rattle.unit_model.specs.Contents.{blocks_of};
ghost use Rattle.unit_model.specs.Flushing.{IsDurable, IsThrough};
ghost use Rattle.unit_model.specs.Unit.{PlainUnit};
ghost use Rattle.device_model.specs.World.{PlainWorld};
ghost use Rattle.device_model.specs.Transitions.{Transition};
ghost use Rattle.device_model.specs.After.{after};
ghost use Rattle.device_model.specs.Happens.{Happens};
ghost use Rattle.device_model.specs.Found.{UnitIs};

/// Where a crash leaves of each block that the command of a task flushes what the block was once the task might run, or later
/// (`IsDurable`), it leaves that behind each transition, too. `a_flush_ends_once_it_is_kept` says so of the moment when a
/// SYNCHRONIZE CACHE ends with GOOD, or a READ with FUA: so it is then, and from then on. Blocks have 512 bytes, as those of a
/// device have.
pub fn what_a_flush_left_stays()
    ensures { (w : PlainWorld) (d : Transition) (unit_index : ℕ) (u v : PlainUnit) (e : Entry) (l m : Ledger) → Happens d w →
        UnitIs w unit_index u → UnitIs (after d w) unit_index v → ((b : ℕ) → length (blocks_of u.opening u.steps b) ≡ 512) →
        u.storage ≡ Some l → v.storage ≡ Some m → IsDurable u.opening u.steps l e → IsDurable v.opening v.steps m e }
{}

/// Where a crash leaves each block as it was once the command of a task had run, or later (`IsThrough`), it leaves that behind
/// each transition, too. `a_command_is_answered_once_it_is_kept` says so of the moment when a command ends with GOOD that
/// changed blocks, and asked for the medium, or whose unit tells of no volatile write cache. Blocks have 512 bytes, as those of a
/// device have.
pub fn what_was_written_through_stays()
    ensures { (w : PlainWorld) (d : Transition) (unit_index : ℕ) (u v : PlainUnit) (t : Ticket) (l m : Ledger) → Happens d w →
        UnitIs w unit_index u → UnitIs (after d w) unit_index v → ((b : ℕ) → length (blocks_of u.opening u.steps b) ≡ 512) →
        u.storage ≡ Some l → v.storage ≡ Some m → IsThrough u.opening u.steps l t → IsThrough v.opening v.steps m t }
{}
