//! Laws of what the host's storage has of units' disks, in every order of the device's steps. They say nothing of code: they
//! hold of every program whose calls are transitions.

ghost use Rattle.std.specs.Prelude.{ℕ, ◌≡◌, ◌∷◌, Some, true, false};
ghost use Rattle.block_store.specs.Blocks.{Blocks};
ghost use Rattle.block_store.specs.Storage.{Ledger, Dealing, IsLeft};
ghost use Rattle.command_model.specs.PlainReply.{PlainReply};
ghost use Rattle.command_model.specs.Statuses.{good};
ghost use Rattle.command_model.specs.Waiting.{flushes, is_read};
ghost use Rattle.unit_model.specs.Tasks.{Entry, task_of};
ghost use Rattle.unit_model.specs.Steps.{Step, alive};
ghost use Rattle.unit_model.specs.Contents.{blocks_of};
ghost use Rattle.unit_model.specs.Flushing.{HasBeen, HasBeenBehind, is_in_flush};
ghost use Rattle.unit_model.specs.Jobs.{PlainJob};
ghost use Rattle.unit_model.specs.Unit.{PlainUnit, is_backed, waits_behind, dealing};
ghost use Rattle.device_model.specs.World.{PlainWorld};
ghost use Rattle.device_model.specs.Transitions.{Transition};
ghost use Rattle.device_model.specs.After.{after};
ghost use Rattle.device_model.specs.Happens.{Happens};
ghost use Rattle.device_model.specs.Found.{UnitIs};
ghost use Rattle.device_model.specs.Storing.{given_of, kept_of, unkept_of, lost_of, denied_of, gives, keeps, tells, tells_writing};

/// States when the storage of a unit's disk changes: where the host says that it wrote a page of that unit, and where the
/// unit is resized. It never changes by a command of a guest, nor by what is done of another unit.
///
/// - `given`: what the host was last given changes where it takes a page, and by a resize.
/// - `kept`: what its storage keeps changes where it says that it wrote a page, and by a resize.
/// - `unkept`: what else a crash may leave changes where it takes a page, where it says that it wrote one, and by a resize.
/// - `lost`: whether a page is lost changes where the host says that it can't read it, hands it in, or says that it wrote it.
///   A command may end with MEDIUM ERROR where it needs a page that is lost (`Replies`).
/// - `unread`: a page is lost once the host said that it can't read it.
/// - `read`: it isn't, once the host handed it in.
/// - `written`: nor once the host said that it wrote it.
/// - `denied`: whether a page is denied changes where the host says that it can't write it, says that it wrote it, and by a
///   resize. A flush may end with MEDIUM ERROR where it flushes a page that is denied (`Replies`).
/// - `unwritten`: a page is denied once the host said that it can't write it.
/// - `rewritten`: it isn't, once the host said that it wrote it.
/// - `deals`: a deal changes what its unit's storage has, and nothing else of the unit.
pub fn a_storage_changes_by_its_host()
    ensures given { (w : PlainWorld) (d : Transition) (unit_index : ℕ) (u v : PlainUnit) → UnitIs w unit_index u →
        UnitIs (after d w) unit_index v → gives unit_index d ≡ false → given_of v ≡ given_of u }
    ensures kept { (w : PlainWorld) (d : Transition) (unit_index : ℕ) (u v : PlainUnit) → UnitIs w unit_index u →
        UnitIs (after d w) unit_index v → keeps unit_index d ≡ false → kept_of v ≡ kept_of u }
    ensures unkept { (w : PlainWorld) (d : Transition) (unit_index : ℕ) (u v : PlainUnit) → UnitIs w unit_index u →
        UnitIs (after d w) unit_index v → gives unit_index d ≡ false → keeps unit_index d ≡ false → unkept_of v ≡ unkept_of u }
    ensures lost { (w : PlainWorld) (d : Transition) (unit_index p : ℕ) (u v : PlainUnit) → UnitIs w unit_index u →
        UnitIs (after d w) unit_index v → tells unit_index p d ≡ false → lost_of p v ≡ lost_of p u }
    ensures unread { (w : PlainWorld) (unit_index p : ℕ) (u v : PlainUnit) → UnitIs w unit_index u →
        UnitIs (after (Transition.Deal unit_index (Dealing.Lose p)) w) unit_index v → is_backed u ≡ true → lost_of p v ≡ true }
    ensures read { (w : PlainWorld) (unit_index p : ℕ) (u v : PlainUnit) → UnitIs w unit_index u →
        UnitIs (after (Transition.Deal unit_index (Dealing.Load p)) w) unit_index v → lost_of p v ≡ false }
    ensures written { (w : PlainWorld) (unit_index p : ℕ) (u v : PlainUnit) → UnitIs w unit_index u →
        UnitIs (after (Transition.Deal unit_index (Dealing.Keep p)) w) unit_index v → lost_of p v ≡ false }
    ensures denied { (w : PlainWorld) (d : Transition) (unit_index p : ℕ) (u v : PlainUnit) → UnitIs w unit_index u →
        UnitIs (after d w) unit_index v → tells_writing unit_index p d ≡ false → denied_of p v ≡ denied_of p u }
    ensures unwritten { (w : PlainWorld) (unit_index p : ℕ) (u v : PlainUnit) → UnitIs w unit_index u →
        UnitIs (after (Transition.Deal unit_index (Dealing.Deny p)) w) unit_index v → is_backed u ≡ true → denied_of p v ≡ true }
    ensures rewritten { (w : PlainWorld) (unit_index p : ℕ) (u v : PlainUnit) → UnitIs w unit_index u →
        UnitIs (after (Transition.Deal unit_index (Dealing.Keep p)) w) unit_index v → denied_of p v ≡ false }
    ensures deals { (w : PlainWorld) (unit_index : ℕ) (x : Dealing) (u : PlainUnit) → UnitIs w unit_index u →
        UnitIs (after (Transition.Deal unit_index x) w) unit_index (dealing x u) }
{}

/// A flush ends with GOOD only once the host's storage has what it names. So does a READ that asks for the medium (FUA, SBC-3
/// §5.11). Each clause says what a crash at that moment leaves of a block that the command names.
///
/// - `flush`: what the block was once the command might run (SAM-5 §8.5), or later. So each WRITE is left that was answered
///   before the command came, or that it waited for, unless the block was written over since.
/// - `read`: of a READ, what the READ reads.
pub fn a_flush_ends_once_it_is_kept()
    ensures flush { (w : PlainWorld) (k : ℕ) (x : PlainJob) (r : PlainReply) (u : PlainUnit) (e : Entry) (l : Ledger) (left : Blocks)
        (b : ℕ) → Happens (Transition.Commit k x r) w → UnitIs w x.unit u → r.status ≡ good →
        task_of x.entry.ticket (alive u.steps) ≡ Some e → flushes e.asks_medium e.command ≡ true → u.storage ≡ Some l →
        IsLeft l left → is_in_flush e.command b ≡ true → HasBeen u.opening u.steps e b (left b) }
    ensures read { (w : PlainWorld) (k : ℕ) (x : PlainJob) (r : PlainReply) (u : PlainUnit) (e : Entry) (l : Ledger) (left : Blocks)
        (b : ℕ) → Happens (Transition.Commit k x r) w → UnitIs w x.unit u → r.status ≡ good →
        task_of x.entry.ticket (alive u.steps) ≡ Some e → flushes e.asks_medium e.command ≡ true → is_read e.command ≡ true →
        u.storage ≡ Some l → IsLeft l left → is_in_flush e.command b ≡ true → left b ≡ blocks_of u.opening u.steps b }
{}

/// Where a unit tells of no volatile write cache (SBC-3 §6.5), or the command asks for the medium (FUA, SBC-3 §5.33), one that
/// changed its blocks ends with GOOD only once the host's storage has what it changed. A crash at that moment leaves each block as it
/// was once the command had run, or later.
///
/// - `commit`: the command is answered as it runs.
/// - `conclude`: it ran before, and its reply was withheld until now.
pub fn a_command_is_answered_once_it_is_kept()
    ensures commit { (w : PlainWorld) (k : ℕ) (x : PlainJob) (r : PlainReply) (u : PlainUnit) (e : Entry) (l : Ledger) (left : Blocks)
        (b : ℕ) → Happens (Transition.Commit k x r) w → UnitIs w x.unit u → task_of x.entry.ticket (alive u.steps) ≡ Some e →
        waits_behind u e r.status ≡ true → u.storage ≡ Some l → IsLeft l left →
        HasBeenBehind u.opening (Step.Commit x.entry.ticket r ∷ u.steps) x.entry.ticket b (left b) }
    ensures conclude { (w : PlainWorld) (k : ℕ) (x : PlainJob) (r : PlainReply) (u : PlainUnit) (l : Ledger) (left : Blocks) (b : ℕ) →
        Happens (Transition.Conclude k x r) w → UnitIs w x.unit u → u.storage ≡ Some l → IsLeft l left →
        HasBeenBehind u.opening u.steps x.entry.ticket b (left b) }
{}
