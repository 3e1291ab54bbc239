//! Laws of flushes.

ghost use Rattle.std.specs.Prelude.{ℕ, ◌≡◌, ◌≤◌, ◌==◌, List, Some, length, false, true};
ghost use Rattle.block_store.specs.Blocks.{Blocks};
ghost use Rattle.block_store.specs.Storage.{Ledger, IsLeft};
ghost use Rattle.ring_core.specs.declared.log.Ticket.{Ticket};
ghost use Rattle.cdb.specs.declared.commands.Command.TheVariants.{Read, Write, SynchronizeCache};
ghost use Rattle.command_model.specs.Effects.{changes_medium};
ghost use Rattle.command_model.specs.PlainReply.{PlainReply};
ghost use Rattle.command_model.specs.Statuses.{good};
ghost use Rattle.command_model.specs.Waiting.{flushes, is_read};
ghost use Rattle.unit_model.specs.Tasks.{Entry, task_of};
ghost use Rattle.unit_model.specs.Steps.{Step, alive, as_of};
ghost use Rattle.unit_model.specs.Enabling.{enabled};
ghost use Rattle.unit_model.specs.Contents.{Opening, blocks_of};
ghost use Rattle.unit_model.specs.Flushing.{HasBeen, is_in_flush};
ghost use Rattle.unit_model.specs.Unit.{PlainUnit, MayCommit, tells_no_cache, waits_behind};

/// Where SYNCHRONIZE CACHE may end with GOOD, or a READ that asks for the medium (FUA, SBC-3 §5.11), a crash of the host leaves
/// each block that it names as the block was once the command might run (SAM-5 §8.5), or later.
///
/// - `durable`: so whatever is left of writes that are under way.
/// - `read`: of a READ, it leaves what the READ reads.
/// - `written`: a block that had the same bytes all that time is left with these. So each WRITE is left that ran before the
///   command came, or that it waited for, and that none has written over since.
pub fn a_flush_leaves_what_was_written()
    ensures durable { (u : PlainUnit) (t : Ticket) (e : Entry) (r : PlainReply) (l : Ledger) (left : Blocks) (b : ℕ) →
        MayCommit u t r → r.status ≡ good → task_of t (alive u.steps) ≡ Some e → flushes e.asks_medium e.command ≡ true →
        u.storage ≡ Some l → IsLeft l left → is_in_flush e.command b ≡ true →
        HasBeen u.opening u.steps e b (left b) }
    ensures read { (u : PlainUnit) (t : Ticket) (e : Entry) (r : PlainReply) (l : Ledger) (left : Blocks) (b : ℕ) →
        MayCommit u t r → r.status ≡ good → task_of t (alive u.steps) ≡ Some e → flushes e.asks_medium e.command ≡ true →
        is_read e.command ≡ true → u.storage ≡ Some l → IsLeft l left → is_in_flush e.command b ≡ true →
        left b ≡ blocks_of u.opening u.steps b }
    ensures written { (o : Opening) (steps : List Step) (e : Entry) (b : ℕ) (left bytes : List ℕ) → HasBeen o steps e b left →
        ((p : ℕ) → p ≤ length steps → enabled e (as_of p steps) ≡ true → blocks_of o (as_of p steps) b ≡ bytes) → left ≡ bytes }
{}

/// At a unit whose disk is backed a command that may change blocks, and ends with GOOD, is answered only once the host's storage
/// has them in these cases, and in no others (SBC-3 §5.33, §6.5).
///
/// - `asked`: it asks for the medium, as WRITE does with FUA.
/// - `cacheless`: the unit tells of no volatile write cache.
/// - `cached`: else it is answered as it stands in memory.
/// - `unwell`: so is one that ends otherwise, which changed nothing.
pub fn who_waits_for_the_medium()
    ensures asked { (u : PlainUnit) (e : Entry) (l : Ledger) → u.storage ≡ Some l → e.asks_medium ≡ true →
        changes_medium e.command ≡ true → waits_behind u e good ≡ true }
    ensures cacheless { (u : PlainUnit) (e : Entry) (l : Ledger) → u.storage ≡ Some l → tells_no_cache u ≡ true →
        changes_medium e.command ≡ true → waits_behind u e good ≡ true }
    ensures cached { (u : PlainUnit) (e : Entry) (status : ℕ) → tells_no_cache u ≡ false → e.asks_medium ≡ false →
        waits_behind u e status ≡ false }
    ensures unwell { (u : PlainUnit) (e : Entry) (status : ℕ) → (status == good) ≡ false → waits_behind u e status ≡ false }
{}

/// Small cases of what flushes: SYNCHRONIZE CACHE, and a READ that asks for the medium.
pub fn who_flushes()
    ensures synchronize { flushes false (SynchronizeCache 5 2) ≡ true }
    ensures asked { flushes true (Read 5 2) ≡ true }
    ensures unasked { flushes false (Read 5 2) ≡ false }
    ensures write { flushes true (Write 5 2) ≡ false }
{}

/// Small cases of the blocks that a flush names: so many from the first on, or, of SYNCHRONIZE CACHE, all from the first on
/// where the count is 0 (SBC-3 §5.11, §5.26, §5.27).
pub fn a_flush_names_its_blocks()
    ensures before { is_in_flush (SynchronizeCache 5 2) 4 ≡ false }
    ensures first { is_in_flush (SynchronizeCache 5 2) 5 ≡ true }
    ensures last { is_in_flush (SynchronizeCache 5 2) 6 ≡ true }
    ensures behind { is_in_flush (SynchronizeCache 5 2) 7 ≡ false }
    ensures before_the_rest { is_in_flush (SynchronizeCache 5 0) 4 ≡ false }
    ensures the_rest { (b : ℕ) → 5 ≤ b → is_in_flush (SynchronizeCache 5 0) b ≡ true }
    ensures read { is_in_flush (Read 5 2) 6 ≡ true }
    ensures behind_a_read { is_in_flush (Read 5 2) 7 ≡ false }
    ensures no_read { is_in_flush (Read 5 0) 5 ≡ false }
{}
