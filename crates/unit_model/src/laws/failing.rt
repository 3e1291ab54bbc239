//! Laws of commands that need what their unit's host can't read, or flush what it can't write.

ghost use Rattle.std.specs.Prelude.{ℕ, ◌≡◌, ◌≤◌, ◌∷◌, List, Some, true, false};
ghost use Rattle.std.specs.Option.{option_map};
ghost use Rattle.ring_core.specs.declared.log.Ticket.{Ticket};
ghost use Rattle.command_model.specs.PlainReply.{PlainReply};
ghost use Rattle.command_model.specs.Statuses.{check_condition};
ghost use Rattle.command_model.specs.Replies.{format_told};
ghost use Rattle.command_model.specs.Failing.{first_named};
ghost use Rattle.command_model.specs.Waiting.{flushes};
ghost use Rattle.sense.specs.Conditions.{unrecovered_read_error, write_error};
ghost use Rattle.sense.specs.Format.{in_format};
ghost use Rattle.std.specs.Prelude.{max, min, ◌*◌};
ghost use Rattle.unit_model.specs.Tasks.{Entry};
ghost use Rattle.unit_model.specs.Steps.{Step};
ghost use Rattle.unit_model.specs.Contents.{Opening, blocks_of, capacity_of, facts_after, reply_after, IsUnreadAfter, IsUnwrittenAfter, MayReply};
ghost use Rattle.unit_model.specs.Lawful.{May};
ghost use Rattle.block_store.specs.Storage.{Dealing};
ghost use Rattle.unit_model.specs.Unit.{PlainUnit, is_backed, HasLost, HasDenied, Replies, MayCommit, dealing, after};

/// A command that needs a page which can't be read ends with CHECK CONDITION and UNRECOVERED READ ERROR, and changes no
/// block. No unit replies so whose disk is in memory.
pub fn what_cant_be_read_changes_nothing()
    ensures status { (o : Opening) (e : Entry) (past : List Step) (p : ℕ) (r : PlainReply) → IsUnreadAfter o e past p r →
        r.status ≡ check_condition }
    ensures sense { (o : Opening) (e : Entry) (past : List Step) (p : ℕ) (r : PlainReply) → IsUnreadAfter o e past p r →
        r.sense ≡ Some (in_format (format_told (facts_after o past)) (unrecovered_read_error (max (first_named e.command) (8 * p)))) }
    ensures blocks { (o : Opening) (e : Entry) (t : Ticket) (past : List Step) (p : ℕ) (r : PlainReply) (b : ℕ) →
        IsUnreadAfter o e past p r → blocks_of o (Step.Commit t r ∷ past) b ≡ blocks_of o past b }
    ensures resident { (o : Opening) (e : Entry) (past : List Step) (r : PlainReply) → MayReply o e past r → o.backed ≡ false →
        r ≡ reply_after o e past }
{}

/// A command that flushes a page which can't be written ends with CHECK CONDITION and WRITE ERROR, and changes no block. No
/// command ends so that isn't a flush.
pub fn what_cant_be_written_changes_nothing()
    ensures status { (o : Opening) (e : Entry) (past : List Step) (p : ℕ) (r : PlainReply) → IsUnwrittenAfter o e past p r →
        r.status ≡ check_condition }
    ensures sense { (o : Opening) (e : Entry) (past : List Step) (p : ℕ) (r : PlainReply) → IsUnwrittenAfter o e past p r →
        r.sense ≡ Some (in_format (format_told (facts_after o past)) (write_error (8 * p))) }
    ensures blocks { (o : Opening) (e : Entry) (t : Ticket) (past : List Step) (p : ℕ) (r : PlainReply) (b : ℕ) →
        IsUnwrittenAfter o e past p r → blocks_of o (Step.Commit t r ∷ past) b ≡ blocks_of o past b }
    ensures flush { (o : Opening) (e : Entry) (past : List Step) (p : ℕ) (r : PlainReply) → IsUnwrittenAfter o e past p r →
        flushes e.asks_medium e.command ≡ true }
{}

/// A unit replies as the history says but where its host said of a page that it can't read it, or can't write it. So a unit
/// whose disk is in memory always does. A page isn't lost any longer once the host handed it in, or said that it wrote it. It
/// isn't denied any longer once the host said that it wrote it, or cut it off.
pub fn a_unit_fails_as_its_host_said()
    ensures may { (u : PlainUnit) (t : Ticket) (r : PlainReply) → MayCommit u t r → May u.opening (Step.Commit t r) u.steps }
    ensures memory { (u : PlainUnit) (e : Entry) (r : PlainReply) → Replies u e r → is_backed u ≡ false →
        r ≡ reply_after u.opening e u.steps }
    ensures loaded { (u : PlainUnit) (p : ℕ) → HasLost (dealing (Dealing.Load p) u) p → ⊥ }
    ensures kept { (u : PlainUnit) (p : ℕ) → HasLost (dealing (Dealing.Keep p) u) p → ⊥ }
    ensures written { (u : PlainUnit) (p : ℕ) → HasDenied (dealing (Dealing.Keep p) u) p → ⊥ }
    ensures cut { (u : PlainUnit) (p blocks : ℕ) → min (capacity_of u.opening u.steps) blocks ≤ 8 * p →
        HasDenied (after (Step.Resize blocks) u) p → ⊥ }
{}
