//! Laws of what changes a unit's blocks, and its attentions.

ghost use Rattle.std.specs.Prelude.{ℕ, ◌≡◌, ◌≢◌, ◌<◌, ◌≤◌, ◌∷◌, [], List, Some, true, false};
ghost use Rattle.block_store.specs.Blocks.{zero_block};
ghost use Rattle.unit_attention.specs.Code.{code};
ghost use Rattle.ring_core.specs.declared.log.Ticket.{Ticket};
ghost use Rattle.unit_attention.specs.declared.code.Code.{Code};
ghost use Rattle.unit_attention.specs.Pending.{raised, without_first};
ghost use Rattle.command_model.specs.PlainReply.{PlainReply};
ghost use Rattle.command_model.specs.Statuses.{good};
ghost use Rattle.command_model.specs.Attention.{takes};
ghost use Rattle.unit_model.specs.declared.rule.Rule.{Rule as ARule};
ghost use Rattle.unit_model.specs.Tasks.{Entry, task_of};
ghost use Rattle.unit_model.specs.Steps.{Step, alive};
ghost use Rattle.unit_model.specs.Contents.{Opening, blocks_of, capacity_of, pending_of};

/// No block is changed but by a Commit with status GOOD and by a Resize.
pub fn commits_alone_change_blocks()
    ensures enter { (o : Opening) (e : Entry) (past : List Step) (b : ℕ) →
        blocks_of o (Step.Enter e ∷ past) b ≡ blocks_of o past b }
    ensures full { (o : Opening) (t : Ticket) (past : List Step) (b : ℕ) →
        blocks_of o (Step.Full t ∷ past) b ≡ blocks_of o past b }
    ensures refused { (o : Opening) (t : Ticket) (r : PlainReply) (past : List Step) (b : ℕ) → r.status ≢ good →
        blocks_of o (Step.Commit t r ∷ past) b ≡ blocks_of o past b }
    ensures busy { (o : Opening) (t : Ticket) (past : List Step) (b : ℕ) →
        blocks_of o (Step.Busy t ∷ past) b ≡ blocks_of o past b }
    ensures abort { (o : Opening) (rule : ARule) (past : List Step) (b : ℕ) →
        blocks_of o (Step.Abort rule ∷ past) b ≡ blocks_of o past b }
    ensures reset { (o : Opening) (c : Code) (past : List Step) (b : ℕ) →
        blocks_of o (Step.Reset c ∷ past) b ≡ blocks_of o past b }
    ensures leave { (o : Opening) (t : Ticket) (past : List Step) (b : ℕ) →
        blocks_of o (Step.Leave t ∷ past) b ≡ blocks_of o past b }
{}

/// A Resize keeps the blocks below both capacities. Those that it takes away and those that it adds are zeros.
pub fn resizes_keep_the_blocks_below()
    ensures kept { (o : Opening) (blocks : ℕ) (past : List Step) (b : ℕ) → b < capacity_of o past → b < blocks →
        blocks_of o (Step.Resize blocks ∷ past) b ≡ blocks_of o past b }
    ensures lost { (o : Opening) (blocks : ℕ) (past : List Step) (b : ℕ) → blocks ≤ b →
        blocks_of o (Step.Resize blocks ∷ past) b ≡ zero_block }
    ensures gained { (o : Opening) (blocks : ℕ) (past : List Step) (b : ℕ) → capacity_of o past ≤ b →
        blocks_of o (Step.Resize blocks ∷ past) b ≡ zero_block }
    ensures opening { (o : Opening) (b : ℕ) → o.content ≡ [] → blocks_of o [] b ≡ zero_block }
{}

/// A Commit of a taking command takes the oldest code, and that of another, as INQUIRY, leaves all.
pub fn attention_is_taken_by_its_taker()
    ensures taken { (o : Opening) (t : Ticket) (r : PlainReply) (e : Entry) (past : List Step) →
        task_of t (alive past) ≡ Some e →
        takes e.command ≡ true → pending_of o (Step.Commit t r ∷ past) ≡ without_first (pending_of o past) }
    ensures left { (o : Opening) (t : Ticket) (r : PlainReply) (e : Entry) (past : List Step) →
        task_of t (alive past) ≡ Some e →
        takes e.command ≡ false → pending_of o (Step.Commit t r ∷ past) ≡ pending_of o past }
    ensures busy { (o : Opening) (t : Ticket) (past : List Step) →
        pending_of o (Step.Busy t ∷ past) ≡ pending_of o past }
{}

/// A Reset raises its code, a Resize CAPACITY DATA HAS CHANGED, and an Abort raises none.
pub fn resets_raise()
    ensures reset { (o : Opening) (c : Code) (past : List Step) →
        pending_of o (Step.Reset c ∷ past) ≡ raised (pending_of o past) c }
    ensures resize { (o : Opening) (blocks : ℕ) (past : List Step) →
        pending_of o (Step.Resize blocks ∷ past) ≡ raised (pending_of o past) (code 0x2a 0x09) }
    ensures abort { (o : Opening) (rule : ARule) (past : List Step) →
        pending_of o (Step.Abort rule ∷ past) ≡ pending_of o past }
{}
