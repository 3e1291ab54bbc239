//! When a receipt is confirmed.

ghost use Rattle.std.specs.Prelude.{◌≡◌, ◌≢◌, ◌<◌, ◌≤◌, ◌∷◌, ◌++◌, Bool, true, false, List, length, Some, None};
ghost use Rattle.ring_core.specs.declared.log.Ticket.{Ticket};
ghost use Rattle.command_model.specs.PlainReply.{PlainReply};
ghost use Rattle.unit_model.specs.Steps.{Step};
ghost use Rattle.unit_model.specs.Contents.{Opening};
ghost use Rattle.unit_model.specs.Receipts.{Receipt, receipt_of, IsConfirmed};

/// The receipt of a Commit is confirmed, whatever follows, with the reply and without.
pub fn receipts_are_confirmed()
    ensures kept { (o : Opening) (keeps : Bool) (t : Ticket) (r : PlainReply) (later past : List Step) →
        IsConfirmed o keeps (later ++ Step.Commit t r ∷ past) (receipt_of o past t (Some r)) }
    ensures not_kept { (o : Opening) (keeps : Bool) (t : Ticket) (r : PlainReply) (later past : List Step) →
        IsConfirmed o keeps (later ++ Step.Commit t r ∷ past) (receipt_of o past t None) }
{}

/// A receipt of another reply than the Commit's isn't confirmed where the unit still has the reply: it keeps replies,
/// fewer than 256 steps followed, and the reply has at most 4,096 bytes of data. Else there is nothing to compare it
/// with.
pub fn receipts_of_another_reply_are_not()
    ensures compared { (o : Opening) (t : Ticket) (r other : PlainReply) (later past : List Step) → other ≢ r →
        length later < 256 → length r.payload ≤ 4096 →
        IsConfirmed o true (later ++ Step.Commit t r ∷ past) (receipt_of o past t (Some other)) → ⊥ }
    ensures not_compared { (o : Opening) (t : Ticket) (r other : PlainReply) (later past : List Step) →
        IsConfirmed o false (later ++ Step.Commit t r ∷ past) (receipt_of o past t (Some other)) }
    ensures later_not_compared { (o : Opening) (keeps : Bool) (t : Ticket) (r other : PlainReply)
        (later past : List Step) → 256 ≤ length later →
        IsConfirmed o keeps (later ++ Step.Commit t r ∷ past) (receipt_of o past t (Some other)) }
    ensures longer_not_compared { (o : Opening) (keeps : Bool) (t : Ticket) (r other : PlainReply)
        (later past : List Step) → 4096 < length r.payload →
        IsConfirmed o keeps (later ++ Step.Commit t r ∷ past) (receipt_of o past t (Some other)) }
{}

/// A receipt isn't confirmed by a history that doesn't reach to its place, as one that was put back is.
pub fn receipts_of_no_commit_are_not()
    ensures { (o : Opening) (keeps : Bool) (h : List Step) (c : Receipt) → length h ≤ c.place →
        IsConfirmed o keeps h c → ⊥ }
{}
