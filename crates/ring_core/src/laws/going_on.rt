//! Laws of where a queue goes on.

ghost use Rattle.std.specs.Prelude.{◌≡◌, ◌<◌, ◌↔◌, ℕ, List, None};
ghost use Rattle.ring_core.specs.State.{RingState, under};
ghost use Rattle.ring_core.specs.Sound.{IsSound};
ghost use Rattle.ring_core.specs.Offer.{Offer, Offers};
ghost use Rattle.ring_core.specs.Position.{position, reopened};

/// A queue that is opened where another one goes on is at the same position: its next entries or slots are those of the
/// other, with the same wrap counters. If nothing is outstanding at the other, and no fault broke it, both offer the same
/// of any memory.
pub fn a_queue_goes_on_at_its_position()
    ensures position { (s : RingState) → 0 < s.layout.size → position (reopened s) ≡ position s }
    ensures offers { (s : RingState) (m : List ℕ) (o : Offer) → 0 < s.layout.size → IsSound s → s.broken ≡ None
        → ((id : ℕ) → under s id ≡ None)
        → Offers (reopened s) m o ↔ Offers s m o }
{}
