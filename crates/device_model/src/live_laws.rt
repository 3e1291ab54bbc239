//! A device on a memory that its guest writes at any time. What the other laws say of every trace holds of it too: its
//! runs are runs with a write of all of memory before the first event and behind each. The laws say nothing of code.

ghost use Rattle.std.specs.Prelude.{ℕ, Bool, ◌≡◌, true, List, [], ◌∷◌, length, map};
ghost use Rattle.device_model.specs.World.{PlainWorld};
ghost use Rattle.device_model.specs.Events.{Event as AnEvent};
ghost use Rattle.device_model.specs.Happens.{Occurrence, Runs, Reached, occurrence_of};
ghost use Rattle.device_model.specs.Turns.{Turns, count_changes};
ghost use Rattle.device_model.specs.Live.{
  with_memory,
  refill,
  IsRefilled,
  LiveRuns,
  Turn,
  live_world,
  occurrence_at,
  LiveSettlesOf,
  IsShortLive,
  TurnsAt,
};

/// Behind every trace that reached a device, a write of the guest leads to the same device with any other bytes in
/// memory, as many as before. So what holds of every reached device holds whatever stands in its memory.
pub fn any_bytes_may_stand_there()
    ensures { (old : PlainWorld) (trace : List Occurrence) (w : PlainWorld) (m : List ℕ) → length m ≡ length w.memory →
        Reached old trace w → Reached old (occurrence_of (refill m) ∷ trace) (with_memory m w) }
{}

/// A run in which any bytes may come to stand in memory before the first event and behind each is a run of the device,
/// with a write of the guest there.
pub fn a_live_run_is_a_run()
    ensures { (old : PlainWorld) (trace : List Occurrence) (w : PlainWorld) → LiveRuns old trace w →
        (full : List Occurrence) × IsRefilled trace full × Runs old full w }
{}

/// A device that is served on such a memory runs so, whatever stands in memory at the end, and each of its steps changes
/// something. Its steps are no more than what there is to do pays for: what the guest writes meanwhile is no step.
pub fn a_live_settling_is_short()
    ensures runs { (asked : ℕ → Bool) (w : PlainWorld) (more : List Turn) (m : List ℕ) → LiveSettlesOf asked w more →
        length m ≡ length (live_world w more).memory →
        LiveRuns w (map occurrence_at more) (with_memory m (live_world w more)) }
    ensures changes { (asked : ℕ → Bool) (w : PlainWorld) (more : List Turn) → LiveSettlesOf asked w more →
        count_changes (map occurrence_at more) ≡ length more }
    ensures short { (asked : ℕ → Bool) (old : PlainWorld) (trace : List Occurrence) (w : PlainWorld) (more : List Turn) →
        Reached old trace w → LiveSettlesOf asked w more → IsShortLive w more }
{}

/// One event on such a memory is a run of one event, whatever stands in memory before and behind it. Where it is known
/// which bytes stood there as it began and what its writes left, it is a turn of the device with the one memory before
/// it and the other behind it, as with a memory of its own.
pub fn a_live_turn_is_a_run()
    ensures run { (found left seen : List ℕ) (w : PlainWorld) (e : AnEvent) (w' : PlainWorld) (x m : List ℕ) →
        TurnsAt found left seen w e w' → length found ≡ length w.memory → length left ≡ length w'.memory →
        length x ≡ length w.memory → length m ≡ length w'.memory →
        (o : Occurrence) × (o.event ≡ e) × LiveRuns (with_memory x w) (o ∷ []) (with_memory m w') }
    ensures own { (found left seen : List ℕ) (w : PlainWorld) (e : AnEvent) (w' : PlainWorld) →
        TurnsAt found left seen w e w' → Turns (with_memory found w) e true (with_memory left w') }
{}
