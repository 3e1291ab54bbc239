//! A device that serves what is there, one atomic step at a time. The laws say when it has nothing left to do, how many
//! steps that takes, and what each step lets go on. They say nothing of code: they hold of every program whose calls
//! are transitions.

ghost use Rattle.std.specs.Prelude.{ℕ, Bool, ◌≡◌, ◌⊎◌, ◌<◌, ◌≤◌, ◌+◌, ◌*◌, List, [], ◌∷◌, length, map};
ghost use Rattle.std.specs.List.{sum_by};
ghost use Rattle.ring_core.specs.declared.log.Ticket.{Ticket};
ghost use Rattle.device_model.specs.World.{PlainWorld};
ghost use Rattle.device_model.specs.Events.{Event};
ghost use Rattle.device_model.specs.Transitions.{Transition, event_of};
ghost use Rattle.device_model.specs.After.{after};
ghost use Rattle.unit_model.specs.Jobs.{PlainJob};
ghost use Rattle.device_model.specs.Parts.{Hand};
ghost use Rattle.device_model.specs.Happens.{Occurrence, Happens, Runs, Reached, occurrence_of, world_of};
ghost use Rattle.device_model.specs.Found.{SeatIs, OffIs};
ghost use Rattle.device_model.specs.Places.{of_chain, of_function, only, accepted_count, used_count};
ghost use Rattle.device_model.specs.Turns.{count_changes};
ghost use Rattle.device_model.specs.Applies.{Applies};
ghost use Rattle.device_model.specs.Order.{IsNext, IsQuiet, IsAtRest, IsNextOf, IsQuietOf, IsAtRestOf, NoneIsWithheld, waiting_count};
ghost use Rattle.device_model.specs.Measure.{measure, pays, roused};
ghost use Rattle.device_model.specs.Settling.{Settles, SettlesOf, IsShort};
ghost use Rattle.device_model.specs.Waking.{IsOwn, IsFetch, Wakes};

/// A device that has no step of its own left to take has nothing left to answer. Each accepted chain was used, but for
/// the event buffers that are held and the jobs that wait for their disk. No function is open, no event waits, and no
/// queue has a chain, unless a fault broke it.
///
/// A function that met a task whose reply is withheld waits for it, and stays open until the host's storage has what the
/// command changed.
///
/// Nothing is stuck, since one of the tasks alive in a unit may always run: a HEAD OF QUEUE task, or else the oldest.
/// A task that may run isn't parked, so it stands in a seat's list, in the hand-off or in a hand, where a step takes it
/// on. If all of those are empty no task is alive, so each mark of a function is clear.
pub fn a_quiet_device_is_at_rest()
    ensures { (old : PlainWorld) (trace : List Occurrence) (w : PlainWorld) → Reached old trace w → IsQuiet w →
        IsAtRest w }
{}

/// The device's next event is decided by what is there: the first event of its order that applies, which is one, or
/// none, where it has nothing left to do.
pub fn one_event_is_next()
    ensures some { (w : PlainWorld) → ((e : Event) × IsNext w e) ⊎ IsQuiet w }
    ensures one { (w : PlainWorld) (e f : Event) → IsNext w e → IsNext w f → e ≡ f }
    ensures applies { (w : PlainWorld) (e : Event) → IsNext w e → Applies w e }
    ensures own { (w : PlainWorld) (e : Event) → IsNext w e → IsOwn e }
{}

/// The same where new chains are taken from some of the queues alone: one event is next, or nothing is left but chains
/// of the other queues that weren't accepted.
pub fn one_event_is_next_of_some()
    ensures some { (asked : ℕ → Bool) (w : PlainWorld) → ((e : Event) × IsNextOf asked w e) ⊎ IsQuietOf asked w }
    ensures one { (asked : ℕ → Bool) (w : PlainWorld) (e f : Event) → IsNextOf asked w e → IsNextOf asked w f → e ≡ f }
    ensures applies { (asked : ℕ → Bool) (w : PlainWorld) (e : Event) → IsNextOf asked w e → Applies w e }
    ensures rest { (asked : ℕ → Bool) (old : PlainWorld) (trace : List Occurrence) (w : PlainWorld) →
        Reached old trace w → IsQuietOf asked w → IsAtRestOf asked w }
{}

/// A device that is served so runs, and each of its steps changes something. The steps are no more than what there is
/// to do pays for, whether it went on to the end or was left before.
pub fn a_portion_is_a_short_run()
    ensures runs { (asked : ℕ → Bool) (w : PlainWorld) (more : List Transition) → SettlesOf asked w more →
        Runs w (map occurrence_of more) (world_of w more) }
    ensures changes { (asked : ℕ → Bool) (w : PlainWorld) (more : List Transition) → SettlesOf asked w more →
        count_changes (map occurrence_of more) ≡ length more }
    ensures short { (asked : ℕ → Bool) (old : PlainWorld) (trace : List Occurrence) (w : PlainWorld)
        (more : List Transition) → Reached old trace w → SettlesOf asked w more → IsShort w more }
    ensures rest { (asked : ℕ → Bool) (old : PlainWorld) (trace : List Occurrence) (w : PlainWorld)
        (more : List Transition) → Reached old trace w → SettlesOf asked w more → IsQuietOf asked (world_of w more) →
        IsAtRestOf asked (world_of w more) }
{}

/// An event of the device itself that applies can be done, in every world that is reached. The unit of a job is there
/// and knows its task. A list or the slot has room. Each chain that is answered is outstanding in its queue.
///
/// The law leaves out a Fetch, which also asks that memory is one of bytes, and that the queue's table has room for
/// the chain.
pub fn what_applies_happens()
    ensures { (old : PlainWorld) (trace : List Occurrence) (w : PlainWorld) (e : Event) → Reached old trace w →
        IsOwn e → (IsFetch e → ⊥) → Applies w e → (d : Transition) × (event_of d ≡ e) × Happens d w }
{}

/// As long as a chain is outstanding, an event of the device itself is next. The law leaves out event buffers that are
/// held, and chains for which the host owes pages or a write. A job that waits for its disk goes on once the host wakes it,
/// and so does what is parked behind it. A function waits for the tasks that it met, and so for a reply that is withheld.
///
/// - `next`: no job of the device waits. Then no chain is left out but the event buffers.
/// - `waits`: the chain itself neither waits nor is parked, and is no open function's, whatever others do.
/// - `function`: the chain neither waits nor is parked, and no reply is withheld.
pub fn nothing_is_stuck()
    ensures next { (old : PlainWorld) (trace : List Occurrence) (w : PlainWorld) (t : Ticket) → Reached old trace w →
        used_count (only t) w < accepted_count (only t) w → sum_by (of_chain (only t)) w.buffers ≡ 0 →
        w.aside ≡ [] → (e : Event) × IsNext w e }
    ensures waits { (old : PlainWorld) (trace : List Occurrence) (w : PlainWorld) (t : Ticket) → Reached old trace w →
        used_count (only t) w < accepted_count (only t) w → sum_by (of_chain (only t)) w.buffers ≡ 0 →
        waiting_count (only t) w ≡ 0 → of_function (only t) w.function ≡ 0 → (e : Event) × IsNext w e }
    ensures function { (old : PlainWorld) (trace : List Occurrence) (w : PlainWorld) (t : Ticket) → Reached old trace w →
        used_count (only t) w < accepted_count (only t) w → sum_by (of_chain (only t)) w.buffers ≡ 0 →
        waiting_count (only t) w ≡ 0 → NoneIsWithheld w → (e : Event) × IsNext w e }
{}

/// Each step lowers what is still owed, but for what it brings. A chain brings its price as it is fetched, a function
/// that visits a unit 2, a hard reset or a resize 2, a write of the guest, a wake or a deal 1. Each job that is woken
/// brings 2.
pub fn each_transition_is_paid_for()
    ensures { (w : PlainWorld) (d : Transition) → Happens d w → measure (after d w) + 1 ≤
        measure w + pays d + 2 * roused w d }
{}

/// A device that is left alone takes no more steps than what there is to do pays for:
///
/// - at most 7 for each chain;
/// - 1 for each mark, waiting event, queue and answered task that it starts with;
/// - 2 for each unit that a function visits;
/// - 2 for each job that is to be tried again, from the start or by a mark of a function.
pub fn a_settling_is_short()
    ensures { (old : PlainWorld) (trace : List Occurrence) (w : PlainWorld) (more : List Transition) → Reached old trace w →
        Settles w more → IsShort w more }
{}

/// A device that does what is first in its order runs, and each of its steps changes something; where it ends by having
/// nothing left to do, it is at rest.
pub fn a_settling_is_a_run()
    ensures runs { (w : PlainWorld) (more : List Transition) → Settles w more →
        Runs w (map occurrence_of more) (world_of w more) }
    ensures changes { (w : PlainWorld) (more : List Transition) → Settles w more →
        count_changes (map occurrence_of more) ≡ length more }
    ensures rest { (old : PlainWorld) (trace : List Occurrence) (w : PlainWorld) (more : List Transition) →
        Reached old trace w → Settles w more → IsQuiet (world_of w more) → IsAtRest (world_of w more) }
{}

/// An event that applies after a step applied before it, or is among the few events that the step wakes. So a device
/// that knows what applies goes on to know it where it looks, after each step, at what applied and at those.
pub fn only_some_events_wake()
    ensures { (w : PlainWorld) (d : Transition) (e : Event) → IsOwn e → Happens d w → Applies (after d w) e →
        (Applies w e → ⊥) → Wakes w d e }
{}

/// A worker that has one job and nothing in hand puts it into its own list, where that is empty. It takes that very job
/// next, since its own list comes first. Together the two steps leave what keeping the job in hand would.
pub fn a_worker_takes_what_it_put()
    ensures puts { (w : PlainWorld) (k : ℕ) (x : PlainJob) → SeatIs w k Hand.Empty (x ∷ []) → OffIs w k [] →
        0 < w.limit → Happens (Transition.Put k x) w }
    ensures takes { (w : PlainWorld) (k : ℕ) (x : PlainJob) → SeatIs w k Hand.Empty (x ∷ []) → OffIs w k [] →
        k < w.workers → Happens (Transition.Take k k x) (after (Transition.Put k x) w) }
    ensures leaves { (w : PlainWorld) (k : ℕ) (x : PlainJob) → SeatIs w k Hand.Empty (x ∷ []) → OffIs w k [] →
        after (Transition.Take k k x) (after (Transition.Put k x) w) ≡ after (Transition.Keep k x) w }
{}
