//! Laws that hold of the device in every order of its steps. The laws say nothing of code: they hold of every program
//! whose calls are transitions.

ghost use Rattle.std.specs.Prelude.{ℕ, ◌≡◌, ◌+◌, ◌≤◌, ◌↔◌, ◌++◌, false, Bool, List, [], length, map, None, Some, slice_get};
ghost use Rattle.std.specs.List.{sum_by};
ghost use Rattle.ring_core.specs.State.{tickets};
ghost use Rattle.ring_core.specs.declared.log.Ticket.{Ticket};
ghost use Rattle.unit_model.specs.Jobs.{PlainJob};
ghost use Rattle.unit_model.specs.Unit.{PlainUnit};
ghost use Rattle.device_model.specs.Parts.{Completion};
ghost use Rattle.device_model.specs.World.{PlainQueue, PlainWorld, Everywhere, Opens, AreAddressed};
ghost use Rattle.device_model.specs.Events.{Event as AnEvent};
ghost use Rattle.device_model.specs.Transitions.{Transition, action_of, completion_of, event_of};
ghost use Rattle.device_model.specs.After.{after};
ghost use Rattle.device_model.specs.Happens.{Happens, MayHappen, Occurrence, Runs, Reached, Leads, transitions_of, occurrence_of, world_of};
ghost use Rattle.device_model.specs.Phases.{Under, unit_of, AsksUnit, unit_after, queue_of, AsksQueue, queue_after, bytes_after, StandsFor, LendsUnit, LendsQueue};
ghost use Rattle.device_model.specs.Places.{Moves, accepted_count, standing_count, used_count, only, accepted_chains, used_chains};
ghost use Rattle.device_model.specs.Lawful.{AreNumbered, AreUnits, KeepsParts, AllLieIn};
ghost use Rattle.device_model.specs.Standing.{
  AreOwned,
  BuffersAreOutstanding,
  AreAtWork,
  AreBehind,
  AreNamedThere,
  HaveRoom,
  FunctionIsThere,
  IsToCheck,
};
ghost use Rattle.device_model.specs.Applies.{Applies};
ghost use Rattle.device_model.specs.Turns.{Turns, IsStep};
ghost use Rattle.device_model.specs.Laws.{
  AreApart,
  IsUsedBy,
  NoneIsUsed,
  IsCountedBy,
  NoneIsCounted,
  memory_after,
  jobs_out,
  brings,
  ends,
};

/// A device that was just opened is reached by the empty trace. A run behind a reached trace is reached by both. So a
/// law over all reached traces speaks of every moment of every run.
pub fn every_run_goes_on()
    ensures opening { (w : PlainWorld) → Opens w → Reached w [] w }
    ensures run { (old : PlainWorld) (past more : List Occurrence) (w after : PlainWorld) → Reached old past w →
        Runs w more after → Reached old (more ++ past) after }
{}

/// A reached trace is that of its transitions: they tell each event with its action, they fix the world, and each might
/// happen in the world before it.
pub fn a_trace_is_that_of_its_transitions()
    ensures told { (old : PlainWorld) (trace : List Occurrence) (w : PlainWorld) (r : Reached old trace w) →
        trace ≡ map occurrence_of (transitions_of old trace w r.runs) }
    ensures world { (old : PlainWorld) (trace : List Occurrence) (w : PlainWorld) (r : Reached old trace w) →
        w ≡ world_of old (transitions_of old trace w r.runs) }
    ensures leads { (old : PlainWorld) (trace : List Occurrence) (w : PlainWorld) (r : Reached old trace w) →
        Leads old (transitions_of old trace w r.runs) }
{}

/// Memory is the opening memory with the writes of the trace in their order. So the trace tells each byte, and nothing
/// else writes.
pub fn memory_is_that_of_the_writes()
    ensures { (old : PlainWorld) (trace : List Occurrence) (w : PlainWorld) → Reached old trace w →
        w.memory ≡ memory_after old.memory trace }
{}

/// A transition finds what it asks of the unit that one lock lends, or of the queue that one lends with memory. It
/// leaves there a function of what it found there.
pub fn each_transition_does_its_part()
    ensures unit { (w : PlainWorld) (d : Transition) → Happens d w → Under (unit_of d) (λ i. (u : PlainUnit)
        × (slice_get w.units i ≡ Some u) × AsksUnit d u × (slice_get (after d w).units i ≡ Some (unit_after d u))) }
    ensures queue { (w : PlainWorld) (d : Transition) → Happens d w → Under (queue_of d) (λ i. (q : PlainQueue)
        × (slice_get w.queues i ≡ Some q) × AsksQueue w.shared w.inventory w.missed d q w.memory
        × (slice_get (after d w).queues i ≡ Some (queue_after d w.memory q))) }
    ensures memory { (w : PlainWorld) (d : Transition) → (after d w).memory ≡ bytes_after d w.memory }
{}

/// A transition happens if its seat, slot and function stand for it, and its part is done on what the locks lend.
/// So a thread that holds at most one such lock at a time takes steps of the one device.
pub fn parts_join()
    ensures { (w : PlainWorld) (d : Transition) → StandsFor d w → LendsUnit d w → LendsQueue d w → Happens d w }
{}

/// A queue that a fault broke stays broken, and a transition changes no queue but that which it touches: a fault on one
/// queue never changes another.
pub fn queues_are_apart()
    ensures { (w : PlainWorld) (d : Transition) → Happens d w → AreApart d w }
{}

/// An action says that nothing changed exactly where its transition is the idle one, which leaves the device as it is.
pub fn a_transition_counts()
    ensures changed { (d : Transition) → (action_of d).changed ≡ false ↔ ((e : AnEvent) × (d ≡ Transition.Idle e)) }
    ensures idle { (w : PlainWorld) (e : AnEvent) → after (Transition.Idle e) w ≡ w }
{}

/// The ticket that an action answers is the next that its queue has used. An action that answers none uses none. So the
/// answers of a trace are what its queues have used.
pub fn an_answer_uses_its_chain()
    ensures answered { (w : PlainWorld) (d : Transition) (t : Ticket) → Happens d w → (action_of d).answered ≡ Some t →
        IsUsedBy t w (after d w) }
    ensures none { (w : PlainWorld) (d : Transition) → Happens d w → (action_of d).answered ≡ None →
        NoneIsUsed w (after d w) }
{}

/// A completion counts a notice where the driver wants one, by the memory that was seen behind its writes; nothing else
/// counts one. A memory of the device's own is seen as these writes left it.
pub fn a_completion_counts_its_notice()
    ensures counted { (w : PlainWorld) (d : Transition) (t : Ticket) (xs : Completion) → Happens d w →
        (action_of d).answered ≡ Some t → completion_of d ≡ Some xs → IsCountedBy t xs.seen w (after d w) }
    ensures none { (w : PlainWorld) (d : Transition) → Happens d w → (action_of d).answered ≡ None →
        NoneIsCounted w (after d w) }
    ensures own { (w : PlainWorld) (d : Transition) (xs : Completion) → w.shared ≡ false → Happens d w →
        completion_of d ≡ Some xs → xs.seen ≡ (after d w).memory }
{}

/// No job is lost or made between a unit and its answer. A seat's list, its hand and the hand-off keep the jobs that
/// they had. A transition adds those that it brings from a unit, and takes away the one that it answers.
pub fn jobs_are_kept()
    ensures { (p : PlainJob → ℕ) (w : PlainWorld) (d : Transition) → Happens d w →
        jobs_out p (after d w) + sum_by p (ends d) ≡ jobs_out p w + sum_by p (brings d) }
{}

/// Each chain that was accepted and isn't used stands in one place of the device: a queue's slot, a unit's parked jobs,
/// a seat, the hand-off, the open function or the event buffers. A transition adds the chains that it accepts, takes
/// away those that it uses, and neither loses nor doubles another.
///
/// - `stands`, for a `p` that counts one ticket alone: the places where its chain stands, and the times that it was
///   used, are together the times that it was accepted.
/// - `once`: that is at most once. So the chain stands in one place until it is used, is used at most once, and stands
///   nowhere from then on.
/// - `chains`, for a `p` that is 1 for each ticket: it counts the chains.
pub fn each_chain_stands_in_one_place()
    ensures stands { (p : Ticket → ℕ) (old : PlainWorld) (trace : List Occurrence) (w : PlainWorld) →
        Reached old trace w → accepted_count p w ≡ standing_count p w + used_count p w }
    ensures once { (t : Ticket) (old : PlainWorld) (trace : List Occurrence) (w : PlainWorld) →
        Reached old trace w → standing_count (only t) w + used_count (only t) w ≤ 1 }
    ensures chains { (old : PlainWorld) (trace : List Occurrence) (w : PlainWorld) → Reached old trace w →
        accepted_chains w ≡ standing_count (λ t. 1) w + used_chains w }
    ensures transition { (p : Ticket → ℕ) (w : PlainWorld) (d : Transition) → MayHappen d w → Moves p d w (after d w) }
{}

/// Each queue stands at its own number, in every world that is reached. The chains that it accepted are numbered 0, 1,
/// 2 and so on. So a ticket names one chain of one queue.
pub fn logs_are_numbered()
    ensures { (old : PlainWorld) (trace : List Occurrence) (w : PlainWorld) → Reached old trace w → AreNumbered w }
{}

/// The parts that the device opened with are there in every world that is reached: the units, with their addresses, the
/// queues, the seats, and the lists of the hand-off, with their room. Memory is as long, where the writes of the trace
/// lie in it.
pub fn parts_stay()
    ensures parts { (old : PlainWorld) (trace : List Occurrence) (w : PlainWorld) → Reached old trace w →
        KeepsParts old w }
    ensures memory { (old : PlainWorld) (trace : List Occurrence) (w : PlainWorld) → Reached old trace w →
        AllLieIn (length old.memory) trace → length w.memory ≡ length old.memory }
{}

/// In every world that is reached the history of each unit is lawful, and the unit holds the jobs of its parked tasks
/// and no others.
pub fn histories_are_lawful()
    ensures { (old : PlainWorld) (trace : List Occurrence) (w : PlainWorld) → Reached old trace w → AreUnits w }
{}

/// In every world that is reached each chain that stands somewhere is outstanding in its own queue: where a chain is
/// answered, its queue owns it.
pub fn what_stands_is_owned()
    ensures { (old : PlainWorld) (trace : List Occurrence) (w : PlainWorld) → Reached old trace w → AreOwned w }
{}

/// The event buffers that are held are no more than the chains that the event queue has outstanding, in every world
/// that is reached. With the chains that it used, they are at most those that it accepted.
pub fn held_buffers_are_outstanding()
    ensures { (old : PlainWorld) (trace : List Occurrence) (w : PlainWorld) → Reached old trace w →
        BuffersAreOutstanding w }
{}

/// Each job that was handed out is that of a task that is alive in its unit, in every world that is reached. A task
/// that is to be committed may run or was marked, and isn't done. One that is to be answered or to leave is done or was
/// marked. So a unit knows the task of each commit and of each leave.
pub fn tasks_are_at_work()
    ensures { (old : PlainWorld) (trace : List Occurrence) (w : PlainWorld) → Reached old trace w → AreAtWork w }
{}

/// A request that arrived is the latest of its queue, in every world that is reached. Its unit is there, and no history
/// has its ticket or a later one of its queue. So no unit finds it stale.
pub fn tickets_rise()
    ensures { (old : PlainWorld) (trace : List Occurrence) (w : PlainWorld) → Reached old trace w → AreBehind w }
{}

/// A request that arrived names the unit that it is for, in every world that is reached. So no unit finds that it names
/// another.
pub fn requests_come_to_their_units()
    ensures { (old : PlainWorld) (trace : List Occurrence) (w : PlainWorld) → Reached old trace w → AreNamedThere w }
{}

/// Each unit has the address and the profile that stand in the inventory at its index, in every world that is reached. So a function
/// and the operator come to the unit that they name.
pub fn units_keep_their_addresses()
    ensures { (old : PlainWorld) (trace : List Occurrence) (w : PlainWorld) → Reached old trace w → AreAddressed w }
{}

/// No seat has more jobs than the units' task sets have room for, in every world that is reached. The jobs that a seat
/// handed off, and that still wait, are no more than there is room for.
pub fn lists_have_room()
    ensures { (old : PlainWorld) (trace : List Occurrence) (w : PlainWorld) → Reached old trace w → HaveRoom w }
{}

/// In every world that is reached the units that the open function has left to mark, and those of the marks that it
/// waits for, are there.
pub fn functions_find_their_units()
    ensures { (old : PlainWorld) (trace : List Occurrence) (w : PlainWorld) → Reached old trace w →
        FunctionIsThere (length w.units) w.function }
{}

/// In every world that is reached a query that has looked at all its units checks the next one at once, whatever is
/// alive there and whatever came to stand there since.
pub fn queries_are_checked_at_once()
    ensures { (old : PlainWorld) (trace : List Occurrence) (w : PlainWorld) → Reached old trace w → IsToCheck w →
        Applies w AnEvent.Check }
{}

/// A transition that happens has an event that applies; an event that doesn't apply may do nothing.
pub fn what_happens_applies()
    ensures applies { (w : PlainWorld) (d : Transition) → Happens d w → Applies w (event_of d) }
    ensures idle { (w : PlainWorld) (e : AnEvent) → (Applies w e → ⊥) → MayHappen (Transition.Idle e) w }
{}

/// A turn of an event is a step of the device, whose action says whether something changed.
pub fn turns_are_steps()
    ensures { (w : PlainWorld) (e : AnEvent) (changed : Bool) (next : PlainWorld) → Turns w e changed next →
        IsStep w e changed next }
{}
