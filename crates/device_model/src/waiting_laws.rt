//! Laws of jobs that wait for their unit's disk, in every order of the device's steps. They say nothing of code:
//! they hold of every program whose calls are transitions.

ghost use Rattle.std.specs.Prelude.{ℕ, Bool, ◌≡◌, ◌+◌, ◌<◌, ◌≤◌, ◌++◌, List, [], Some};
ghost use Rattle.std.specs.List.{sum_by};
ghost use Rattle.ring_core.specs.declared.log.Ticket.{Ticket};
ghost use Rattle.unit_model.specs.declared.reason.Reason.{Reason};
ghost use Rattle.command_model.specs.PlainReply.{PlainReply};
ghost use Rattle.unit_model.specs.Lawful.{IsLawful};
ghost use Rattle.unit_model.specs.Marks.{mark_of};
ghost use Rattle.unit_model.specs.Jobs.{PlainJob};
ghost use Rattle.unit_model.specs.Unit.{PlainUnit};
ghost use Rattle.task_mgmt.specs.declared.kind.MarkBy.{MarkBy};
ghost use Rattle.task_mgmt.specs.declared.function.Mark.{Mark as MarkAt};
ghost use Rattle.device_model.specs.Parts.{Hand};
ghost use Rattle.device_model.specs.World.{PlainWorld};
ghost use Rattle.device_model.specs.Events.{Event};
ghost use Rattle.device_model.specs.Transitions.{Transition, event_of};
ghost use Rattle.device_model.specs.After.{after};
ghost use Rattle.device_model.specs.Happens.{Occurrence, Happens, MayHappen, Reached};
ghost use Rattle.device_model.specs.Found.{UnitIs, HasHand};
ghost use Rattle.device_model.specs.Places.{of_chain, of_job, only, accepted_count, used_count};
ghost use Rattle.device_model.specs.Standing.{AreAside, NoneIsBacked};
ghost use Rattle.device_model.specs.Order.{IsQuiet, IsAtRest, IsAtRestOf};
ghost use Rattle.device_model.specs.Measure.{rouses};
ghost use Rattle.device_model.specs.Settling.{SettlesOf, roused_by};
ghost use Rattle.device_model.specs.Waiting.{deferred, resumed, LooksAlike};

/// A job waits only where its unit's disk is one whose pages come and go, and where its command may run or its reply is
/// withheld. So none waits whose task is marked, or whose command ran, unless its reply is withheld. No chain waits twice.
pub fn what_waits_may_run()
    ensures aside { (old : PlainWorld) (trace : List Occurrence) (w : PlainWorld) → Reached old trace w → AreAside w }
    ensures once { (t : Ticket) (old : PlainWorld) (trace : List Occurrence) (w : PlainWorld) → Reached old trace w →
        sum_by (of_job (only t)) w.aside + sum_by (of_job (only t)) w.woken ≤ 1 }
{}

/// To put a job aside (a Defer), to wake it and to take it again changes nothing that a guest may see. So that it waits decides
/// when its command runs, and nothing else.
///
/// - `withheld`: where a reply is withheld, its command changes all that a guest may see as where it is told at once.
pub fn waiting_changes_only_when()
    ensures aside { (w : PlainWorld) (k : ℕ) (x : PlainJob) → LooksAlike w (after (Transition.Defer k x) w) }
    ensures woken { (w : PlainWorld) → LooksAlike w (after Transition.Wake w) }
    ensures taken { (w : PlainWorld) (k : ℕ) (x : PlainJob) → LooksAlike w (after (Transition.Resume k x) w) }
    ensures withheld { (w : PlainWorld) (k : ℕ) (x : PlainJob) (r : PlainReply) →
        LooksAlike (after (Transition.Commit k x r) w) (after (Transition.Withhold k x r) w) }
{}

/// Each job that waits goes on waiting until it is woken, and is then taken again once for each wake. A wake, a mark of a
/// function and a reset of the operator wake all that wait. A device that has nothing left to do has taken each.
///
/// - `waits`: those that wait are those that did and those that are put aside, less those that are woken.
/// - `again`: those that are to be tried again are those that were and those that are woken, less those that are taken.
/// - `worker`: a worker takes each, and never the operator.
pub fn each_wake_tries_again_once()
    ensures waits { (p : PlainJob → ℕ) (w : PlainWorld) (d : Transition) → MayHappen d w →
        sum_by p (after d w).aside + sum_by p (rouses w d) ≡ sum_by p w.aside + sum_by p (deferred d) }
    ensures again { (p : PlainJob → ℕ) (w : PlainWorld) (d : Transition) → MayHappen d w →
        sum_by p (after d w).woken + sum_by p (resumed d) ≡ sum_by p w.woken + sum_by p (rouses w d) }
    ensures worker { (w : PlainWorld) (k : ℕ) (x : PlainJob) → Happens (Transition.Resume k x) w → k < w.workers }
    ensures wake { (w : PlainWorld) → rouses w Transition.Wake ≡ w.aside }
    ensures quiet { (old : PlainWorld) (trace : List Occurrence) (w : PlainWorld) → Reached old trace w → IsQuiet w →
        w.woken ≡ [] }
{}

/// A task that is marked ends without its pages. Its job is woken by what marks it, and when a seat has it in hand, all that a
/// Commit may do is to end it as aborted. Its command didn't run, so no reply to it is withheld.
pub fn what_is_marked_waits_no_more()
    ensures mark { (w : PlainWorld) (t : Ticket) (p : MarkAt) (m : MarkBy) (jobs : List PlainJob) →
        rouses w (Transition.Mark t p m jobs) ≡ w.aside }
    ensures reset { (w : PlainWorld) (p : MarkAt) (jobs : List PlainJob) → rouses w (Transition.Hard p jobs) ≡ w.aside }
    ensures ends { (w : PlainWorld) (k : ℕ) (x : PlainJob) (u : PlainUnit) (why : Reason) (d : Transition) →
        HasHand w k (Hand.Taken x) → UnitIs w x.unit u → IsLawful u.opening u.steps → mark_of x.entry.ticket u.steps ≡ Some why → Happens d w →
        event_of d ≡ Event.Commit k → d ≡ Transition.CommitAborted k x why }
{}

/// Where no job waits for its disk, a device that is at rest has nothing left: each accepted chain was used but for the event
/// buffers that are held. No run leads there, and disks may be of either kind.
///
/// - `rest`: nothing is left to do.
/// - `portion`: nothing but chains of queues that aren't asked, which weren't accepted.
pub fn nothing_is_left_where_none_waits()
    ensures rest { (w : PlainWorld) → w.aside ≡ [] → IsAtRest w →
        (p : Ticket → ℕ) → used_count p w + sum_by (of_chain p) w.buffers ≡ accepted_count p w }
    ensures portion { (asked : ℕ → Bool) (w : PlainWorld) → w.aside ≡ [] → IsAtRestOf asked w →
        (p : Ticket → ℕ) → used_count p w + sum_by (of_chain p) w.buffers ≡ accepted_count p w }
{}

/// Where no unit's disk is one whose pages come and go, no job ever waits. So where a device has nothing left to do, each
/// accepted chain was used but for the event buffers that are held. Its steps are no more than what chains, marks and events
/// pay for.
pub fn a_device_in_memory_defers_nothing()
    ensures none { (old : PlainWorld) (trace : List Occurrence) (w : PlainWorld) → Reached old trace w →
        NoneIsBacked old → (w.aside ≡ []) × (w.woken ≡ []) }
    ensures rest { (asked : ℕ → Bool) (old : PlainWorld) (trace : List Occurrence) (w : PlainWorld) →
        Reached old trace w → NoneIsBacked old → IsAtRestOf asked w →
        (p : Ticket → ℕ) → used_count p w + sum_by (of_chain p) w.buffers ≡ accepted_count p w }
    ensures steps { (asked : ℕ → Bool) (old : PlainWorld) (trace : List Occurrence) (w : PlainWorld)
        (more : List Transition) → Reached old trace w → NoneIsBacked old → SettlesOf asked w more →
        roused_by w more ≡ 0 }
{}
