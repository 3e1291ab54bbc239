//! Laws of the log of shares.

ghost use Rattle.std.specs.Prelude.{ℕ, ◌≡◌, List, map};
ghost use Rattle.shared_trace.specs.Events.{IsLawful};
ghost use Rattle.shared_trace.specs.Halves.{wholes};
ghost use Rattle.device_model.specs.World.{PlainWorld, Opens};
ghost use Rattle.device_model.specs.Transitions.{Transition};
ghost use Rattle.device_model.specs.Happens.{Leads, occurrence_of, world_of};
ghost use Rattle.device_model.specs.Promise.{IsKept};
ghost use Rattle.host_trace.specs.Parts.{Part, Share};
ghost use Rattle.host_trace.specs.Trace.{AreNumbered, MayShare, IsTraceOf};

use device_model::trace_laws::the_promise_is_kept;

/// A lawful log of shares is a trace of the device: its transitions, each where its last share stands, lead from the
/// opening, each where it may happen.
pub fn a_log_of_shares_is_a_trace()
    ensures { (number : Part → ℕ) → AreNumbered number → (old : PlainWorld) (log : List Share) →
        IsLawful (MayShare number old) log → IsTraceOf number old log (wholes log) }
{}

/// Transitions that lead from an opening keep the promise of the device.
pub fn transitions_keep_the_promise()
    ensures { (old : PlainWorld) (ds : List Transition) → Opens old → Leads old ds →
        IsKept old (map occurrence_of ds) (world_of old ds) ds }
{
    the_promise_is_kept();
}
