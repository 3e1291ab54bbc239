//! A law of a port, whatever comes to it.

ghost use Rattle.std.specs.Prelude.{ℕ, ◌≡◌, List};
ghost use Rattle.event_queue.specs.Port.{Happening};
ghost use Rattle.event_queue.specs.Reported.{given_of, held_of, missed_of, port_since, gifts_since};

/// A port that took these calls one after another, newest first, has given the buffers in the order in which they came.
/// Each has the next event that the driver was to be told: one raised while a buffer was left, or the news that
/// events were missed, once for all that were since a buffer last came. The port holds the buffers that got nothing
/// yet.
pub fn buffers_get_what_is_told()
    ensures given { (limit : ℕ) (past : List Happening) → gifts_since limit past ≡ given_of past }
    ensures held { (limit : ℕ) (past : List Happening) → (port_since limit past).buffers ≡ held_of past }
    ensures missed { (limit : ℕ) (past : List Happening) → (port_since limit past).missed ≡ missed_of past }
{}
