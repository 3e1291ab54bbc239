//! Laws of what leaves the storages of disks as they are.

ghost use Rattle.std.specs.Prelude.{ℕ, ◌≡◌, Bool, true, List};
ghost use Rattle.device_model.specs.World.{PlainWorld};
ghost use Rattle.device_model.specs.Events.{Event};
ghost use Rattle.device_model.specs.Transitions.{Transition, event_of};
ghost use Rattle.device_model.specs.After.{after};
ghost use Rattle.device_model.specs.Happens.{world_of};
ghost use Rattle.device_model.specs.Settling.{SettlesOf};
ghost use Rattle.stored_world.specs.Keeping.{is_served, KeepsDisks};

/// A device that serves its guest deals nothing with the storages of its disks.
pub fn serving_deals_nothing()
    ensures step { (d : Transition) (w : PlainWorld) → is_served (event_of d) ≡ true → KeepsDisks w (after d w) }
    ensures serving { (asked : ℕ → Bool) (w : PlainWorld) (ds : List Transition) → SettlesOf asked w ds → KeepsDisks w (world_of w ds) }
{}
