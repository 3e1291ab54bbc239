//! What the weights of the operator's acts come to.

ghost use Rattle.std.specs.Prelude.{ℕ, ◌≡◌, List, Option};
ghost use Rattle.scsi_codec.specs.declared.lun.Address.{Address};
ghost use Rattle.unit_model.specs.Unit.{PlainUnit};
ghost use Rattle.lock_scopes.specs.Acts.{acts_weight};
ghost use Rattle.lock_scopes.specs.declared.acts.Act.{Act};
ghost use Rattle.workers.specs.Ledgers.{weight_in};
ghost use Rattle.workers.specs.Times.{times_in, times_made};

/// Acts stand in histories as often as they were made, where both weigh the same by any weighing, as `Host::close` says of
/// each: so a unit has as many hard resets, and as many resizes to each capacity, as were made of it.
pub fn as_many_acts_as_were_made()
    ensures { (units : List PlainUnit) (acts : List Act) →
        ((weight : Address → Option ℕ → ℕ) → weight_in weight units ≡ acts_weight weight acts) →
        (unit : Address) (kind : Option ℕ) → times_in unit kind units ≡ times_made unit kind acts }
{}
