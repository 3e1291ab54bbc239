//! The unit that a function or the operator names.

ghost use Rattle.std.specs.Prelude.{IsTrue, IsFalse};
ghost use Rattle.device_model.specs.Addressed.{IsAddressed};

use logical_unit::UnitState;
use request_intake::Inventory;

/// Returns true if the unit has the address and the profile that stand in the inventory at this index.
pub(crate) fn is_addressed(inventory: &Inventory, unit_index: usize, unit: &UnitState) -> bool
    ensures yes { IsTrue result → IsAddressed inventory.now unit_index unit.now }
    ensures no { IsFalse result → IsAddressed inventory.now unit_index unit.now → ⊥ }
{
    match inventory.as_slice().get(unit_index) {
        Some(address) => {
            unit.has_address(*address) && unit.profile() == inventory.profile_at(unit_index)
        }
        None => false,
    }
}
