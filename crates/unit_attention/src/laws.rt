//! Laws that follow from the definitions alone.

ghost use Rattle.std.specs.Prelude.{◌≡◌, ◌≤◌, List, [], ◌∷◌, length, true, slice_get, Some};
ghost use Rattle.unit_attention.specs.declared.code.Code.{Code as ACode};
ghost use Rattle.unit_attention.specs.Code.{IsKnown, known_codes};
ghost use Rattle.unit_attention.specs.Pending.{IsPendingList, is_pending, raised, without_first};

use crate::Code;

/// The codes that a unit of this device reports are the four constants.
pub fn known_codes_are_the_constants()
    ensures { known_codes ≡ Code.POWER_ON_OR_RESET ∷ Code.BUS_DEVICE_RESET_FUNCTION ∷ Code.I_T_NEXUS_LOSS
        ∷ Code.CAPACITY_DATA_CHANGED ∷ [] }
{}

/// A raised code is pending.
pub fn raised_code_is_pending()
    ensures { (pending : List ACode) (c : ACode) → is_pending (raised pending c) c ≡ true }
{}

/// A code that is raised again stays where it is.
pub fn raising_again_changes_nothing()
    ensures { (pending : List ACode) (c : ACode) → raised (raised pending c) c ≡ raised pending c }
{}

/// A code that is raised doesn't go before what is pending: the oldest is still taken first.
pub fn oldest_stays_first()
    ensures { (oldest : ACode) (later : List ACode) (c : ACode) →
        slice_get (raised (oldest ∷ later) c) 0 ≡ Some oldest }
{}

/// Pending codes are known and stand in the list once, whatever is raised and taken.
pub fn codes_stay_distinct()
    ensures raised { (pending : List ACode) (c : ACode) → IsKnown c → IsPendingList pending →
        IsPendingList (raised pending c) }
    ensures taken { (pending : List ACode) → IsPendingList pending → IsPendingList (without_first pending) }
    ensures at_most_four { (pending : List ACode) → IsPendingList pending → length pending ≤ 4 }
{}
