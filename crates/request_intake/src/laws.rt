//! Laws that follow from the definitions alone.

ghost use Rattle.std.specs.Prelude.{◌≡◌, ℕ, List, Ok};
ghost use Rattle.cdb.specs.Medium.{asks_medium};
ghost use Rattle.scsi_codec.specs.Requests.{reading};
ghost use Rattle.scsi_codec.specs.declared.requests.Request.{Request as ARequest};
ghost use Rattle.request_intake.specs.Decision.{decided};
ghost use Rattle.request_intake.specs.Inventory.{PlainInventory};
ghost use Rattle.request_intake.specs.UnitRequest.{PlainRequest};
ghost use Rattle.request_intake.specs.declared.answer.ChainLengths.{ChainLengths as Lengths};

use crate::decision::Decision;

/// A request comes to a unit as one that asks for the medium exactly where its CDB does, so the unit learns of FUA (SBC-3
/// §5.11) whatever else the command asks for.
pub fn medium_is_asked_for()
    ensures { (units : PlainInventory) (bytes : List ℕ) (n : Lengths) (unit_index : ℕ) (asked : ARequest) (r : PlainRequest)
        → reading bytes n.writable ≡ Ok asked → decided units bytes n ≡ Decision.Enter unit_index r
        → r.asks_medium ≡ asks_medium asked.cdb }
{}
