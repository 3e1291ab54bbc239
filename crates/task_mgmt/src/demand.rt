//! The beginning of a function, or the reason for which it is refused.

ghost use Rattle.std.specs.Prelude.{◌≡◌, ◌≤◌, length};
ghost use Rattle.task_mgmt.specs.Demands.{indexes_of, demanded, begun};

use crate::function::Function;
use crate::kind::kind_of;
use arrayvec::ArrayVec;
use request_intake::{Inventory, MOST_UNITS};
use scsi_codec::{Address, FunctionResponse};

/// The subtype of I_T NEXUS RESET (VIRTIO 1.2 §5.6.6.2).
const I_T_NEXUS_RESET: u32 = 4;

/// A task management request (VIRTIO 1.2 §5.6.6.2).
#[derive(Clone, Copy)]
pub struct TaskManagement {
    /// The function's subtype, as it stands.
    pub subtype: u32,
    /// The unit that it is for, or `None` where the bytes name none.
    pub address: Option<Address>,
    /// The identifier of the command that it is about, for a function that is about one.
    pub id: u64,
}

/// Returns the indexes of a target's units, rising.
fn indexes_of(units: &[Address], target: u8) -> ArrayVec<usize, MOST_UNITS>
    requires { length units.now ≤ MOST_UNITS }
    ensures { result.items ≡ indexes_of units.now target }
{
    let mut indexes = ArrayVec::new();
    for unit_index in 0..units.len() {
        if units[unit_index].target == target {
            indexes.push(unit_index);
        }
    }
    indexes
}

/// Begins a function on units of the inventory. Called by [`decide_control`](crate::decide_control) for a request that
/// was fetched, while no other function is open.
///
/// The first of these that holds is the refusal:
///
/// - [`FunctionResponse::Rejected`] for a subtype that isn't offered;
/// - [`FunctionResponse::BadTarget`] where the bytes name no unit, or the target isn't there;
/// - [`FunctionResponse::IncorrectLun`] where the target lacks the LUN, but for I_T NEXUS RESET.
pub fn begin(tmf: &TaskManagement, inventory: &Inventory) -> Result<Function, FunctionResponse>
    ensures { result ≡ begun (demanded inventory.now.addresses tmf.now.subtype tmf.now.address tmf.now.id) }
{
    let Some(kind) = kind_of(tmf.subtype, tmf.id) else {
        return Err(FunctionResponse::Rejected);
    };
    let Some(address) = tmf.address else {
        return Err(FunctionResponse::BadTarget);
    };
    if !inventory.has_target(address.target) {
        return Err(FunctionResponse::BadTarget);
    }
    if tmf.subtype == I_T_NEXUS_RESET {
        return Ok(Function::opened(kind, indexes_of(inventory.as_slice(), address.target)));
    }
    let Some(unit_index) = inventory.find(&address) else {
        return Err(FunctionResponse::IncorrectLun);
    };
    let mut one = ArrayVec::new();
    one.push(unit_index);
    Ok(Function::opened(kind, one))
}
