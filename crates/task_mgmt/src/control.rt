//! Decides on a chain of the control queue.

ghost use Rattle.std.specs.Prelude.{◌≡◌, length};
ghost use Rattle.task_mgmt.specs.Control.{decided_of, decided_with_room};
ghost use Rattle.task_mgmt.specs.Inner.Control.{Decides, Suits};

use crate::demand::{TaskManagement, begin};
use crate::function::Function;
use request_intake::{DirectAnswer, Inventory};
use scsi_codec::{Address, Control, FunctionResponse, ResponseCode, one_control, read_control};

/// The decision on a chain of the control queue when it is fetched. It is never decided again.
#[derive(Drop)]
pub enum ControlDecision {
    /// It is answered so.
    Direct(DirectAnswer),
    /// This function has begun, and its response will be the answer.
    Opens(Function),
}

/// Returns the decision where there is room for the answer.
fn decide_with_room(inventory: &Inventory, control: &Control) -> ControlDecision
    ensures { result ≡ decided_with_room inventory.now.addresses control.now }
{
    match *control {
        Control::TaskManagement {
            subtype,
            address,
            id,
        } => match begin(
            &TaskManagement {
                subtype,
                address,
                id,
            },
            inventory,
        ) {
            Ok(function) => ControlDecision::Opens(function),
            Err(response) => ControlDecision::Direct(DirectAnswer::of_function(response)),
        },
        Control::AsynchronousNotification => {
            ControlDecision::Direct(DirectAnswer::of_notification(ResponseCode::Ok))
        }
        Control::MalformedFunction => {
            ControlDecision::Direct(DirectAnswer::of_function(FunctionResponse::Failure))
        }
        Control::MalformedNotification => {
            ControlDecision::Direct(DirectAnswer::of_notification(ResponseCode::Failure))
        }
    }
}

/// Returns the decision on what a chain asks for.
fn decide(inventory: &Inventory, control: &Control, writable: u64) -> ControlDecision
    ensures decision { result ≡ decided_of inventory.now.addresses control.now writable }
    ensures suits { Suits (length inventory.now.addresses) writable result }
{
    if writable < control.answer_len() as u64 {
        return ControlDecision::Direct(DirectAnswer::nothing());
    }
    decide_with_room(inventory, control)
}

/// Returns what is decided of a chain of the control queue, by its readable bytes, how many can be written, and the
/// inventory of units: an answer, or a function that begins. Called once for each chain that was fetched, while no
/// function is open. It takes no memory.
pub fn decide_control(inventory: &Inventory, bytes: &[u8], writable: u64) -> ControlDecision
    ensures decision { Decides inventory.now.addresses bytes.now writable result }
    ensures suits { Suits (length inventory.now.addresses) writable result }
{
    one_control();
    decide(inventory, &read_control(bytes), writable)
}
