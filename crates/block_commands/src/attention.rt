//! Commands that meet a pending unit attention, and those that take it (SAM-5 §5.14).

ghost use Rattle.std.specs.Prelude.{◌≡◌};
ghost use Rattle.command_model.specs.Attention.{takes, met};

use cdb::Command;
use command_model::{INQUIRY, REQUEST_SENSE};
use sense::Sense;

/// The opcode of REPORT LUNS, which a CDB that is refused still has.
const REPORT_LUNS: u8 = 0xa0;

/// Returns true if the command takes the oldest pending attention, if there is one: every command but INQUIRY, REPORT
/// LUNS and a refused CDB of these two or of REQUEST SENSE. The unit asks this once the command ran, and removes the
/// oldest.
pub fn takes_attention(command: &Command) -> bool
    ensures { result ≡ takes command.now }
{
    match *command {
        Command::Inquiry { .. } | Command::ReportLuns { .. } => false,
        Command::Bad { opcode } => !matches!(opcode, REQUEST_SENSE | INQUIRY | REPORT_LUNS),
        _ => true,
    }
}

/// Returns the attention that is reported in place of the command's own answer, if any. REQUEST SENSE takes it as its
/// data.
pub(crate) fn met_attention(command: &Command, pending: Option<Sense>) -> Option<Sense>
    ensures { result ≡ met command.now pending }
{
    match *command {
        Command::RequestSense { .. } => None,
        _ if takes_attention(command) => pending,
        _ => None,
    }
}
