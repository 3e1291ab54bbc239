//! The answer of a LUN that a target lacks.

ghost use Rattle.std.specs.Prelude.{◌≡◌, ◌≤◌, length, take};
ghost use Rattle.arrayvec.specs.ArrayVec.{array_vec_len};
ghost use Rattle.cdb.specs.Need.{need_of};
ghost use Rattle.command_model.specs.Absent.{absent_reply};
ghost use Rattle.command_model.specs.Inner.Absent.{plain_of_absent, returned};
ghost use Rattle.command_model.specs.PlainReply.{refusal};

use crate::opcodes::{INQUIRY, REQUEST_SENSE};
use crate::reply::{CHECK_CONDITION, GOOD};
use crate::standard::{NO_DEVICE, standard_data};
use arrayvec::ArrayVec;
use cdb::{Command, InquiryData};
use sense::Sense;

/// The most data that a LUN which a target lacks returns: the standard data of INQUIRY.
pub const ABSENT_BYTES: usize = 36;

/// The answer of a LUN that its target lacks. Its data stand in place, so it takes no memory.
#[derive(Drop)]
pub struct AbsentReply {
    /// The status code: GOOD or CHECK CONDITION.
    pub status: u8,
    /// The sense data of a CHECK CONDITION.
    pub sense: Option<Sense>,
    /// The data to the driver: as many bytes as the command needs room for, or fewer.
    pub payload: ArrayVec<u8, ABSENT_BYTES>,
    /// The number of bytes that were moved to the driver: those of the payload.
    pub moved: u32,
}

/// Answers a command for a LUN that a target lacks (SPC-4 §6.6.1, SAM-5 §5.11):
///
/// - INQUIRY with its standard data, whose first byte says that there is no device;
/// - REQUEST SENSE with LOGICAL UNIT NOT SUPPORTED as its data;
/// - a page of vital product data, and a refused CDB of either command, with INVALID FIELD IN CDB;
/// - every other command with LOGICAL UNIT NOT SUPPORTED.
pub fn exec_absent(command: &Command) -> AbsentReply
    ensures reply { plain_of_absent result ≡ absent_reply command.now }
    ensures room { array_vec_len result.payload ≤ (need_of command.now).into }
{
    match *command {
        Command::RequestSense { allocation, .. } => {
            returned(&Sense::LOGICAL_UNIT_NOT_SUPPORTED.to_fixed(), allocation)
        }
        Command::Inquiry {
            what: InquiryData::Standard,
            allocation,
        } => returned(&standard_data(NO_DEVICE), allocation),
        Command::Inquiry { .. }
        | Command::Bad {
            opcode: REQUEST_SENSE | INQUIRY,
        } => refused(Sense::INVALID_FIELD_IN_CDB),
        _ => refused(Sense::LOGICAL_UNIT_NOT_SUPPORTED),
    }
}

/// Makes GOOD with these data to the driver, cut to the allocation length (SPC-4 §4.3.5.6).
fn returned(whole: &[u8], allocation: u32) -> AbsentReply
    requires { length whole.now ≤ ABSENT_BYTES }
    ensures reply { plain_of_absent result ≡ returned (take allocation whole.now) }
    ensures room { array_vec_len result.payload ≤ allocation }
{
    let len = whole.len().min(allocation as usize);
    let mut payload = ArrayVec::new();
    let Ok(()) = payload.try_extend_from_slice(&whole[..len]) else {
        unreachable!()
    };
    AbsentReply {
        status: GOOD,
        sense: None,
        payload,
        moved: len as u32,
    }
}

/// Makes CHECK CONDITION with this sense data.
fn refused(sense: Sense) -> AbsentReply
    ensures reply { plain_of_absent result ≡ refusal sense }
    ensures room { array_vec_len result.payload ≡ 0 }
{
    AbsentReply {
        status: CHECK_CONDITION,
        sense: Some(sense),
        payload: ArrayVec::new(),
        moved: 0,
    }
}
