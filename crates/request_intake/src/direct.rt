//! An answer that needs no unit.

ghost use Rattle.std.specs.Prelude.{◌≡◌, ◌+◌, ◌≤◌, ◌^◌, ◌++◌, [], length};
ghost use Rattle.cdb.specs.Need.{need_of};
ghost use Rattle.command_model.specs.Absent.{absent_reply};
ghost use Rattle.command_model.specs.PlainReply.{refusal};
ghost use Rattle.scsi_codec.specs.ControlQueue.{function_bytes, notification_bytes};
ghost use Rattle.request_intake.specs.Answers.{failed, answer_of_reply, status_reply};

use crate::answer::{ChainLengths, response_ok};
use arrayvec::ArrayVec;
use cdb::Command;
use command_model::{ABSENT_BYTES, CHECK_CONDITION, exec_absent};
use scsi_codec::{
    FunctionResponse, RESPONSE_BYTES, Response, ResponseCode, write_control, write_notification,
    write_response,
};
use sense::Sense;
use std::marker::Model;

/// The most bytes of an answer that needs no unit: a response, and the standard data of INQUIRY.
pub const MOST_DIRECT_BYTES: usize = RESPONSE_BYTES + ABSENT_BYTES;

/// The bytes of an answer that needs no unit. They stand in place, so that making them takes no memory.
pub type DirectBytes = ArrayVec<u8, MOST_DIRECT_BYTES>;

/// The answers that need no unit.
#[derive(Drop)]
pub(crate) enum Told {
    /// No byte.
    Nothing,
    /// A response other than OK.
    Failed(ResponseCode),
    /// A status with no sense data.
    Status(u8),
    /// CHECK CONDITION with sense data.
    Refused(Sense),
    /// The answer of a LUN that its target lacks.
    Absent(Command),
    /// The response of a task management function.
    Function(FunctionResponse),
    /// The response to a notification, which reports no event.
    Notification(ResponseCode),
}

/// An answer that needs no unit. It has no byte, or 108 and the data behind them, or the 1 or 5 of an answer on the
/// control queue. It is small, and its bytes are made where they are written, so that neither takes memory.
#[derive(Drop)]
pub struct DirectAnswer {
    lengths: ChainLengths,
    told: Told,
}

impl Model for DirectAnswer {
    ghost use Rattle.std.specs.Prelude.{List, ℕ};
    ghost use Rattle.request_intake.specs.Direct.{told_bytes};
    ghost use Rattle.request_intake.specs.Inner.Direct.{CanTell};

    ghost Value = { List ℕ };

    ghost view = { λ a. told_bytes a.lengths a.told };

    ghost invariant = { λ a. CanTell a.lengths a.told };
}

/// Makes a response, and the data behind it.
fn with_data(head: &[u8; RESPONSE_BYTES], payload: &[u8]) -> DirectBytes
    requires { length payload.now ≤ ABSENT_BYTES }
    ensures { result.items ≡ head.now ++ payload.now }
{
    let mut bytes = ArrayVec::new();
    let Ok(()) = bytes.try_extend_from_slice(head) else {
        unreachable!()
    };
    let Ok(()) = bytes.try_extend_from_slice(payload) else {
        unreachable!()
    };
    bytes
}

/// Makes the bytes of a response other than OK.
fn failed_bytes(code: ResponseCode) -> DirectBytes
    ensures { result.items ≡ failed code }
{
    let head = write_response(&Response {
        code,
        status: 0,
        residual: 0,
        sense: None,
    });
    with_data(&head, &[])
}

/// Makes the bytes of CHECK CONDITION with this sense data.
fn refused_bytes(lengths: &ChainLengths, sense: Sense) -> DirectBytes
    requires sum { lengths.now.readable + lengths.now.writable ≤ 2 ^ 32 }
    requires room { RESPONSE_BYTES ≤ lengths.now.writable }
    ensures { result.items ≡ answer_of_reply lengths.now (refusal sense) }
{
    let head = response_ok(lengths, CHECK_CONDITION, Some(sense), 0);
    with_data(&head, &[])
}

/// Makes the bytes of a status with no sense data.
fn status_bytes(lengths: &ChainLengths, status: u8) -> DirectBytes
    requires sum { lengths.now.readable + lengths.now.writable ≤ 2 ^ 32 }
    requires room { RESPONSE_BYTES ≤ lengths.now.writable }
    ensures { result.items ≡ answer_of_reply lengths.now (status_reply status) }
{
    let head = response_ok(lengths, status, None, 0);
    with_data(&head, &[])
}

/// Makes what a LUN that its target lacks is answered.
fn absent_bytes(lengths: &ChainLengths, command: &Command) -> DirectBytes
    requires sum { lengths.now.readable + lengths.now.writable ≤ 2 ^ 32 }
    requires room { RESPONSE_BYTES + (need_of command.now).into ≤ lengths.now.writable }
    ensures { result.items ≡ answer_of_reply lengths.now (absent_reply command.now) }
{
    let reply = exec_absent(command);
    let head = response_ok(lengths, reply.status, reply.sense, reply.moved);
    with_data(&head, reply.payload.as_slice())
}

/// Makes the bytes of the response of a task management function.
fn function_bytes(response: FunctionResponse) -> DirectBytes
    ensures { result.items ≡ function_bytes response }
{
    control_bytes(&write_control(response))
}

/// Makes the bytes of the response to a notification, which reports no event.
fn notification_bytes(response: ResponseCode) -> DirectBytes
    ensures { result.items ≡ notification_bytes 0 response }
{
    control_bytes(&write_notification(0, response))
}

/// Returns a copy of the bytes of an answer on the control queue.
fn control_bytes(from: &[u8]) -> DirectBytes
    requires { length from.now ≤ 5 }
    ensures { result.items ≡ from.now }
{
    let mut bytes = ArrayVec::new();
    let Ok(()) = bytes.try_extend_from_slice(from) else {
        unreachable!()
    };
    bytes
}

/// The lengths where an answer doesn't depend on them.
const NO_LENGTHS: ChainLengths = ChainLengths {
    readable: 0,
    writable: 0,
};

impl DirectAnswer {
    /// Makes an answer of no byte: the chain is used with length 0.
    pub fn nothing() -> DirectAnswer
        ensures { result ≡ [] }
    {
        DirectAnswer {
            lengths: NO_LENGTHS,
            told: Told::Nothing,
        }
    }

    /// Makes a response other than OK.
    pub fn failed(code: ResponseCode) -> DirectAnswer
        ensures bytes { result ≡ failed code }
        ensures len { length result ≡ RESPONSE_BYTES }
    {
        DirectAnswer {
            lengths: NO_LENGTHS,
            told: Told::Failed(code),
        }
    }

    /// Makes CHECK CONDITION with this sense data.
    #[tactic(auto, using(crate::proofs::Lengths::length_refused))]
    pub fn refused(lengths: &ChainLengths, sense: Sense) -> DirectAnswer
        requires sum { lengths.now.readable + lengths.now.writable ≤ 2 ^ 32 }
        requires room { RESPONSE_BYTES ≤ lengths.now.writable }
        ensures bytes { result ≡ answer_of_reply lengths.now (refusal sense) }
        ensures len { length result ≡ RESPONSE_BYTES }
    {
        DirectAnswer {
            lengths: *lengths,
            told: Told::Refused(sense),
        }
    }

    /// Makes a status with no sense data, which moves nothing, as BUSY and TASK SET FULL.
    pub fn of_status(lengths: &ChainLengths, status: u8) -> DirectAnswer
        requires sum { lengths.now.readable + lengths.now.writable ≤ 2 ^ 32 }
        requires room { RESPONSE_BYTES ≤ lengths.now.writable }
        ensures bytes { result ≡ answer_of_reply lengths.now (status_reply status) }
        ensures len { length result ≡ RESPONSE_BYTES }
    {
        DirectAnswer {
            lengths: *lengths,
            told: Told::Status(status),
        }
    }

    /// Makes what a LUN that its target lacks is answered.
    pub(crate) fn absent(lengths: &ChainLengths, command: &Command) -> DirectAnswer
        requires sum { lengths.now.readable + lengths.now.writable ≤ 2 ^ 32 }
        requires room { RESPONSE_BYTES + (need_of command.now).into ≤ lengths.now.writable }
        ensures bytes { result ≡ answer_of_reply lengths.now (absent_reply command.now) }
        ensures fits { length result ≤ lengths.now.writable }
    {
        DirectAnswer {
            lengths: *lengths,
            told: Told::Absent(*command),
        }
    }

    /// Makes the response of a task management function (VIRTIO 1.2 §5.6.6.2). Called where a function is refused, and
    /// where one that is finished is answered.
    pub fn of_function(response: FunctionResponse) -> DirectAnswer
        ensures { result ≡ function_bytes response }
    {
        DirectAnswer {
            lengths: NO_LENGTHS,
            told: Told::Function(response),
        }
    }

    /// Makes the response to an asynchronous notification query or subscription (VIRTIO 1.2 §5.6.6.2), which reports no
    /// event. Called where a chain of the control queue is decided on.
    pub fn of_notification(response: ResponseCode) -> DirectAnswer
        ensures { result ≡ notification_bytes 0 response }
    {
        DirectAnswer {
            lengths: NO_LENGTHS,
            told: Told::Notification(response),
        }
    }

    /// Returns its bytes.
    pub fn bytes(&self) -> DirectBytes
        ensures { result.items ≡ self.now }
    {
        match &self.told {
            Told::Nothing => ArrayVec::new(),
            Told::Failed(code) => failed_bytes(*code),
            Told::Status(status) => status_bytes(&self.lengths, *status),
            Told::Refused(sense) => refused_bytes(&self.lengths, *sense),
            Told::Absent(command) => absent_bytes(&self.lengths, command),
            Told::Function(response) => function_bytes(*response),
            Told::Notification(response) => notification_bytes(*response),
        }
    }
}
