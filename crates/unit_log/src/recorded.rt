//! Steps as proofs see them: with the data of their commands and replies, which no bytes keep.

ghost use Rattle.std.specs.Prelude.{◌≡◌, ◌-◌, ◌^◌, ◌<◌, length};
ghost use Rattle.command_model.specs.PlainReply.{plain_of};
ghost use Rattle.command_model.specs.Inner.PlainReply.{good_data};
ghost use Rattle.unit_model.specs.Tasks.{entry_of};
ghost use Rattle.unit_log.specs.Kept.{kind_of};
ghost use Rattle.unit_log.specs.Recorded.{step_recorded};

use crate::kind::StepKind;
use cdb::Command;
use command_model::{GOOD, Reply};
use foundation::Record;
use request_intake::{TaskAttribute, UnitRequest};
use ring_core::Ticket;
use sense::Sense;
use std::marker::Model;
use unit_attention::Code;
use unit_model::Rule;

/// A task as it entered.
#[derive(Drop)]
pub struct RecordedEntry {
    ticket: Ticket,
    id: u64,
    attribute: TaskAttribute,
    command: Command,
    asks_medium: bool,
    data_out: Record<u8>,
}

impl Model for RecordedEntry {
    ghost use Rattle.unit_model.specs.Tasks.{Entry};

    ghost Value = { Entry };

    ghost view = { λ e. record {
      ticket = e.ticket;
      id = e.id;
      attribute = e.attribute;
      command = e.command;
      asks_medium = e.asks_medium;
      data_out = e.data_out.items;
    } };
}

impl RecordedEntry {
    /// Makes the task of a request that was fetched under a ticket.
    #[inline(always)]
    pub fn new(ticket: Ticket, request: &UnitRequest) -> RecordedEntry
        ensures { result ≡ entry_of ticket request.now }
    {
        RecordedEntry {
            ticket,
            id: request.id(),
            attribute: request.attribute(),
            command: request.command(),
            asks_medium: request.asks_medium(),
            data_out: Record::new().and_all(request.data()),
        }
    }
}

/// A reply.
#[derive(Drop)]
pub struct RecordedReply {
    status: u8,
    sense: Option<Sense>,
    payload: Record<u8>,
    moved: u32,
    // The number of bytes of the data.
    data_bytes: u64,
}

impl Model for RecordedReply {
    ghost use Rattle.std.specs.Prelude.{◌≡◌, length};
    ghost use Rattle.command_model.specs.PlainReply.{PlainReply};

    ghost Value = { PlainReply };

    ghost view = { λ r. record { status = r.status; sense = r.sense; payload = r.payload.items; moved = r.moved } };

    ghost invariant = { λ r. r.data_bytes ≡ length r.payload.items };
}

impl RecordedReply {
    /// Returns what was replied, as the log has it.
    #[inline(always)]
    pub fn of(reply: &Reply) -> RecordedReply
        ensures { result ≡ plain_of reply.now }
    {
        RecordedReply {
            status: reply.status,
            sense: reply.sense,
            payload: Record::new().and_all(reply.payload.as_slice()),
            moved: reply.moved,
            data_bytes: reply.payload.len() as u64,
        }
    }

    /// Returns what is replied to a READ that ended with these data, of so many bytes.
    #[inline(always)]
    pub fn of_read(payload: Record<u8>, len: u32) -> RecordedReply
        requires { len ≡ length payload.items }
        ensures { result ≡ good_data payload.items }
    {
        RecordedReply {
            status: GOOD,
            sense: None,
            payload,
            moved: len,
            data_bytes: u64::from(len),
        }
    }

    /// Returns its status.
    #[inline(always)]
    pub(crate) fn status(&self) -> u8
        ensures { result ≡ self.now.status }
    {
        self.status
    }

    /// Returns how many bytes of data it gives to the driver.
    #[inline(always)]
    pub(crate) fn data_in(&self) -> u64
        ensures { result ≡ length self.now.payload }
    {
        self.data_bytes
    }

    /// Returns how many bytes were moved besides: they came from the driver.
    #[inline(always)]
    pub(crate) fn data_out(&self) -> u64
        ensures { result ≡ self.now.moved - length self.now.payload }
    {
        u64::from(self.moved).saturating_sub(self.data_bytes)
    }
}

/// A step with its kind and its chain, as [`StepKind`] tells them. It has the task that entered, the reply of the
/// command that ran, the code that a reset raised, or the capacity that a resize gave.
#[derive(Drop)]
pub enum RecordedStep {
    /// A task entered the task set.
    Enter(RecordedEntry),
    /// A request was refused with TASK SET FULL.
    Full(Ticket),
    /// A command ran whole.
    Commit(Ticket, RecordedReply),
    /// A command was refused memory and answered BUSY.
    Busy(Ticket),
    /// Tasks were aborted.
    Abort(Rule),
    /// The unit was reset.
    Reset(Code),
    /// The unit has so many blocks from now on.
    Resize(u64),
    /// A task left, once it was answered.
    Leave(Ticket),
}

impl RecordedStep {
    /// Returns the step's kind.
    pub(crate) fn kind(&self) -> StepKind
        ensures { result ≡ kind_of (step_recorded self.now) }
    {
        match self {
            RecordedStep::Enter(entry) => StepKind::Enter(entry.ticket),
            RecordedStep::Full(ticket) => StepKind::Full(*ticket),
            RecordedStep::Commit(ticket, _) => StepKind::Commit(*ticket),
            RecordedStep::Busy(ticket) => StepKind::Busy(*ticket),
            RecordedStep::Abort(rule) => StepKind::Abort(*rule),
            RecordedStep::Reset(_) => StepKind::Reset,
            RecordedStep::Resize(_) => StepKind::Resize,
            RecordedStep::Leave(ticket) => StepKind::Leave(*ticket),
        }
    }
}
