//! The answers of a unit's calls.

ghost use Rattle.std.specs.Prelude.{◌≡◌, Option, Some, None};
ghost use Rattle.std.specs.Option.{option_map};
ghost use Rattle.command_model.specs.PlainReply.{plain_of};
ghost use Rattle.logical_unit.specs.Inner.Calls.{entered_of};

use command_model::{GOOD, Reply};
use ring_core::Ticket;
use scsi_codec::Address;
use std::error::Error;
use std::fmt;
use std::marker::Model;
use task_set::Job;
use unit_model::Reason;

/// The outcome of a request that came to its unit.
#[derive(Drop)]
pub enum Entered {
    /// Its task entered and may run: the thread that gets the job commits it.
    Run(Job),
    /// Its task entered and waits: a later call hands its job out.
    Parked,
    /// 64 tasks are alive: TASK SET FULL (SAM-5 §5.3.1).
    Full(Job),
    /// Memory was refused, and nothing changed: BUSY (SAM-5 §5.3.1).
    Busy(Job),
    /// It names another unit, or its ticket is not above the last of its queue. Nothing changed.
    Stale(Job),
}

impl Entered {
    /// Makes the outcome of a task that entered, with its job where that is to be committed.
    pub(crate) fn of(job: Option<Job>) -> Entered
        ensures { result ≡ entered_of job }
    {
        match job {
            Some(job) => Entered::Run(job),
            None => Entered::Parked,
        }
    }
}

/// Says why a unit isn't resized. Nothing changed.
#[derive(Clone, Copy, Debug, PartialEq, Eq)]
pub enum ResizeFault {
    /// No unit may have so many blocks: 0, or more than 2^40.
    BadCapacity,
    /// Memory was refused.
    NoMemory,
}

/// The outcome of a job's commit.
#[derive(Drop)]
pub enum Outcome {
    /// Its command ran whole.
    Reply(Receipt),
    /// Its task was marked: nothing was done.
    Aborted(Reason),
    /// Memory was refused: BUSY (SAM-5 §5.3.1), and blocks and attentions are as before.
    Busy,
    /// No task of the job can take the step: nothing was done.
    Unknown,
}

impl Outcome {
    ghost use Rattle.logical_unit.specs.Inner.Calls.{ends_well};

    /// Returns true if its command ran, and ended with GOOD.
    pub(crate) fn ends_well(&self) -> bool
        ensures { result ≡ ends_well self.now }
    {
        match self {
            Outcome::Reply(
                Receipt {
                    reply: Some(reply),
                    ..
                },
            ) => reply.status == GOOD,
            _ => false,
        }
    }

    /// Returns its reply, if it has one, to be let go.
    pub(crate) fn into_reply(self) -> Option<Reply> {
        match self {
            Outcome::Reply(receipt) => {
                let Receipt { reply, .. } = receipt;
                reply
            }
            Outcome::Aborted(_) | Outcome::Busy | Outcome::Unknown => None,
        }
    }
}

/// The proof that a command ran whole, and with which reply. `UnitState::commit` alone makes one.
#[derive(Drop)]
pub struct Receipt {
    unit: Address,
    place: u64,
    ticket: Ticket,
    reply: Option<Reply>,
}

impl Model for Receipt {
    ghost use Rattle.std.specs.Option.{option_map};
    ghost use Rattle.command_model.specs.PlainReply.{plain_of};
    ghost use Rattle.unit_model.specs.Receipts as receipts;

    ghost Value = { receipts.Receipt };

    ghost view = { λ r. record {
      unit = r.unit;
      place = r.place;
      ticket = r.ticket;
      reply = option_map plain_of r.reply;
    } };
}

impl Receipt {
    /// Makes a receipt, for `UnitState::commit` alone.
    pub(crate) fn new(unit: Address, place: u64, ticket: Ticket, reply: Reply) -> Receipt
        ensures { result ≡ record { unit = unit; place = place; ticket = ticket; reply = Some (plain_of reply) } }
    {
        Receipt {
            unit,
            place,
            ticket,
            reply: Some(reply),
        }
    }

    /// Returns the address of the unit.
    pub fn unit(&self) -> Address
        ensures { result ≡ self.now.unit }
    {
        self.unit
    }

    /// Returns how many steps stood before the Commit.
    pub fn place(&self) -> u64
        ensures { result ≡ self.now.place }
    {
        self.place
    }

    /// Returns the ticket of the chain.
    pub fn ticket(&self) -> Ticket
        ensures { result ≡ self.now.ticket }
    {
        self.ticket
    }

    /// Returns the reply; `None` once it was taken.
    pub fn reply(&self) -> &Option<Reply>
        ensures { option_map plain_of result.now ≡ self.now.reply }
    {
        &self.reply
    }

    /// Takes the reply out, to be let go once it was written.
    pub fn take_reply(&mut self) -> Option<Reply>
        ensures reply { option_map plain_of result ≡ self.old.reply }
        ensures rest { self.new ≡ record self.old { reply = None } }
    {
        self.reply.take()
    }
}

/// A receipt without its reply, in 24 bytes. A host keeps receipts so, and their latest replies apart.
#[derive(Drop)]
pub struct BareReceipt {
    place: u64,
    number: u64,
    queue: u16,
    unit: Address,
}

impl Model for BareReceipt {
    ghost use Rattle.std.specs.Prelude.{None};
    ghost use Rattle.unit_model.specs.Receipts as receipts;

    ghost Value = { receipts.Receipt };

    ghost view = { λ r. record {
      unit = r.unit;
      place = r.place;
      ticket = record { queue = r.queue; number = r.number };
      reply = None;
    } };
}

impl BareReceipt {
    /// Parts a receipt from its reply.
    pub fn of(receipt: Receipt) -> (BareReceipt, Option<Reply>)
        ensures bare { result.0 ≡ record receipt { reply = None } }
        ensures reply { option_map plain_of result.1 ≡ receipt.reply }
    {
        let Receipt {
            unit,
            place,
            ticket,
            reply,
        } = receipt;
        let bare = BareReceipt {
            place,
            number: ticket.number,
            queue: ticket.queue,
            unit,
        };
        (bare, reply)
    }

    /// Joins the receipt with a reply, where that is still there.
    pub fn with_reply(self, reply: Option<Reply>) -> Receipt
        ensures { result ≡ record self { reply = option_map plain_of reply } }
    {
        let ticket = Ticket {
            queue: self.queue,
            number: self.number,
        };
        Receipt {
            unit: self.unit,
            place: self.place,
            ticket,
            reply,
        }
    }
}

/// No task of the ticket can leave: none is alive, or it is neither done nor marked.
#[derive(Clone, Copy, Debug, PartialEq, Eq)]
pub struct Unknown;

impl fmt::Display for Unknown {
    fn fmt<W: fmt::Write>(&self, f: &mut fmt::Formatter<W>) -> fmt::Result {
        write!(f, "unknown task")
    }
}

impl Error for Unknown {}
