//! The rows of a test, and the acts that they consist of.

use logical_unit::{Place, StepKind};
use ring_core::Ticket;
use unit_model::Rule;

/// The queue that all chains come from.
pub(crate) const QUEUE: u16 = 2;

/// The number that is added to that of a chain of the other queue, in the names of jobs.
pub const OTHER: u64 = 1000;

/// The byte that is written into blocks.
pub const DATA: u8 = 0xab;

/// A command, and how many bytes of data go with it.
#[derive(Clone, Copy)]
pub struct Asked {
    /// Its command descriptor block, as far as it isn't zero.
    pub cdb: [u8; 10],
    /// The bytes of data from the driver.
    pub out: u32,
    /// The bytes of room for data to it.
    pub into: u32,
}

/// TEST UNIT READY (SPC-4 §6.47).
pub const READY: Asked = Asked {
    cdb: [0; 10],
    out: 0,
    into: 0,
};

/// WRITE (10) of block 3 (SBC-3 §5.32).
pub const WRITE: Asked = Asked {
    cdb: [0x2a, 0, 0, 0, 0, 3, 0, 0, 1, 0],
    out: 512,
    into: 0,
};

/// READ (10) of block 3 (SBC-3 §5.11).
pub const READ: Asked = Asked {
    cdb: [0x28, 0, 0, 0, 0, 3, 0, 0, 1, 0],
    out: 0,
    into: 512,
};

/// A request that the driver puts into a queue.
#[derive(Clone, Copy)]
pub struct Sent {
    /// The index of its unit on the bench.
    pub unit: usize,
    /// True if it goes into the other queue, whose tickets are those of the first.
    pub to_other: bool,
    /// The driver's identifier.
    pub id: u64,
    /// SIMPLE is 0, ORDERED 1, HEAD OF QUEUE 2 (VIRTIO 1.2 §5.6.6.1).
    pub attribute: u8,
    /// Its command.
    pub asked: Asked,
}

/// TEST UNIT READY, SIMPLE, to the first unit.
pub const SIMPLE: Sent = Sent {
    unit: 0,
    to_other: false,
    id: 5,
    attribute: 0,
    asked: READY,
};

/// TEST UNIT READY, ORDERED.
pub const ORDERED: Sent = Sent {
    attribute: 1,
    ..SIMPLE
};

/// TEST UNIT READY, HEAD OF QUEUE.
pub const HEAD: Sent = Sent {
    attribute: 2,
    ..SIMPLE
};

/// The fate of a request that came to its unit.
#[derive(Clone, Copy, PartialEq)]
pub enum Comes {
    Run,
    Parked,
    Full,
    Stale,
}

/// The fate of a job at its commit.
#[derive(Clone, Copy, PartialEq)]
pub enum Ends {
    /// GOOD, with so many bytes of data.
    Good(usize),
    /// CHECK CONDITION, with this sense key, ASC and ASCQ.
    Sense(u8, u8, u8),
    Aborted,
    Reset,
    Unknown,
    /// Another end.
    Otherwise,
}

/// A call, and what comes of it. A job is named by the number of its chain. After a call of enter, commit, abort,
/// reset or leave the history is longer by the step that its answer says, or by none.
#[derive(Clone, Copy)]
pub enum Act {
    /// A request is fetched and enters: the name of its job, and what it becomes.
    Enter(u64, Sent, Comes),
    /// A request is fetched and enters at this unit.
    EnterAt(usize, u64, Sent, Comes),
    /// So many requests enter and run, with jobs named from this number on.
    Fill(u64, u64),
    /// So many requests, one after another, enter, run and leave, with jobs named from this number on.
    Serve(u64, u64),
    /// A job that is in hand is committed.
    Commit(u64, Ends),
    /// A job that is in hand is committed at this unit.
    CommitAt(usize, u64, Ends),
    /// The chain of a job is completed, and its task leaves: which jobs that hands out.
    Leave(u64, &'static [u64]),
    /// The chain of a job is completed, and no task leaves.
    LeaveUnknown(u64),
    /// An abort: its place, and which jobs it hands out.
    Abort(Rule, Place, &'static [u64]),
    /// So many aborts of all tasks of the first unit, which hand out nothing.
    Aborts(u64),
    /// A reset with BUS DEVICE RESET FUNCTION OCCURRED: its place, and which jobs it hands out.
    Reset(Place, &'static [u64]),
    /// Says whether what was alive at a place and met there has left.
    ClearOf(Place, bool),
    /// Says whether a task that the rule meets is alive.
    IsAlive(Rule, bool),
    /// The whole history of the first unit.
    History(&'static [Told]),
    /// Says how many steps a unit's history has.
    Steps(usize, u64),
    /// Says how many steps of the first unit are folded.
    Base(u64),
    /// All bytes of a block of the first unit.
    Block(u64, u8),
    /// All bytes of the data of a receipt.
    Data(usize, u8),
    /// Says whether a unit confirms a receipt; they are numbered from 0, by their commits.
    Confirms(usize, usize, bool),
    /// The reply of a receipt is taken.
    TakeReply(usize),
}

/// The acts on a bench of its own, and what they show.
pub struct Row {
    /// The text of what the row shows.
    pub shows: &'static str,
    /// True if the units keep replies.
    pub keeps_replies: bool,
    /// The acts, one after the other.
    pub acts: &'static [Act],
}

/// A step of a history, with the number of its chain.
#[derive(Clone, Copy)]
pub enum Told {
    Entered(u64),
    Committed(u64),
    Left(u64),
}

/// Returns the ticket of this number.
fn ticket(number: u64) -> Ticket {
    Ticket {
        queue: QUEUE,
        number,
    }
}

impl Told {
    /// Returns the kind that a unit tells.
    pub(crate) fn kind(&self) -> StepKind {
        match *self {
            Told::Entered(number) => StepKind::Enter(ticket(number)),
            Told::Committed(number) => StepKind::Commit(ticket(number)),
            Told::Left(number) => StepKind::Leave(ticket(number)),
        }
    }
}
