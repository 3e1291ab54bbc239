//! The faults that can end a script.

ghost use Rattle.std.specs.Prelude.{◌≡◌};
ghost use Rattle.script_syntax.specs.Inner.Faults.{ending_at};
ghost use Rattle.script_syntax.specs.declared.fault.Stop.{Stop};

use foundation::NoMemory;
use std::alloc::{AllocError, AllocFailed};
use thiserror::Error;

/// The fault of a line. Where several hold of one line, the first in this order is named, but `BadConfig` stands before
/// all.
#[derive(Clone, Copy, Debug, PartialEq, Eq, Error)]
pub enum LineFault {
    /// The line begins with no word of the language, or has a byte above 7f.
    #[error("unknown line")]
    UnknownLine,
    /// A word that its position doesn't take, or too few or too many words.
    #[error("bad value")]
    BadValue,
    /// A header line behind the header, or for the second time; a line that the command doesn't take, or not on this
    /// side of `close`; a second `close`.
    #[error("out of place")]
    OutOfPlace,
    /// A request of that name was sent before.
    #[error("name taken")]
    NameTaken,
    /// No request of that name was sent.
    #[error("no such name")]
    NoSuchName,
    /// The queue has no room for another chain.
    #[error("queue full")]
    QueueFull,
    /// The buffers don't fit into guest memory.
    #[error("no guest memory")]
    NoGuestMemory,
    /// The device would take more steps than the script may.
    #[error("too many steps")]
    TooManySteps,
    /// Another unit stands in the place of the one that the operator named: the device is at fault.
    #[error("wrong unit")]
    WrongUnit,
    /// The header lacks a line, or asks for what the device refuses.
    #[error("bad config")]
    BadConfig,
    /// The script can't be read.
    #[error("cannot read")]
    CannotRead,
}

/// The cause for which a script came to no good end.
#[derive(Clone, Copy, Debug, PartialEq, Eq, Error)]
pub enum ScriptFault {
    /// A line is at fault. Lines count from 1; the line is 0 where the script can't be read, or is
    /// empty.
    #[error("line {line}: {fault}")]
    Line {
        /// The line's number.
        line: u64,
        /// The fault of that line.
        fault: LineFault,
    },
    /// A word of a line is at fault. Lines and words count from 1; a word that lacks counts as the one behind the last.
    #[error("line {line}, word {word}: {fault}")]
    Word {
        /// The line's number.
        line: u64,
        /// The word's number in its line.
        word: u64,
        /// The fault of that line.
        fault: LineFault,
    },
    /// Memory ran out.
    #[error("no memory")]
    NoMemory,
    /// The writer refused a printed line.
    #[error("cannot write")]
    CannotWrite,
    /// The device was closed, and a receipt isn't confirmed: the first ticket of one.
    #[error("close: unconfirmed {queue}/{number}")]
    Unconfirmed {
        /// The queue of its request.
        queue: u16,
        /// The number of chains that the queue had accepted before it.
        number: u64,
    },
    /// The device was closed, and a chain is outstanding, or a request isn't settled: the first ticket of one.
    #[error("close: outstanding {queue}/{number}")]
    Outstanding {
        /// The queue of the chain.
        queue: u16,
        /// The number of chains that the queue had accepted before it.
        number: u64,
    },
}

/// The cause for which a line ends the script, before it is known which line it is.
#[derive(Clone, Copy)]
pub enum Stop {
    /// The line is at fault.
    Fault(LineFault),
    /// Memory ran out.
    NoMemory,
    /// The writer refused a printed line.
    CannotWrite,
}

impl Stop {
    /// Returns the fault of a script that stopped at this line.
    pub fn at(self, line: u64) -> ScriptFault
        ensures { result ≡ ending_at line self }
    {
        match self {
            Stop::Fault(fault) => ScriptFault::Line { line, fault },
            Stop::NoMemory => ScriptFault::NoMemory,
            Stop::CannotWrite => ScriptFault::CannotWrite,
        }
    }
}

impl From<LineFault> for Stop {
    ghost from_gives = { λ fault stop. stop ≡ Stop.Fault fault };

    fn from(fault: LineFault) -> Stop {
        Stop::Fault(fault)
    }
}

impl From<NoMemory> for Stop {
    ghost from_gives = { λ _ stop. stop ≡ Stop.NoMemory };

    fn from(_: NoMemory) -> Stop {
        Stop::NoMemory
    }
}

impl From<AllocError> for Stop {
    ghost from_gives = { λ _ stop. stop ≡ Stop.NoMemory };

    fn from(_: AllocError) -> Stop {
        Stop::NoMemory
    }
}

impl<T: Drop> From<AllocFailed<T>> for Stop {
    ghost from_gives = { λ _ stop. stop ≡ Stop.NoMemory };

    fn from(_: AllocFailed<T>) -> Stop {
        Stop::NoMemory
    }
}
