//! The reasons for which no report is given.

use ring_core::Ticket;
use std::error::Error;
use std::fmt;

/// The cause for which a closed host gives no report. A receipt that isn't confirmed is named before a ticket that is
/// outstanding. The first of several is named, by queue and number.
#[derive(Clone, Copy, Debug, PartialEq, Eq)]
pub enum CloseFault {
    /// A growth was refused.
    NoMemory,
    /// A receipt isn't confirmed by its unit.
    Unconfirmed(Ticket),
    /// A chain isn't used, or a request isn't settled.
    Outstanding(Ticket),
}

impl fmt::Display for CloseFault {
    fn fmt<W: fmt::Write>(&self, f: &mut fmt::Formatter<W>) -> fmt::Result {
        match self {
            CloseFault::NoMemory => write!(f, "no memory"),
            CloseFault::Unconfirmed(ticket) => {
                write!(f, "unconfirmed {}/{}", ticket.queue, ticket.number)
            }
            CloseFault::Outstanding(ticket) => {
                write!(f, "outstanding {}/{}", ticket.queue, ticket.number)
            }
        }
    }
}

impl Error for CloseFault {}
