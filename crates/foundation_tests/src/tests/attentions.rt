//! Unit attentions that are pending.

use super::none_is;
use unit_attention::{Attentions, Code};

/// An act on what is pending, and what comes of it.
enum Act {
    /// An I_T nexus loss is raised.
    Loss,
    /// A power on or reset is.
    PowerOn,
    /// A change of the capacity is.
    Capacity,
    /// A reset of the device is.
    BusReset,
    /// True if none is pending.
    IsEmpty(bool),
    /// The oldest, which stays.
    Peek(Option<Code>),
    /// The oldest, which is taken.
    Take(Option<Code>),
}

/// The acts on a new list, one after the other.
static ACTS: [Act; 17] = [
    Act::IsEmpty(true),
    Act::Peek(None),
    Act::Take(None),
    Act::Loss,
    Act::PowerOn,
    Act::Loss,
    Act::Capacity,
    Act::BusReset,
    Act::IsEmpty(false),
    Act::Peek(Some(Code {
        asc: 0x29,
        ascq: 0x07,
    })),
    Act::Take(Some(Code {
        asc: 0x29,
        ascq: 0x07,
    })),
    Act::Take(Some(Code {
        asc: 0x29,
        ascq: 0x00,
    })),
    Act::Loss,
    Act::Take(Some(Code {
        asc: 0x2a,
        ascq: 0x09,
    })),
    Act::Take(Some(Code {
        asc: 0x29,
        ascq: 0x03,
    })),
    Act::Take(Some(Code {
        asc: 0x29,
        ascq: 0x07,
    })),
    Act::Take(None),
];

/// Does an act. Returns true if its outcome is the expected one.
fn does(pending: &mut Attentions, act: &Act) -> bool {
    match act {
        Act::Loss => pending.raise(Code::I_T_NEXUS_LOSS),
        Act::PowerOn => pending.raise(Code::POWER_ON_OR_RESET),
        Act::Capacity => pending.raise(Code::CAPACITY_DATA_CHANGED),
        Act::BusReset => pending.raise(Code::BUS_DEVICE_RESET_FUNCTION),
        Act::IsEmpty(wanted) => return pending.is_empty() == *wanted,
        Act::Peek(wanted) => return pending.peek() == *wanted,
        Act::Take(wanted) => return pending.take() == *wanted,
    }
    true
}

/// Returns the number of the first act that doesn't go as it should, from 0.
fn first_wrong() -> Option<usize> {
    let mut pending = Attentions::new();
    for number in 0..ACTS.len() {
        if !does(&mut pending, &ACTS[number]) {
            return Some(number);
        }
    }
    None
}

#[test]
fn oldest_goes_first(rt: HostRuntime) {
    none_is(&rt, first_wrong());
}
