//! The reasons for which the work wasn't done.

use foundation::NoMemory;
use std::alloc::AllocError;
use world::StartFault;

/// The cause for which the work wasn't done.
#[derive(Clone, Copy)]
pub(crate) enum Failure {
    /// A request wasn't served, or its command didn't end with GOOD, or the host didn't add up.
    NotServed,
    /// Memory was refused, or a thread.
    NoMemory,
}

impl From<AllocError> for Failure {
    fn from(_: AllocError) -> Failure {
        Failure::NoMemory
    }
}

impl From<NoMemory> for Failure {
    fn from(_: NoMemory) -> Failure {
        Failure::NoMemory
    }
}

impl From<StartFault> for Failure {
    fn from(fault: StartFault) -> Failure {
        match fault {
            StartFault::BadConfig => Failure::NotServed,
            StartFault::NoMemory => Failure::NoMemory,
        }
    }
}
