//! The work: kinds of requests, and how often each is asked.

use ring_core::Form;

/// The bytes of a request before its data, and of a response before its data (VIRTIO 1.2, 5.6.6.1).
pub(crate) const REQUEST_BYTES: u32 = 51;

pub(crate) const RESPONSE_BYTES: u32 = 108;

/// The blocks of 64 KiB.
const LARGE: u16 = 128;

/// The act of each request.
#[derive(Clone, Copy)]
pub(crate) enum Kind {
    /// TEST UNIT READY.
    Ready,
    /// READ (10) of one block.
    Read512,
    /// WRITE (10) of one block.
    Write512,
    /// READ (10) of 64 KiB.
    Read64k,
    /// WRITE (10) of 64 KiB.
    Write64k,
}

/// All kinds, in the order in which they are told.
pub(crate) const KINDS: [Kind; 5] = [
    Kind::Ready,
    Kind::Read512,
    Kind::Write512,
    Kind::Read64k,
    Kind::Write64k,
];

impl Kind {
    /// Returns the word that names it.
    pub(crate) fn word(self) -> &'static str {
        match self {
            Kind::Ready => "tur",
            Kind::Read512 => "read512",
            Kind::Write512 => "write512",
            Kind::Read64k => "read64k",
            Kind::Write64k => "write64k",
        }
    }

    /// Returns how many blocks one request covers at most.
    pub(crate) fn blocks(self) -> u16 {
        match self {
            Kind::Ready => 0,
            Kind::Read512 | Kind::Write512 => 1,
            Kind::Read64k | Kind::Write64k => LARGE,
        }
    }
}

/// The work that is to be done.
#[derive(Clone, Copy)]
pub(crate) struct Work {
    /// The act of each request.
    pub(crate) kind: Kind,
    /// The form of the queues.
    pub(crate) form: Form,
    /// The number of requests that are made available at once on a queue: a power of two, at most 256.
    pub(crate) depth: u16,
    /// The number of times that they are made available.
    pub(crate) rounds: u64,
    /// The number of workers that serve, at most 8. With none the device of one thread serves.
    pub(crate) workers: u16,
}
