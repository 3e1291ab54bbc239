//! Runs of bytes that were read.

/// The most bytes of a run that are kept in its span.
pub const SHORT: usize = 16;

/// A run of bytes that was read: `len` bytes from the guest's address `addr` on, kept from index `start` on. A run of at most
/// 16 bytes is kept in the span itself, and others side by side.
#[derive(Clone, Copy)]
pub struct Span {
    pub addr: u64,
    pub start: usize,
    pub len: usize,
    pub short: [u8; SHORT],
}
