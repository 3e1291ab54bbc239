//! Totals of the descriptors before one: all that a walk along a chain has to keep.

ghost use Rattle.std.specs.Prelude.{◌≡◌, ◌+◌, ◌≤◌, ◌^◌, ◌<◌, ◌||◌, MatchResult, None, Some, false};
ghost use Rattle.ring_core.specs.Walk.{is_writable, first_of, buffer_tests};

use crate::descriptor::Descriptor;
use crate::fault::RingFault;

/// Totals of the descriptors before one: those of its run, and in `total` and `writable` also those of a run before it.
/// For rings.
#[derive(Clone, Copy)]
pub struct Before {
    /// The number of them that its run has.
    pub count: u64,
    /// The bytes of their buffers.
    pub total: u64,
    /// True if one of them is writable.
    pub writable: bool,
}

impl Before {
    /// Begins before the first descriptor of a chain.
    pub fn nothing() -> Before
        ensures { result ≡ record { count = 0; total = 0; writable = false } }
    {
        Before {
            count: 0,
            total: 0,
            writable: false,
        }
    }

    /// Begins before the first descriptor of a run behind these: they count no more for how many there are.
    pub fn anew(&self) -> Before
        ensures { result ≡ record { count = 0; total = self.now.total; writable = self.now.writable } }
    {
        Before {
            count: 0,
            total: self.total,
            writable: self.writable,
        }
    }

    /// Adds one more descriptor.
    pub fn with(&self, d: &Descriptor) -> Before
        requires count { self.now.count < 2 ^ 32 }
        requires total { self.now.total + d.now.len ≤ 2 ^ 32 }
        ensures { result ≡ record {
          count = self.now.count + 1;
          total = self.now.total + d.now.len;
          writable = self.now.writable || is_writable d.now;
        } }
    {
        Before {
            count: self.count + 1,
            total: self.total + d.len as u64,
            writable: self.writable || d.is_writable(),
        }
    }

    /// Returns the first thing wrong with a descriptor's buffer, in a memory of this size.
    pub fn check_buffer(&self, d: &Descriptor, memory: u64) -> Result<(), RingFault>
        requires bounded { self.now.total ≤ 2 ^ 32 }
        requires small { memory ≤ 2 ^ 52 }
        ensures { MatchResult result
            (λ _. first_of (buffer_tests memory self.now d.now) ≡ None)
            (λ fault. first_of (buffer_tests memory self.now d.now) ≡ Some fault) }
    {
        let len = d.len as u64;
        if len != 0 && (d.addr > memory || len > memory - d.addr) {
            Err(RingFault::BufferOutside)
        } else if !d.is_writable() && self.writable {
            Err(RingFault::ReadableAfterWritable)
        } else if self.total + len > 1 << 32 {
            Err(RingFault::ChainTooLong)
        } else {
            Ok(())
        }
    }
}
