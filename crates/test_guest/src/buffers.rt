//! The buffers of chains.

ghost use Rattle.std.specs.Prelude.{◌≡◌, ◌+◌, ◌*◌, ◌<◌, ◌^◌};

/// The place of the chains' buffers in guest memory. A chain has one that the device reads, and behind it one that the
/// device writes.
#[derive(Clone, Copy)]
pub struct Buffers {
    /// The address of the first chain's of queue 0.
    pub first: u32,
    /// The bytes from one queue's to those of the next.
    pub of_queue: u32,
    /// The bytes from one chain's to those of the next.
    pub of_chain: u32,
    /// The bytes from what the device reads of a chain to what it writes.
    pub response: u32,
}

impl Buffers {
    /// Returns the address of what the device reads of a queue's chain.
    pub fn readable_at(self, queue: u16, number: u8) -> u64
        ensures at { result ≡ self.first + self.of_queue * queue + self.of_chain * number }
        ensures bound { result < 2 ^ 49 }
    {
        u64::from(self.first)
            + u64::from(self.of_queue) * u64::from(queue)
            + u64::from(self.of_chain) * u64::from(number)
    }

    /// Returns the address of what the device writes of a queue's chain.
    pub fn writable_at(self, queue: u16, number: u8) -> u64
        ensures at { result ≡ self.first + self.of_queue * queue + self.of_chain * number + self.response }
        ensures bound { result < 2 ^ 50 }
    {
        self.readable_at(queue, number) + u64::from(self.response)
    }
}
