//! The way to the guest's memory.

/// Loads and stores bytes of a guest's memory while the guest runs. All addresses lie inside the memory. No clause says
/// which bytes a load gives: the guest may change them at any moment. `RecordedBus` makes each call, and records it.
pub trait Bus: Drop {
    /// Begins a phase with a full barrier: later loads see nothing older than what was stored before. Where a bus has none, its
    /// owner sees to it that no driver waits for a notification which such a load left out.
    fn begin(&mut self);

    /// Loads the bytes from `addr` on, as many as `out` holds. It loads 2 bytes by one load that acquires. Of 16 bytes
    /// it loads the second half first, which has the flags of a packed descriptor.
    fn load(&mut self, addr: u64, out: &mut [u8]);

    /// Stores `bytes` from `addr` on, behind all stores before. It stores 2 bytes by one store that releases. Of 8 bytes
    /// it stores the last two at the end, which are the flags of a packed descriptor.
    fn store(&mut self, addr: u64, bytes: &[u8]);
}
