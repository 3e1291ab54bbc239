//! The memory of a guest, as its driver has it.

ghost use Rattle.std.specs.Prelude.{◌≡◌, ◌≤◌, ◌^◌, ℕ, List, length, OnOk, OnErr, IfErr};
ghost use Rattle.guest_mem.specs.Memory.{bytes_at, with_bytes, LiesIn};
ghost use Rattle.guest_mem.specs.declared.memory.MemFault.TheVariants as MemFault;

use guest_mem::{GuestMem, MemFault};

/// The memory of a guest, as its driver writes and reads it. It is that of a device of one thread, or one that threads
/// have behind a lock. Clauses say less of the latter.
pub trait GuestMemory {
    /// Its size in bytes.
    ghost extent: { Self → ℕ };

    /// A read at an address may find these bytes.
    ghost finds: { Self → ℕ → List ℕ → Type 0 };

    /// A read or a write of so many bytes at an address may be refused.
    ghost refuses: { Self → ℕ → ℕ → Type 0 };

    /// A write of these bytes at an address may leave it so.
    ghost takes: { Self → ℕ → List ℕ → Self → Type 0 };

    /// Returns how many bytes it has, at most 2^44.
    fn size(&self) -> u64
        ensures size { result ≡ extent self.now }
        ensures bounded { result ≤ 2 ^ 44 };

    /// Reads bytes at an address, as many as `into` holds. `Outside`, with `into` as it was, where it refuses them.
    fn read(&self, at: u64, into: &mut [u8]) -> Result<(), MemFault>
        ensures found { OnOk result (finds self.now at into.new) }
        ensures refused { OnErr result (refuses self.now at (length into.old)) }
        ensures fault { IfErr result (λ fault. fault ≡ MemFault.Outside) }
        ensures unchanged { OnErr result (into.new ≡ into.old) };

    /// Writes bytes at an address. `Outside`, with nothing changed, where it refuses them.
    fn write(&mut self, at: u64, bytes: &[u8]) -> Result<(), MemFault>
        ensures written { OnOk result (takes self.old at bytes.now self.new) }
        ensures refused { OnErr result (refuses self.old at (length bytes.now)) }
        ensures fault { IfErr result (λ fault. fault ≡ MemFault.Outside) }
        ensures unchanged { OnErr result (self.new ≡ self.old) };
}

impl GuestMemory for GuestMem {
    ghost extent = { λ m. length m };

    ghost finds = { λ m at bytes. LiesIn (length m) at (length bytes) × (bytes ≡ bytes_at m at (length bytes)) };

    ghost refuses = { λ m at n. ¬ LiesIn (length m) at n };

    ghost takes = { λ m at bytes n. LiesIn (length m) at (length bytes) × (n ≡ with_bytes m at bytes) };

    fn size(&self) -> u64 {
        GuestMem::size(self)
    }

    fn read(&self, at: u64, into: &mut [u8]) -> Result<(), MemFault> {
        GuestMem::read(self, at, into)
    }

    fn write(&mut self, at: u64, bytes: &[u8]) -> Result<(), MemFault> {
        GuestMem::write(self, at, bytes)
    }
}
