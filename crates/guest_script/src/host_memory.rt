//! The memory of a guest whose device threads serve.

ghost use Rattle.std.specs.Prelude.{◌≡◌, ◌*◌, ⊤};

use guest_driver::GuestMemory;
use guest_mem::{MemFault, PAGE_BYTES};
use std::sync::Wait;
use std::sync::ledger::Ledger;
use workers::{Host, Open, Weighing};

/// The memory of a host's guest, beside its workers. Each read and each write is one hold of its lock, so that what
/// stands there at another moment isn't known.
#[derive(Drop)]
pub(crate) struct HostMemory<'a, R: Wait, C: Ledger + Weighing, D: Ledger> {
    rt: &'a R,
    host: &'a Host<Open, C, D>,
    pages: u32,
}

impl<'a, R: Wait, C: Ledger + Weighing, D: Ledger> HostMemory<'a, R, C, D> {
    /// Returns the memory of this host's guest, of so many pages.
    pub(crate) fn new(
        rt: &'a R,
        host: &'a Host<Open, C, D>,
        pages: u32,
    ) -> HostMemory<'a, R, C, D> {
        HostMemory { rt, host, pages }
    }
}

impl<'a, R: Wait, C: Ledger + Weighing, D: Ledger> GuestMemory for HostMemory<'a, R, C, D> {
    ghost extent = { λ m. m.pages * 4096 };

    ghost finds = { λ m at bytes. ⊤ };

    ghost refuses = { λ m at n. ⊤ };

    ghost takes = { λ m at bytes n. n ≡ m };

    fn size(&self) -> u64 {
        u64::from(self.pages) * PAGE_BYTES as u64
    }

    fn read(&self, at: u64, into: &mut [u8]) -> Result<(), MemFault> {
        self.host.peek(self.rt, at, into)
    }

    fn write(&mut self, at: u64, bytes: &[u8]) -> Result<(), MemFault> {
        let written = self.host.poke(self.rt, at, bytes);
        self.host.kick(self.rt);
        written
    }
}
