//! The memory itself.

ghost use Rattle.std.specs.Prelude.{◌≡◌, ◌+◌, ◌*◌, ◌≤◌, ◌<◌, ◌^◌, List, ℕ, length, replicate, IfOk, OnOk, OnErr, IsOk, IfErr, ◌↔◌, ⊤, false};
ghost use Rattle.guest_mem.specs.Memory.{bytes_at, with_bytes, LiesIn};
ghost use Rattle.guest_mem.specs.Stores.{all_stored, stored_in_order};
ghost use Rattle.std.proofs.Common.{ap, sym, refl, ◌∙◌};

use crate::access::{Memory, WritableMemory};
use std::alloc::{AllocError, Global};
use std::error::Error;
use std::fmt;
use std::marker::Model;

/// The bytes of a page.
pub const PAGE_BYTES: usize = 4096;

/// The cause for which a call on the memory was refused.
#[derive(Clone, Copy, Debug, PartialEq, Eq)]
pub enum MemFault {
    /// Some byte would lie outside the memory.
    Outside = 1,
    /// The memory could not be had.
    NoMemory = 2,
}

impl fmt::Display for MemFault {
    fn fmt<W: fmt::Write>(&self, f: &mut fmt::Formatter<W>) -> fmt::Result {
        match self {
            MemFault::Outside => write!(f, "outside guest memory"),
            MemFault::NoMemory => write!(f, "no memory"),
        }
    }
}

impl Error for MemFault {}

/// The memory of a guest, seen as the list of its bytes. Addresses begin at 0.
#[derive(Drop)]
pub struct GuestMem {
    bytes: Vec<u8>,
}

impl Model for GuestMem {
    ghost Value = { List ℕ };

    ghost view = { λ m. m.bytes.items };

    ghost invariant = { λ m. length m.bytes.items ≤ 2 ^ 28 };
}

impl GuestMem {
    /// Makes a memory of zeros for `pages` pages of 4,096 bytes, from 1 to 65,536. Called once, where a device is
    /// opened. The one refusal is `NoMemory`.
    pub fn new(alloc: Global, pages: u32) -> Result<GuestMem, MemFault>
        requires { pages ≤ 65536 }
        ensures zeros { IfOk result (λ m. m ≡ replicate (pages * 4096) 0) }
        ensures fault { IfErr result (λ fault. fault ≡ MemFault.NoMemory) }
    {
        match vec![in alloc; 0; pages as usize * PAGE_BYTES] {
            Ok(bytes) => Ok(GuestMem { bytes }),
            Err(AllocError) => Err(MemFault::NoMemory),
        }
    }

    /// Returns how many bytes there are, at most 2^28.
    pub fn size(&self) -> u64
        ensures size { result ≡ length self.now }
        ensures bounded { result ≤ 2 ^ 28 }
    {
        self.bytes.len() as u64
    }

    /// Returns the `len` bytes from `addr` on, where they stand. `Outside` exactly where one of them lies behind the
    /// end; no bytes at the very end lie inside.
    pub fn slice(&self, addr: u64, len: usize) -> Result<&[u8], MemFault>
        ensures inside { IsOk result ↔ LiesIn (length self.now) addr len }
        ensures bytes { IfOk result (λ bytes. bytes.now ≡ bytes_at self.now addr len) }
        ensures fault { IfErr result (λ fault. fault ≡ MemFault.Outside) }
    {
        let size = self.bytes.len() as u64;
        if addr > size || len as u64 > size - addr {
            return Err(MemFault::Outside);
        }
        Ok(self.range(addr, len))
    }

    /// Returns the `len` bytes from `addr` on, where they stand. The caller knows that they lie inside.
    #[inline(always)]
    pub fn range(&self, addr: u64, len: usize) -> &[u8]
        requires inside { LiesIn (length self.now) addr len }
        ensures bytes { result.now ≡ bytes_at self.now addr len }
        ensures len { length result.now ≡ len }
    {
        let start = addr as usize;
        &self.bytes[start..start + len]
    }

    /// Copies the bytes from `addr` on into `out`, as many as it holds. It takes no memory.
    /// `Outside`, with `out` as it was, exactly where one of them lies behind the end.
    pub fn read(&self, addr: u64, out: &mut [u8]) -> Result<(), MemFault>
        ensures inside { IsOk result ↔ LiesIn (length self.now) addr (length out.old) }
        ensures bytes { OnOk result (out.new ≡ bytes_at self.now addr (length out.old)) }
        ensures fault { IfErr result (λ fault. fault ≡ MemFault.Outside) }
        ensures unchanged { OnErr result (out.new ≡ out.old) }
    {
        match self.slice(addr, out.len()) {
            Ok(bytes) => {
                out.copy_from_slice(bytes);
                Ok(())
            }
            Err(fault) => Err(fault),
        }
    }

    /// Puts `bytes` at `addr`, and changes nothing else. It takes no memory. `Outside`, with
    /// nothing changed, exactly where one of them would lie behind the end.
    pub fn write(&mut self, addr: u64, bytes: &[u8]) -> Result<(), MemFault>
        ensures inside { IsOk result ↔ LiesIn (length self.old) addr (length bytes.now) }
        ensures bytes { OnOk result (self.new ≡ with_bytes self.old addr bytes.now) }
        ensures size { length self.new ≡ length self.old }
        ensures fault { IfErr result (λ fault. fault ≡ MemFault.Outside) }
        ensures unchanged { OnErr result (self.new ≡ self.old) }
    {
        let size = self.bytes.len() as u64;
        if addr > size || bytes.len() as u64 > size - addr {
            return Err(MemFault::Outside);
        }
        self.put(addr, bytes);
        Ok(())
    }

    /// Puts `bytes` at `addr`, and changes nothing else. The caller knows that they lie inside. It takes no memory.
    #[inline(always)]
    pub fn put(&mut self, addr: u64, bytes: &[u8])
        requires inside { LiesIn (length self.old) addr (length bytes.now) }
        ensures bytes { self.new ≡ with_bytes self.old addr bytes.now }
        ensures size { length self.new ≡ length self.old }
    {
        let start = addr as usize;
        self.bytes[start..start + bytes.len()].copy_from_slice(bytes);
    }
}

/// Copies bytes. Both of two are loaded before one is stored: else the machine code tests whether the places overlap.
#[inline(always)]
fn copy(from: &[u8], out: &mut [u8])
    requires { length from.now ≡ length out.old }
    ensures { out.new ≡ from.now }
{
    match from {
        [first, second] => out.copy_from_slice(&[*first, *second]),
        _ => out.copy_from_slice(from),
    }
}

impl Memory for GuestMem {
    ghost may_be = { λ x m. m ≡ x };

    ghost extent = { length };

    ghost is_open = { λ _. ⊤ };

    ghost begins = { λ x y. y ≡ x };

    ghost has_room = { λ _ _. ⊤ };

    ghost shared = { false };

    ghost Stores = { List ℕ };

    ghost stored = { λ x. x };

    ghost storing = { all_stored };

    #[inline(always)]
    fn begin(&mut self) {}

    #[inline(always)]
    fn size(&self) -> u64 {
        GuestMem::size(self)
    }

    #[inline(always)]
    fn read(&mut self, addr: u64, out: &mut [u8]) {
        copy(self.range(addr, out.len()), out);
    }

    #[inline(always)]
    fn try_read(&mut self, addr: u64, out: &mut [u8]) -> Result<(), AllocError> {
        let bytes = self.range(addr, out.len());
        copy(bytes, out);
        Ok(())
    }

    #[inline(always)]
    fn append(&mut self, addr: u64, len: usize, out: &mut Vec<u8>) -> Result<(), AllocError> {
        out.extend_from_slice(self.range(addr, len))
    }

    // What stands still is read without.
    #[inline(always)]
    fn claim(&mut self, _addr: u64, _len: usize) -> bool {
        false
    }

    #[inline(always)]
    fn read_claimed(&mut self, addr: u64, out: &mut [u8]) -> Result<(), AllocError> {
        self.try_read(addr, out)
    }

    ghost fewer = { λ x m n le room. room };

    ghost sized = { λ x m e. ap length e };

    ghost own = { λ x y m alone begun e. e ∙ begun };

    ghost one = { λ x m n alone a b. a ∙ sym b };

    ghost none = { λ s. refl };

    ghost both = { stored_in_order };
}

impl WritableMemory for GuestMem {
    #[inline(always)]
    #[tactic(auto, using(crate::proofs::Storing::stored_whole))]
    fn write(&mut self, addr: u64, bytes: &[u8]) {
        self.put(addr, bytes);
    }
}

/// A memory that is lent to be read alone, and stands still meanwhile.
#[derive(Drop)]
pub struct StillMem<'a> {
    memory: &'a GuestMem,
}

impl<'a> StillMem<'a> {
    /// Lends a memory.
    #[inline(always)]
    pub fn of(memory: &'a GuestMem) -> StillMem<'a>
        ensures { result.memory.now ≡ memory.now }
    {
        StillMem { memory }
    }
}

impl<'a> Memory for StillMem<'a> {
    ghost may_be = { λ x m. m ≡ x.memory.now };

    ghost extent = { λ x. length x.memory.now };

    ghost is_open = { λ _. ⊤ };

    ghost begins = { λ x y. y ≡ x };

    ghost has_room = { λ _ _. ⊤ };

    ghost shared = { false };

    ghost Stores = { List ℕ };

    ghost stored = { λ x. x.memory.now };

    ghost storing = { all_stored };

    #[inline(always)]
    fn begin(&mut self) {}

    #[inline(always)]
    fn size(&self) -> u64 {
        self.memory.size()
    }

    #[inline(always)]
    fn read(&mut self, addr: u64, out: &mut [u8]) {
        copy(self.memory.range(addr, out.len()), out);
    }

    #[inline(always)]
    fn try_read(&mut self, addr: u64, out: &mut [u8]) -> Result<(), AllocError> {
        let bytes = self.memory.range(addr, out.len());
        copy(bytes, out);
        Ok(())
    }

    #[inline(always)]
    fn append(&mut self, addr: u64, len: usize, out: &mut Vec<u8>) -> Result<(), AllocError> {
        out.extend_from_slice(self.memory.range(addr, len))
    }

    // What stands still is read without.
    #[inline(always)]
    fn claim(&mut self, _addr: u64, _len: usize) -> bool {
        false
    }

    #[inline(always)]
    fn read_claimed(&mut self, addr: u64, out: &mut [u8]) -> Result<(), AllocError> {
        self.try_read(addr, out)
    }

    ghost fewer = { λ x m n le room. room };

    ghost sized = { λ x m e. ap length e };

    ghost own = { λ x y m alone begun e. e ∙ ap (λ k. k.memory.now) begun };

    ghost one = { λ x m n alone a b. a ∙ sym b };

    ghost none = { λ s. refl };

    ghost both = { stored_in_order };
}
