//! One descriptor, in whatever table or ring it stands.

ghost use Rattle.std.specs.Prelude.{◌≡◌, ⊤, [], ◌∷◌, codes, MatchResult, None, Some};
ghost use Rattle.ring_core.specs.Walk.{goes_on, is_writable, is_indirect, part_of, table_wrong};

use crate::fault::RingFault;
use crate::layout::Features;
use bitflags::{Flag, Flags, bitflag_items};

/// The flags of a descriptor (VIRTIO 1.2, 2.7.5 and 2.8.13). Other bits are ignored.
#[derive(Clone, Copy)]
pub struct DescriptorFlags(u16);

bitflag_items! {
    impl DescriptorFlags: u16 {
        const NEXT = 1;
        const WRITE = 2;
        const INDIRECT = 4;
    }
}

impl Flags for DescriptorFlags {
    type Bits = u16;

    ghost exact = { ⊤ };

    ghost table = { (codes "NEXT", 1) ∷ (codes "WRITE", 2) ∷ (codes "INDIRECT", 4) ∷ [] };

    ghost set_of = { λ f. f.0 };

    fn flags<'a>() -> &'a [Flag<DescriptorFlags>] {
        DescriptorFlags::FLAGS
    }

    fn bits(&self) -> u16 {
        self.0
    }

    fn from_bits_retain(bits: u16) -> DescriptorFlags {
        DescriptorFlags(bits)
    }
}

/// One buffer of a chain.
#[derive(Clone, Copy, Debug, Default)]
pub struct Part {
    /// The address in guest memory at which it begins.
    pub addr: u64,
    /// Its bytes.
    pub len: u32,
    /// True if the device writes it; else it reads it.
    pub writable: bool,
}

/// A descriptor as it stands in memory.
#[derive(Clone, Copy)]
pub struct Descriptor {
    /// The address at which its buffer begins.
    pub addr: u64,
    /// The bytes of its buffer.
    pub len: u32,
    /// Its flags, all sixteen bits.
    pub flags: u16,
    /// The number of the next descriptor in a split queue, the buffer's id in a packed one.
    pub next_or_id: u16,
}

impl Descriptor {
    /// Returns true if another descriptor follows: NEXT.
    pub fn goes_on(&self) -> bool
        ensures { result ≡ goes_on self.now }
    {
        DescriptorFlags(self.flags).contains(DescriptorFlags::NEXT)
    }

    /// Returns true if the device writes its buffer: WRITE.
    pub fn is_writable(&self) -> bool
        ensures { result ≡ is_writable self.now }
    {
        DescriptorFlags(self.flags).contains(DescriptorFlags::WRITE)
    }

    /// Returns true if its buffer is a table of descriptors: INDIRECT.
    pub fn is_indirect(&self) -> bool
        ensures { result ≡ is_indirect self.now }
    {
        DescriptorFlags(self.flags).contains(DescriptorFlags::INDIRECT)
    }

    /// Returns what is wrong with it as one that names a table, in a memory of this size, where these features were
    /// agreed.
    pub fn check_table(&self, memory: u64, features: &Features) -> Result<(), RingFault>
        ensures { MatchResult result
            (λ _. table_wrong features.now memory self.now ≡ None)
            (λ fault. table_wrong features.now memory self.now ≡ Some fault) }
    {
        let len = self.len as u64;
        if features.indirect_descriptors
            && !self.goes_on()
            && len != 0
            && len % 16 == 0
            && self.addr <= memory
            && len <= memory - self.addr
        {
            Ok(())
        } else {
            Err(RingFault::BadIndirect)
        }
    }

    /// Returns its buffer.
    pub fn part(&self) -> Part
        ensures { result ≡ part_of self.now }
    {
        Part {
            addr: self.addr,
            len: self.len,
            writable: self.is_writable(),
        }
    }
}
