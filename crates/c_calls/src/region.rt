//! The memory that a host mapped.

ghost use Rattle.std.specs.Prelude.{ℕ, ◌≡◌, ◌+◌, ◌≤◌, ◌<◌, ◌↔◌, IsTrue, IfSome, None};
ghost use Rattle.c_calls.specs.Mapped.{IsIn, HasByte, HasBytes};

/// Guest memory that the host has mapped: the header's `struct vscsi_region`.
#[repr(C)]
#[derive(Clone, Copy)]
pub struct Region {
    pub guest: u64,
    pub size: u64,
    /// An address of the host's own, at which C alone looks.
    pub host: u64,
}

impl Region {
    /// Returns the end of the region, if it has an address.
    fn end_behind(&self, addr: u128) -> Option<u128>
        ensures some { IfSome result (λ end. (addr < end) × (self.now.guest ≤ addr) × (end ≡ self.now.guest + self.now.size)) }
        ensures none { result ≡ None → IsIn self.now addr → ⊥ }
    {
        let guest = self.guest as u128;
        let end = guest + self.size as u128;
        if guest <= addr && addr < end {
            Some(end)
        } else {
            None
        }
    }
}

/// Returns the end of a region that has an address; `None` where none has it.
fn end_of_mapped(regions: &[Region], addr: u128) -> Option<u128>
    ensures some { IfSome result (λ end. (addr < end) × ((p : ℕ) → addr ≤ p → p < end → HasByte regions.now p)) }
    ensures none { result ≡ None → HasByte regions.now addr → ⊥ }
{
    for k in 0..regions.len() {
        if let Some(end) = regions[k].end_behind(addr) {
            return Some(end);
        }
    }
    None
}

/// Returns true if each of so many bytes from an address on is mapped.
pub(crate) fn are_mapped(regions: &[Region], addr: u64, count: u64) -> bool
    ensures { IsTrue result ↔ HasBytes regions.now addr count }
{
    let end = addr as u128 + count as u128;
    let mut at = addr as u128;
    for _turn in 0..count {
        if at >= end {
            return true;
        }
        match end_of_mapped(regions, at) {
            Some(next) => at = next,
            None => return false,
        }
    }
    true
}
