//! The places where a packed queue may lie.

ghost use Rattle.std.specs.Prelude.{◌≡◌, ◌+◌, MatchResult, nat_le, None, Some};
ghost use Rattle.packed_ring.specs.Placement.{placement_fault};

use ring_core::{Layout, LayoutFault};

/// The most descriptors that a queue has.
const MOST_SIZE: u16 = 32768;

/// Returns true if this many bytes at an address lie in a memory of this size.
fn lies_in(memory: u64, addr: u64, len: u64) -> bool
    ensures { result ≡ nat_le (addr + len) memory }
{
    addr <= memory && len <= memory - addr
}

/// Returns the first thing wrong with a layout, in a memory of so many bytes: what `new` refuses it for. Asked before
/// there is a memory. It is never `NoMemory`.
pub fn check_layout(layout: &Layout, memory: u64) -> Result<(), LayoutFault>
    ensures { MatchResult result
        (λ _. placement_fault memory layout.now ≡ None)
        (λ fault. placement_fault memory layout.now ≡ Some fault) }
{
    if layout.size == 0 || layout.size > MOST_SIZE {
        Err(LayoutFault::BadSize)
    } else if layout.desc % 16 != 0 || layout.driver % 4 != 0 || layout.device % 4 != 0 {
        Err(LayoutFault::BadAlignment)
    } else if !lies_in(memory, layout.desc, 16 * layout.size as u64)
        || !lies_in(memory, layout.driver, 4)
        || !lies_in(memory, layout.device, 4)
    {
        Err(LayoutFault::Outside)
    } else if layout.first_available.index >= layout.size
        || layout.first_used.index >= layout.size
    {
        Err(LayoutFault::BadStart)
    } else {
        Ok(())
    }
}
