//! The places where a split queue may lie.

ghost use Rattle.std.specs.Prelude.{◌≡◌, ◌+◌, MatchResult, nat_le, None, Some};
ghost use Rattle.split_ring.specs.Placement.{placement_fault};

use ring_core::{Layout, LayoutFault};

/// The most descriptors that a queue has.
const MOST_SIZE: u16 = 32768;

/// Returns true if this many bytes at an address lie in a memory of this size.
fn lies_in(memory: u64, addr: u64, len: u64) -> bool
    ensures { result ≡ nat_le (addr + len) memory }
{
    addr <= memory && len <= memory - addr
}

/// Returns the first thing wrong with a layout, in a memory of so many bytes: what `new` refuses it for. Asked before
/// there is a memory. It is never `NoMemory`.
pub fn check_layout(layout: &Layout, memory: u64) -> Result<(), LayoutFault>
    ensures { MatchResult result
        (λ _. placement_fault memory layout.now ≡ None)
        (λ fault. placement_fault memory layout.now ≡ Some fault) }
{
    let size = layout.size as u64;
    if layout.size == 0 || layout.size > MOST_SIZE || !layout.size.is_power_of_two() {
        Err(LayoutFault::BadSize)
    } else if layout.desc % 16 != 0 || layout.driver % 2 != 0 || layout.device % 4 != 0 {
        Err(LayoutFault::BadAlignment)
    } else if !lies_in(memory, layout.desc, 16 * size)
        || !lies_in(memory, layout.driver, 6 + 2 * size)
        || !lies_in(memory, layout.device, 6 + 8 * size)
    {
        Err(LayoutFault::Outside)
    } else {
        Ok(())
    }
}
