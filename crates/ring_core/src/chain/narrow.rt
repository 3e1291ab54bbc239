//! A chain that is kept for its first writable bytes alone.

ghost use Rattle.std.specs.Prelude.{◌≡◌, ◌≤◌, ℕ, List, length, take, min};
ghost use Rattle.ring_core.specs.Parts.{writable_total};
ghost use Rattle.ring_core.specs.Writes.{scatter_writes};
ghost use Rattle.ring_core.specs.Inner.Narrow.{first_writable, narrowed};

use crate::chain::{Chain, FEW_PARTS};
use crate::descriptor::Part;
use smallvec::SmallVec;

/// Moves the first `most` writable bytes to the front, in parts of at least one byte each, and returns how many parts
/// these are. What stands behind them is left over.
fn move_first(parts: &mut [Part], most: u32) -> usize
    ensures few { result ≤ length parts.old }
    ensures first { take result parts.new ≡ first_writable most parts.old }
{
    let mut kept = 0;
    let mut rest = most;
    for i in 0..parts.len() {
        let part = parts[i];
        if part.writable && part.len != 0 && rest != 0 {
            let len = part.len.min(rest);
            parts[kept] = Part { len, ..part };
            kept += 1;
            rest -= len;
        }
    }
    kept
}

/// Keeps the first `most` writable bytes of a list of parts, and gives back the memory that it needs no more: where the
/// parts that are left stand in the chain itself, all of it.
fn keep_first(parts: &mut SmallVec<Part, FEW_PARTS>, most: u32)
    ensures first { parts.new.items ≡ first_writable most parts.old.items }
    ensures memory { length parts.new.items ≤ FEW_PARTS → parts.new.capacity ≡ FEW_PARTS }
{
    let kept = move_first(parts.as_mut_slice(), most);
    parts.truncate(kept);
    parts.shrink_to_fit();
}

impl Chain {
    /// Returns the chain with its first `most` writable bytes alone. It has at most one part for each of them. Readable
    /// parts and empty ones are left out, and their memory is given back. A device calls it on a chain that it holds for
    /// long. The chain is completed as before, and at most `most` bytes are written into it.
    pub fn narrowed(self, most: u32) -> Chain
        ensures chain { result ≡ narrowed most self }
        ensures few { length result.parts ≤ most }
        ensures room { writable_total result.parts ≡ min most (writable_total self.parts) }
        ensures same { (bytes : List ℕ) → length bytes ≤ most
            → scatter_writes result.parts 0 bytes ≡ scatter_writes self.parts 0 bytes }
    {
        let Chain { mut body } = self;
        keep_first(&mut body.parts, most);
        body.readable_len = 0;
        body.writable_len = body.writable_len.min(most as u64);
        Chain { body }
    }
}
