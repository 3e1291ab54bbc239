//! Bytes over the writable parts of a chain.

ghost use Rattle.std.specs.Prelude.{◌≡◌, ◌+◌, ◌++◌, [], ℕ, List, length};
ghost use Rattle.ring_core.specs.Parts.{PartsFit};
ghost use Rattle.ring_core.specs.Writes.{Write, all_written, scatter_writes};
ghost use Rattle.ring_core.specs.declared.descriptor.Part.{Part};

/// The second of two lists of writes, one behind the other, is made where the first left memory.
pub fn writes_in_order()
    ensures { (m : List ℕ) (first then : List Write)
        → all_written m (first ++ then) ≡ all_written (all_written m first) then }
{}

/// Bytes that are written over a chain's writable parts in two goes leave memory as those written
/// in one, also where its parts overlap.
pub fn scatter_in_two()
    ensures { (m : List ℕ) (parts : List Part) (at : ℕ) (a b : List ℕ) → PartsFit (length m) parts
        → all_written (all_written m (scatter_writes parts at a)) (scatter_writes parts (at + length a) b)
        ≡ all_written m (scatter_writes parts at (a ++ b)) }
{}

/// No bytes over a chain's writable parts are no write.
pub fn scattering_nothing()
    ensures { (parts : List Part) (at : ℕ) → scatter_writes parts at [] ≡ [] }
{}

/// Bytes over parts that fit in memory leave its size.
pub fn scattering_keeps_the_size()
    ensures { (m : List ℕ) (parts : List Part) (at : ℕ) (bs : List ℕ) → PartsFit (length m) parts
        → length (all_written m (scatter_writes parts at bs)) ≡ length m }
{}
