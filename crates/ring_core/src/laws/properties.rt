//! Laws of what a chain is, with no order of tests.

ghost use Rattle.std.specs.Prelude.{◌<◌, ◌≤◌, ℕ, List};
ghost use Rattle.ring_core.specs.Split.{SplitChain};
ghost use Rattle.ring_core.specs.Packed.{PackedChain};
ghost use Rattle.ring_core.specs.ChainProperties.{SplitChainProperties, PackedChainProperties};
ghost use Rattle.ring_core.specs.declared.descriptor.Part.{Part};
ghost use Rattle.ring_core.specs.declared.layout.Layout.{Layout};
ghost use Rattle.ring_core.specs.declared.layout.Features.{Features};

/// The chains of a split queue are those with the properties that VIRTIO gives them: no further
/// test refuses one.
pub fn split_chains_by_properties()
    ensures only { (features : Features) (m : List ℕ) (table size head : ℕ) (parts : List Part) → head < size
        → SplitChain features m table size head parts → SplitChainProperties features m table size head parts }
    ensures all { (features : Features) (m : List ℕ) (table size head : ℕ) (parts : List Part)
        → SplitChainProperties features m table size head parts → SplitChain features m table size head parts }
{}

/// The chains of a packed queue are those with the properties that VIRTIO gives them: no further
/// test refuses one.
pub fn packed_chains_by_properties()
    ensures only { (features : Features) (m : List ℕ) (l : Layout) (t id slots : ℕ) (parts : List Part) → 1 ≤ l.size
        → PackedChain features m l t id slots parts → PackedChainProperties features m l t id slots parts }
    ensures all { (features : Features) (m : List ℕ) (l : Layout) (t id slots : ℕ) (parts : List Part)
        → PackedChainProperties features m l t id slots parts → PackedChain features m l t id slots parts }
{}
