//! The blocks that the descriptors of an UNMAP's parameter list name (SBC-3 §5.28.2).

ghost use Rattle.std.specs.Prelude.{◌≡◌, ◌+◌, ◌*◌, ◌≤◌, length, drop};
ghost use Rattle.command_model.specs.UnmapList.{descriptor, descriptor_count};

/// The bytes of an UNMAP's parameter list before its descriptors (SBC-3 §5.28.2).
pub const UNMAP_HEADER_BYTES: usize = 8;

/// The bytes of a descriptor.
const DESCRIPTOR_BYTES: usize = 16;

/// The blocks that a descriptor of an UNMAP names.
#[derive(Clone, Copy)]
pub struct Extent {
    /// The first block.
    pub lba: u64,
    /// The number of blocks.
    pub count: u32,
}

/// Returns how many descriptors of an UNMAP's parameter list are taken: the whole ones in the length that the header
/// gives, as far as the list has them (SBC-3 §5.28.2). UNMAP calls it where it runs, and a unit where it notes which
/// blocks that may change.
#[tactic(auto, unfolding(command_model::specs::UnmapList::descriptor_count))]
pub fn taken_descriptors(list: &[u8]) -> usize
    requires { 8 ≤ length list.now }
    ensures count { result ≡ descriptor_count list.now }
    ensures fit { 8 + 16 * result ≤ length list.now }
{
    let mut given = [0; 2];
    given.copy_from_slice(&list[2..4]);
    let given = usize::from(u16::from_be_bytes(given));
    given.min(list.len() - UNMAP_HEADER_BYTES) / DESCRIPTOR_BYTES
}

/// Returns the blocks that a descriptor names (SBC-3 §5.28.2), by its index among those behind the header. Called for
/// each that [`taken_descriptors`] counts.
pub fn extent_at(taken: &[u8], i: usize) -> Extent
    requires { 16 * i + 16 ≤ length taken.now }
    ensures lba { result.lba ≡ (descriptor (drop (16 * i) taken.now)).0 }
    ensures count { result.count ≡ (descriptor (drop (16 * i) taken.now)).1 }
{
    let descriptor = &taken[DESCRIPTOR_BYTES * i..];
    let mut lba = [0; 8];
    lba.copy_from_slice(&descriptor[..8]);
    let mut count = [0; 4];
    count.copy_from_slice(&descriptor[8..12]);
    Extent {
        lba: u64::from_be_bytes(lba),
        count: u32::from_be_bytes(count),
    }
}
