//! Small cases, which show what the definitions of a queue say.

ghost use Rattle.std.specs.Prelude.{◌≡◌, ◌+◌, ◌%◌, ◌^◌, ◌<◌, ◌≤◌, ◌==◌, ◌++◌, ℕ, List, length, Some, true, false};
ghost use Rattle.byteorder.specs.Endian.{little_number, little_bytes};
ghost use Rattle.guest_mem.specs.Memory.{bytes_at};
ghost use Rattle.ring_core.specs.State.{RingState, first_index};
ghost use Rattle.ring_core.specs.Split.{split_descriptor, available_index, ahead, entry_wrong, used_event, used_index_after, split_wants_notice};
ghost use Rattle.ring_core.specs.Packed.{packed_descriptor, wrap_counter, passed_at, index_at, available_place, used_place, names_one};
ghost use Rattle.ring_core.specs.Cases.{OneAlone, ThreeLinked, NamesItself};
ghost use Rattle.ring_core.specs.declared.fault.RingFault.TheVariants.{IndexJump};

/// A descriptor is what a driver writes. In a split queue that is le64 addr, le32 len, le16 flags and le16 next (VIRTIO
/// 1.2, 2.7.5). In a packed one it is le64 addr, le32 len, le16 id and le16 flags (2.8.13).
pub fn descriptors_are_read_as_written()
    ensures split { (addr len flags next : ℕ) → addr < 2 ^ 64 → len < 2 ^ 32 → flags < 2 ^ 16 → next < 2 ^ 16
        → split_descriptor (little_bytes 8 addr ++ little_bytes 4 len ++ little_bytes 2 flags ++ little_bytes 2 next)
        ≡ record { addr = addr; len = len; flags = flags; next_or_id = next } }
    ensures packed { (addr len flags id : ℕ) → addr < 2 ^ 64 → len < 2 ^ 32 → flags < 2 ^ 16 → id < 2 ^ 16
        → packed_descriptor (little_bytes 8 addr ++ little_bytes 4 len ++ little_bytes 2 id ++ little_bytes 2 flags)
        ≡ record { addr = addr; len = len; flags = flags; next_or_id = id } }
{}

/// A descriptor without flags, with its buffer in memory, is a chain of one part.
pub fn one_descriptor_is_a_chain()
    ensures { OneAlone }
{}

/// Three descriptors that are linked, two readable and one writable, are a chain of these parts.
pub fn three_linked_descriptors_are_a_chain()
    ensures { ThreeLinked }
{}

/// An empty descriptor that names itself as the next one is a chain that is too long.
pub fn a_loop_is_too_long()
    ensures { NamesItself }
{}

/// The available index counts modulo 65,536 from the first one, however many chains were accepted: where it is as far
/// as they are no entry is ahead of them, one further one entry is, and k further k are.
pub fn the_index_counts_round()
    ensures none { (s : RingState) (m : List ℕ)
        → little_number 2 (bytes_at m (s.layout.driver + 2) 2) ≡ (s.layout.first_available.index + length s.log.accepted) % 65536
        → ahead s m ≡ 0 }
    ensures one { (s : RingState) (m : List ℕ)
        → little_number 2 (bytes_at m (s.layout.driver + 2) 2) ≡ (s.layout.first_available.index + length s.log.accepted + 1) % 65536
        → ahead s m ≡ 1 }
    ensures each { (s : RingState) (m : List ℕ) (k : ℕ) → k < 65536
        → little_number 2 (bytes_at m (s.layout.driver + 2) 2) ≡ (s.layout.first_available.index + length s.log.accepted + k) % 65536
        → ahead s m ≡ k }
{}

/// As many entries ahead as the queue has descriptors are no jump of the index, and one more is.
pub fn as_many_as_the_size_are_no_jump()
    ensures size { (s : RingState) (m : List ℕ) → ahead s m ≡ s.layout.size → entry_wrong s m ≡ Some IndexJump → ⊥ }
    ensures one_more { (s : RingState) (m : List ℕ) → ahead s m ≡ s.layout.size + 1 → entry_wrong s m ≡ Some IndexJump }
{}

/// One alone of a split queue's first 65,536 completions wants a notice, if event indices were agreed: that whose
/// number k, from 0, used_event names behind the first used index.
pub fn one_notice_of_a_split_queue()
    ensures { (s : RingState) (m : List ℕ) (k : ℕ) → s.features.event_index ≡ true → length s.log.used ≤ 65536
        → k < 65536 → used_event s m ≡ (s.layout.first_used.index + k) % 65536
        → split_wants_notice s m ≡ (length s.log.used == k + 1) }
{}

/// A ring that no device served before begins at 0 on both sides: its indices and its slots are counted by the chains
/// of this device alone.
pub fn fresh_rings_begin_at_0()
    ensures available_index { (s : RingState) → s.layout.first_available ≡ first_index
        → available_index s ≡ length s.log.accepted % 65536 }
    ensures used_index { (s : RingState) (n : ℕ) → s.layout.first_used ≡ first_index → used_index_after s n ≡ n % 65536 }
    ensures available_slots { (s : RingState) → s.layout.first_available ≡ first_index
        → available_place s ≡ s.accepted_slots }
    ensures used_slots { (s : RingState) → s.layout.first_used ≡ first_index → used_place s ≡ s.used_slots }
{}

/// An index with its wrap counter says all that a packed queue needs to go on from there: the slot and the wrap counter
/// that are reached once so many slots were passed.
pub fn packed_rings_go_on_at_an_index()
    ensures slot { (size t : ℕ) → 0 < size → passed_at size (index_at size t) % size ≡ t % size }
    ensures wrap { (size t : ℕ) → 0 < size → wrap_counter size (passed_at size (index_at size t)) ≡ wrap_counter size t }
{}

/// In a packed queue of 7, of four chains of 3 slots each the second alone has the slot that offset
/// 4 and wrap 1 name.
pub fn one_of_four_chains_is_named()
    ensures first { names_one 7 32772 0 3 ≡ false }
    ensures second { names_one 7 32772 3 3 ≡ true }
    ensures third { names_one 7 32772 6 3 ≡ false }
    ensures fourth { names_one 7 32772 9 3 ≡ false }
{}
