//! Laws that follow from the definitions alone.

ghost use Rattle.std.specs.Prelude.{◌≡◌, ◌<◌, ◌≤◌, false, ℕ, List, length};
ghost use Rattle.ring_core.specs.State.{RingState};
ghost use Rattle.ring_core.specs.Sound.{OpensSound, AcceptsSound, UsesSound, BreaksSound};
ghost use Rattle.ring_core.specs.Offer.{Offer, Offers, Found};
ghost use Rattle.ring_core.specs.RightChain.{IsRightChain};
ghost use Rattle.ring_core.specs.declared.descriptor.Part.{Part};
ghost use Rattle.ring_core.specs.declared.layout.Form.TheVariants.{Split};

mod cases;
mod going_on;
mod notifying;
mod properties;
mod scattering;

pub use cases::{
    a_loop_is_too_long, as_many_as_the_size_are_no_jump, descriptors_are_read_as_written,
    fresh_rings_begin_at_0, one_descriptor_is_a_chain, one_notice_of_a_split_queue,
    one_of_four_chains_is_named, packed_rings_go_on_at_an_index, the_index_counts_round,
    three_linked_descriptors_are_a_chain,
};
pub use going_on::a_queue_goes_on_at_its_position;
pub use notifying::{packed_drivers_do_as_asked, split_drivers_do_as_asked};
pub use properties::{packed_chains_by_properties, split_chains_by_properties};
pub use scattering::{
    scatter_in_two, scattering_keeps_the_size, scattering_nothing, writes_in_order,
};

/// With one memory a queue offers no two things: nothing, a chain or a fault.
pub fn one_offer()
    ensures { (s : RingState) (m : List ℕ) (a b : Offer) → Offers s m a → Offers s m b → a ≡ b }
{}

/// With any memory a queue offers something: nothing, a chain or a fault.
pub fn some_offer()
    ensures { (s : RingState) (m : List ℕ) → (o : Offer) × Offers s m o }
{}

/// A chain that a queue offers has at least one part, all of them in memory, and no readable one behind a writable one
/// (VIRTIO 1.2, 2.7.4, 2.7.5 and 2.8.5). It takes at most as many slots as the queue has, and has at most as many parts
/// where no tables of descriptors were agreed. In a split queue its head is one of the descriptor table.
pub fn chains_are_right()
    ensures parts { (s : RingState) (m : List ℕ) (id slots : ℕ) (parts : List Part)
        → Offers s m (Found id slots parts)
        → IsRightChain (length m) parts }
    ensures slots { (s : RingState) (m : List ℕ) (id slots : ℕ) (parts : List Part)
        → Offers s m (Found id slots parts) → 1 ≤ s.layout.size
        → slots ≤ s.layout.size }
    ensures few { (s : RingState) (m : List ℕ) (id slots : ℕ) (parts : List Part)
        → Offers s m (Found id slots parts) → 1 ≤ s.layout.size → s.features.indirect_descriptors ≡ false
        → length parts ≤ s.layout.size }
    ensures head { (s : RingState) (m : List ℕ) (id slots : ℕ) (parts : List Part)
        → Offers s m (Found id slots parts) → s.form ≡ Split
        → id < s.layout.size }
{}

/// A queue is sound when it is made, and each of its acts keeps it so. It accepts a chain under a head or id that is
/// free, uses a chain that it owns, and breaks for a fault of the guest.
pub fn queues_stay_sound()
    ensures opening { OpensSound }
    ensures accepting { AcceptsSound }
    ensures using { UsesSound }
    ensures breaking { BreaksSound }
{}
