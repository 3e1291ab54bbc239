//! Chains of buffers that a guest hands to a device over a virtqueue, and what every virtqueue
//! promises in whatever form it lies in memory (VIRTIO 1.2, 2.6 to 2.8).
//!
//! A device works with the trait [`Ring`], with [`Chain`], [`Fetched`], [`Answered`] and with
//! [`scatter`]. [`RingBase`], [`Before`], [`gather`], and what else says so, are for the rings
//! themselves.
//!
//! # Proved
//!
//! A queue of either form is one plain record with its log, and offers exactly one thing with a given memory
//! (`one_offer`, `some_offer`). It begins at the indices of its layout, so a device goes on in a ring that another
//! one served. `scatter` writes over a chain's writable parts in order, and nothing else; a [`Cursor`] does so in many
//! goes, each behind the one before it. A narrowed chain has the first writable bytes, where they were.
#![tactic(auto)]

mod answered;
mod asking;
mod base;
mod before;
mod by_id;
mod bytes;
mod chain;
mod cursor;
mod descriptor;
mod fault;
mod laws;
mod layout;
mod log;
mod outstanding;
mod ring;
mod run;

pub use answered::{Answered, Completion};
pub use asking::{Asking, Notify};
pub use base::RingBase;
pub use before::Before;
pub use bytes::{FIRST_BYTES, gather, scatter};
pub use chain::{Chain, Draft, Fetched};
pub use cursor::Cursor;
pub use descriptor::{Descriptor, DescriptorFlags, Part};
pub use fault::RingFault;
pub use laws::{
    a_loop_is_too_long, a_queue_goes_on_at_its_position, as_many_as_the_size_are_no_jump,
    chains_are_right, descriptors_are_read_as_written, fresh_rings_begin_at_0,
    one_descriptor_is_a_chain, one_notice_of_a_split_queue, one_of_four_chains_is_named, one_offer,
    packed_chains_by_properties, packed_drivers_do_as_asked, packed_rings_go_on_at_an_index,
    queues_stay_sound, scatter_in_two, scattering_keeps_the_size, scattering_nothing, some_offer,
    split_chains_by_properties, split_drivers_do_as_asked, the_index_counts_round,
    three_linked_descriptors_are_a_chain, writes_in_order,
};
pub use layout::{FIRST_INDEX, Features, Form, Layout, LayoutFault, Position, RingIndex};
pub use log::{QueueLog, Ticket};
pub use outstanding::OutstandingChain;
pub use ring::Ring;
pub use run::Run;
