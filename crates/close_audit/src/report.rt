//! The report of a closed host.

ghost use Rattle.std.specs.Prelude.{◌≡◌, is_some};
ghost use Rattle.std.specs.List.{list_any};

use foundation::Record;
use guest_mem::GuestMem;
use logical_unit::{Receipt, UnitState};
use phases::{Note, Slot};
use ring_core::QueueLog;
use virtqueue::Queue;

/// Returns true if a fault of the guest broke a queue.
fn is_any_broken(queues: &[Queue]) -> bool
    ensures { result ≡ list_any (λ q. is_some q.ring.broken) queues.now }
{
    queues.iter().any(|queue| queue.is_broken())
}

/// A host as it was when it was closed, and what its requests were answered with.
#[derive(Drop)]
pub struct Report {
    /// Its units, by rising target and LUN.
    pub units: Vec<UnitState>,
    /// Its queues, each at the index of its number.
    pub queues: Vec<Queue>,
    /// The memory of its guest.
    pub memory: GuestMem,
    /// The receipts of the requests whose commands ran. Replies may have been let go. A unit compares none but those of
    /// its latest [`logical_unit::LATEST_KEPT`] steps that have at most [`logical_unit::LONGEST_KEPT`] bytes of data.
    /// Where a host has threads, the latest 4,096 receipts of each seat have a reply, unless its data are longer.
    pub receipts: Vec<Receipt>,
    /// The notes of all other requests. Where a host has threads, those that are Direct come first.
    pub notes: Vec<Note>,
    /// The slots that the fetches of requests left, in order, for each queue. It takes no bytes for a
    /// fetch: proofs alone read it.
    pub fetched: Vec<Record<Slot>>,
}

impl Report {
    ghost use Rattle.std.specs.Prelude.{◌≡◌, slice_get};
    ghost use Rattle.std.specs.Option.{option_copied, option_map};
    ghost use Rattle.close_audit.specs.Views.{status_of};

    /// Returns the log of a queue; `None` where there is no such queue.
    pub fn log(&self, number: u16) -> Option<&QueueLog>
        ensures { option_copied result ≡ option_map (λ q. q.ring.log) (slice_get self.now.queues.items number) }
    {
        match self.queues.get(number as usize) {
            Some(queue) => Some(queue.log()),
            None => None,
        }
    }

    /// Returns how many notices a queue's driver wanted; `None` where there is no such queue.
    pub fn notices(&self, number: u16) -> Option<u64>
        ensures { result ≡ option_map (λ q. q.notices) (slice_get self.now.queues.items number) }
    {
        match self.queues.get(number as usize) {
            Some(queue) => Some(queue.notices()),
            None => None,
        }
    }

    /// Returns the device's status: 64, DEVICE_NEEDS_RESET (VIRTIO 1.2, 2.1), where a queue is broken, else 0.
    pub fn status(&self) -> u8
        ensures { result ≡ status_of self.now.queues.items }
    {
        if is_any_broken(self.queues.as_slice()) {
            64
        } else {
            0
        }
    }
}
