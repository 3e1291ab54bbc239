//! The receipts and notes that a seat keeps of the requests that it answered.

ghost use Rattle.close_audit.specs.Undirected.{AreUndirected};

use crate::replies::{keep_receipt, make_slots};
use command_model::Reply;
use logical_unit::BareReceipt;
use phases::{Note, ReceiptOrNote};
use std::alloc::Global;

/// The receipts and notes of the requests that a seat answered, in order. Replies are kept of its latest 4,096
/// receipts alone, and of these those alone with at most [`logical_unit::LONGEST_KEPT`] bytes of data: at most 16 MiB
/// for each seat. Each other receipt takes 24 bytes. No note is Direct: such a note stays with its queue.
#[derive(Drop)]
pub struct Kept {
    pub(crate) receipts: Vec<BareReceipt>,
    // The reply of a receipt stands at its place modulo the number of these, which are as many as are kept.
    pub(crate) replies: Vec<Option<Reply>>,
    pub notes: Vec<Note>,
    pub ghost undirected: { AreUndirected notes.items },
}

impl Kept {
    ghost use Rattle.std.specs.Prelude.{◌≡◌, ◌<◌, []};
    ghost use Rattle.std.specs.Bool.{OnTrue};
    ghost use Rattle.close_audit.specs.Keeping.{receipts_in, KeepsGiven};
    ghost use Rattle.close_audit.specs.Undirected.{IsUndirected};
    ghost use Rattle.close_audit.specs.Rooms.{HasRoomForOne};

    /// Makes one that keeps nothing yet. Called once for each seat.
    pub fn new(alloc: Global) -> Kept
        ensures { (receipts_in result ≡ []) × (result.notes.items ≡ []) }
    {
        Kept {
            receipts: Vec::new(alloc),
            replies: Vec::new(alloc),
            notes: Vec::new(alloc),
        }
    }

    /// Returns true if there is room for what so many more requests leave: not where a growth was refused. All that is
    /// kept stays. A seat calls it before it serves what it has.
    pub fn make_room(&mut self, requests: usize) -> bool
        requires some { 0 < requests }
        ensures room { OnTrue result (HasRoomForOne self.new) }
        ensures kept { (receipts_in self.new ≡ receipts_in self.old) × (self.new.notes.items ≡ self.old.notes.items) }
    {
        let Ok(()) = make_slots(&mut self.replies) else {
            return false;
        };
        let Ok(()) = self.receipts.reserve(requests) else {
            return false;
        };
        let Ok(()) = self.notes.reserve(requests) else {
            return false;
        };
        true
    }

    /// Keeps what a request left, for which there is room, and which is no note Direct. A seat calls it once it answered
    /// the request.
    pub fn keep(&mut self, given: ReceiptOrNote)
        requires room { HasRoomForOne self.old }
        requires undirected { IsUndirected given }
        ensures { KeepsGiven self.old given self.new }
    {
        match given {
            ReceiptOrNote::Receipt(receipt) => {
                keep_receipt(&mut self.receipts, &mut self.replies, receipt);
            }
            ReceiptOrNote::Note(note) => self.notes.push_reserved(note),
        }
    }
}
