//! The replies that a seat keeps of its latest receipts.

ghost use Rattle.std.specs.Prelude.{ℕ, ◌≡◌, ◌<◌, ◌≤◌, ◌%◌, slice_get, slice_set, vec_len, None, OnOk};
ghost use Rattle.std.specs.Vec.{vec_capacity};
ghost use Rattle.std.specs.Option.{option_map};
ghost use Rattle.command_model.specs.PlainReply.{plain_of};
ghost use Rattle.close_audit.specs.Keeping.{has_long, shortened, without_reply, reply_in, reply_of, receipts_of, KeepsReceipt};
ghost use Rattle.close_audit.specs.Rooms.{replies_kept};

use command_model::Reply;
use logical_unit::{BareReceipt, LONGEST_KEPT, Receipt};
use std::alloc::AllocError;

/// Gives the number of its latest receipts of which a seat has the replies.
const REPLIES_KEPT: usize = 4096;

/// Returns true if a receipt has a reply with longer data than what a unit keeps.
fn is_long(receipt: &Receipt) -> bool
    ensures { result ≡ has_long receipt.now.reply }
{
    match receipt.reply() {
        Some(reply) => reply.payload.len() > LONGEST_KEPT,
        None => false,
    }
}

/// Lets the reply of a receipt go where a unit doesn't keep it.
fn shorten(receipt: &mut Receipt)
    ensures { receipt.new ≡ shortened receipt.old }
{
    if is_long(receipt) {
        let _ = receipt.take_reply();
    }
}

/// Keeps a receipt, for which there is room. Its reply takes the place of the one that is kept no more.
pub(crate) fn keep_receipt(
    receipts: &mut Vec<BareReceipt>,
    replies: &mut Vec<Option<Reply>>,
    mut receipt: Receipt,
)
    requires room { vec_len receipts.old < vec_capacity receipts.old }
    requires slots { replies_kept ≤ vec_len replies.old }
    ensures { KeepsReceipt (receipts_of receipts.old.items replies.old.items) receipt
        (receipts_of receipts.new.items replies.new.items) }
{
    shorten(&mut receipt);
    let slot = receipts.len() % REPLIES_KEPT;
    let (bare, reply) = BareReceipt::of(receipt);
    receipts.push_reserved(bare);
    replies[slot] = reply;
}

/// Makes the slots for the latest replies. Each is empty as long as no reply stands there.
pub(crate) fn make_slots(replies: &mut Vec<Option<Reply>>) -> Result<(), AllocError>
    ensures slots { OnOk result (replies_kept ≤ vec_len replies.new) }
    ensures same { (i : ℕ) → reply_in (slice_get replies.new.items i) ≡ reply_in (slice_get replies.old.items i) }
{
    for _number in replies.len()..REPLIES_KEPT {
        let Ok(()) = replies.push(None) else {
            return Err(AllocError);
        };
    }
    Ok(())
}

/// Takes the reply out of the receipt at a place, of so many, where it is kept.
pub(crate) fn reply_out(
    replies: &mut Vec<Option<Reply>>,
    count: usize,
    place: usize,
) -> Option<Reply>
    requires { place < count }
    ensures reply { option_map plain_of result ≡ reply_of count place replies.old.items }
    ensures later { (k : ℕ) → place < k → k < count
        → reply_of count k replies.new.items ≡ reply_of count k replies.old.items }
{
    if count.saturating_sub(place) > REPLIES_KEPT {
        return None;
    }
    match replies.get_mut(place % REPLIES_KEPT) {
        Some(reply) => reply.take(),
        None => None,
    }
}
