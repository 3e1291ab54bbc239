//! The replies of the latest steps of a history, where the log keeps replies.

ghost use Rattle.std.specs.Prelude.{◌≡◌, ◌+◌, ◌<◌, ◌≤◌, [], ◌∷◌, ◌++◌, length, OnOk, IsTrue, ◌↔◌, if◌then◌else◌};
ghost use Rattle.std.specs.Option.{option_map};
ghost use Rattle.command_model.specs.PlainReply.{plain_of};
ghost use Rattle.unit_model.specs.Receipts.{latest_kept};
ghost use Rattle.unit_log.specs.Inner.Kept.{latest};
ghost use Rattle.unit_log.specs.Recorded.{spare_of_deque};
ghost use Rattle.unit_log.specs.Inner.Recorded.{kept_there, reply_of_place, AreAlike};

use crate::log::LATEST_KEPT;
use command_model::Reply;
use std::alloc::AllocError;
use std::collections::VecDeque;

/// Returns true if replies are one.
fn is_same(kept: &Reply, given: &Reply) -> bool
    ensures { IsTrue result ↔ (plain_of given.now ≡ plain_of kept.now) }
{
    kept == given
}

/// Returns true if replies agree: where both are there they are one.
fn are_alike(kept: &Option<Reply>, given: &Option<Reply>) -> bool
    ensures { IsTrue result ↔ AreAlike (option_map plain_of kept.now) (option_map plain_of given.now) }
{
    match kept {
        None => true,
        Some(kept) => match given {
            None => true,
            Some(given) => is_same(kept, given),
        },
    }
}

/// Returns true if the kept reply of a step, if there is one, agrees. `steps` is how many steps the history has.
pub(crate) fn agrees_there(
    replies: &VecDeque<Option<Reply>>,
    steps: u64,
    place: u64,
    given: &Option<Reply>,
) -> bool
    requires { length replies.now.items ≤ steps }
    ensures { IsTrue result
        ↔ AreAlike (reply_of_place (kept_there steps place replies.now.items)) (option_map plain_of given.now) }
{
    let first = steps - replies.len() as u64;
    if place < first {
        return true;
    }
    match replies.get((place - first) as usize) {
        None => true,
        Some(kept) => are_alike(kept, given),
    }
}

/// Makes room for more replies, where they are kept.
#[inline(always)]
pub(crate) fn reserve_where(
    keeps: bool,
    replies: &mut VecDeque<Option<Reply>>,
    room: usize,
) -> Result<(), AllocError>
    ensures items { replies.new.items ≡ replies.old.items }
    ensures kept { spare_of_deque replies.old ≤ spare_of_deque replies.new }
    ensures room { OnOk result (IsTrue keeps → room ≤ spare_of_deque replies.new) }
{
    if keeps { replies.reserve(room) } else { Ok(()) }
}

/// Adds a reply, where replies are kept. The oldest goes where they are as many as are kept.
#[inline(always)]
pub(crate) fn push_where(keeps: bool, replies: &mut VecDeque<Option<Reply>>, reply: Option<Reply>)
    requires room { IsTrue keeps → 0 < spare_of_deque replies.old }
    requires few { length replies.old.items ≤ latest_kept }
    ensures items { replies.new.items
        ≡ (if keeps then latest (replies.old.items ++ reply ∷ []) else replies.old.items) }
    ensures room { spare_of_deque replies.old ≤ spare_of_deque replies.new + 1 }
{
    if keeps {
        if replies.len() == LATEST_KEPT {
            let _ = replies.pop_front();
        }
        replies.push_back_reserved(reply);
    }
}
