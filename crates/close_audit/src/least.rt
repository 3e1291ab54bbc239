//! The first ticket, by queue and number, that is outstanding.

ghost use Rattle.std.specs.Prelude.{◌≡◌, ◌≤◌, ◌==◌, ◌&&◌, ◌||◌, nat_lt, not, is_none, length};
ghost use Rattle.std.specs.List.{list_any};
ghost use Rattle.ring_core.specs.Sound.{IsSound};
ghost use Rattle.close_audit.specs.Words.{is_before as comes_before};
ghost use Rattle.close_audit.specs.Closed.{IsFirst};
ghost use Rattle.close_audit.specs.Inner.Tallies.{lesser_of, tally_at};
ghost use Rattle.close_audit.specs.Inner.Sources.{unused_in, unsettled_in, amiss_in, amiss_of};

use crate::tables::Tables;
use ring_core::Ticket;
use virtqueue::Queue;

/// Returns true if a ticket comes before another: by queue, then by number.
fn is_before(one: Ticket, other: Ticket) -> bool
    ensures { result ≡ comes_before one other }
{
    one.queue < other.queue || (one.queue == other.queue && one.number < other.number)
}

/// Returns the lesser of two tickets, where there are such.
pub(crate) fn lesser(one: Option<Ticket>, other: Option<Ticket>) -> Option<Ticket>
    ensures { result ≡ lesser_of one other }
{
    match one {
        None => other,
        Some(ticket) => match other {
            None => one,
            Some(another) => {
                if is_before(another, ticket) {
                    other
                } else {
                    one
                }
            }
        },
    }
}

/// Returns the first chain that a queue accepted and didn't use, as tickets name it by its index. One with another
/// number used no ticket of that index.
fn first_unused(queue_index: u16, queue: &Queue) -> Option<Ticket>
    ensures { IsFirst (unused_in queue_index queue.now) result }
{
    let accepted = queue.log().accepted();
    if queue.number() != queue_index {
        return first_accepted(queue_index, accepted);
    }
    match queue.least_outstanding() {
        None => None,
        Some(number) => Some(Ticket {
            queue: queue_index,
            number,
        }),
    }
}

/// Returns the first of so many chains.
fn first_accepted(queue_index: u16, count: u64) -> Option<Ticket>
    ensures { IsFirst (λ t. (t.queue == queue_index) && nat_lt t.number count) result }
{
    if count == 0 {
        None
    } else {
        Some(Ticket {
            queue: queue_index,
            number: 0,
        })
    }
}

/// Returns the first of so many requests of a queue that isn't settled. Some unit's steps may be folded.
fn first_unsettled(queue_index: u16, count: u64, folded: bool, tables: &Tables) -> Option<Ticket>
    ensures { IsFirst (unsettled_in queue_index count folded tables.now.tables.items) result }
{
    for number in 0..count {
        let ticket = Ticket {
            queue: queue_index,
            number,
        };
        if tables.ends_amiss(ticket, folded) {
            return Some(ticket);
        }
    }
    None
}

/// Returns the first ticket of a queue that is outstanding. The event queue's chains aren't asked for (VIRTIO 1.2,
/// 5.6.2).
fn first_in(queue_index: u16, queue: &Queue, folded: bool, tables: &Tables) -> Option<Ticket>
    ensures { IsFirst (amiss_in queue_index queue.now folded tables.now.tables.items) result }
{
    let unused = if queue_index == 1 {
        None
    } else {
        first_unused(queue_index, queue)
    };
    lesser(
        unused,
        first_unsettled(queue_index, queue.log().accepted(), folded, tables),
    )
}

/// Returns the first ticket of these queues that is outstanding.
pub(crate) fn first_of(queues: &[Queue], folded: bool, tables: &Tables) -> Option<Ticket>
    requires { length queues.now ≤ 65536 }
    ensures { IsFirst (amiss_of queues.now folded tables.now.tables.items) result }
{
    let mut first = None;
    for (queue_index, queue) in queues.iter().enumerate() {
        first = lesser(first, first_in(queue_index as u16, queue, folded, tables));
    }
    first
}
