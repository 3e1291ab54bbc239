//! Commands that need what their unit's host can't read, or flush what it can't write.

ghost use Rattle.std.specs.Prelude.{◌≡◌, ◌≤◌, None, IfSome, IfNone, IsTrue, length, true, false};
ghost use Rattle.std.specs.Option.{option_map};
ghost use Rattle.cdb.specs.Need.{need_of};
ghost use Rattle.block_store.specs.Storage.{IsLostIn, IsDeniedIn};
ghost use Rattle.backed_store.specs.Disks.{storage_of};
ghost use Rattle.command_model.specs.PlainReply.{plain_of};
ghost use Rattle.command_model.specs.Failing.{needs_page, unread, flushes_page, unwritten};
ghost use Rattle.block_commands.specs.Inner.Told.{facts_of, protects};
ghost use Rattle.unit_log.specs.Inner.Kept.{kept_reply};
ghost use Rattle.logical_unit.specs.Inner.Performing.{RanUnread, RanUnwritten, performed_of, told};
ghost use Rattle.logical_unit.specs.Inner.Flushes.{without};

use crate::flushing::{Fence, give_up};
use crate::making_room::{OldestWaiting, forget};
use crate::performing::{Performed, clear_oldest, kept_of, tell_oldest};
use backed_store::Disk;
use block_commands::{UnitFacts, unread, unwritten};
use block_store::Store;
use cdb::Command;
use command_model::Reply;
use ring_core::Ticket;
use std::alloc::Global;
use unit_attention::Attentions;

/// The most pages that a disk notes as lost, and as denied.
const MOST_NOTED: usize = 64;

/// Returns a page that a command needs and its unit's host can't read, with what the command is answered. `None` where it
/// needs none of those that are noted.
fn lost_page(
    alloc: Global,
    facts: &UnitFacts,
    store: &Disk,
    command: &Command,
    bytes: &[u8],
) -> Option<(u64, Reply)>
    ensures lost { IfSome result (λ found. IsLostIn (storage_of store.now) found.0) }
    ensures needed { IfSome result (λ found. needs_page (⟦<Disk as Store>⟧.size store.now) command.now bytes.now found.0 ≡ true) }
    ensures unprotected { IfSome result (λ found. protects facts.now command.now ≡ false) }
    ensures reply { IfSome result (λ found. plain_of found.1
        ≡ unread (facts_of facts.now (⟦<Disk as Store>⟧.size store.now)) command.now found.0) }
{
    for index in 0..MOST_NOTED {
        let page = store.lost_page(index)?;
        if let Some(reply) = unread(alloc, facts, store.capacity(), command, bytes, page) {
            return Some((page, reply));
        }
    }
    None
}

/// Returns true if a command may end so: the disk of its unit is backed, and no attention is pending.
fn may_fail(facts: &UnitFacts) -> bool
    ensures backed { IsTrue result → facts.now.backed ≡ true }
    ensures calm { IsTrue result → facts.now.pending ≡ None }
{
    facts.backed && facts.pending.is_none()
}

/// Returns a reply, and the same again where replies are kept. `None` where memory was refused to the copy.
fn with_copy(alloc: Global, reply: Reply, keeps_replies: bool) -> Option<Performed>
    ensures reply { IfSome result (λ p. plain_of p.reply ≡ plain_of reply) }
    ensures kept { IfSome result (λ p. option_map plain_of p.kept ≡ kept_reply keeps_replies (plain_of reply)) }
{
    let kept = if keeps_replies {
        kept_of(alloc, &reply).ok()?
    } else {
        None
    };
    Some(Performed { reply, kept })
}

/// Ends a command that waits for a page which its unit's host can't read, with MEDIUM ERROR. The page is forgotten, so that
/// the next command that needs it has it asked for again. `None`, with nothing changed, where the command needs no such
/// page: so always at a unit whose disk is in memory.
#[inline(never)]
pub(crate) fn fail(
    alloc: Global,
    facts: &UnitFacts,
    attentions: &mut Attentions,
    store: &mut Disk,
    command: &Command,
    bytes: &[u8],
    keeps_replies: bool,
) -> Option<Performed>
    ensures failed { IfSome result (λ p. RanUnread keeps_replies (facts_of facts.now (⟦<Disk as Store>⟧.size store.old))
        (IsLostIn (storage_of store.old)) command.now bytes.now (performed_of p)
        (⟦<Disk as Store>⟧.block_at store.old) (⟦<Disk as Store>⟧.block_at store.new) attentions.old attentions.new) }
    ensures otherwise { IfNone result (store.new ≡ store.old) }
    ensures pends { IfNone result (attentions.new ≡ attentions.old) }
    ensures size { ⟦<Disk as Store>⟧.size store.new ≡ ⟦<Disk as Store>⟧.size store.old }
    ensures storage { ⟦<Disk as Store>⟧.storage store.new ≡ ⟦<Disk as Store>⟧.storage store.old }
    ensures fits { IfSome result (λ p. length p.reply.payload.items ≤ (need_of command.now).into) }
{
    if !may_fail(facts) {
        return None;
    }
    let (page, reply) = lost_page(alloc, facts, store, command, bytes)?;
    let failed = with_copy(alloc, reply, keeps_replies)?;
    store.forget_lost(page);
    clear_oldest(attentions, command);
    Some(failed)
}

/// Returns a page that a command flushes and its unit's host can't write, with what the command is answered. `None` where it
/// flushes none of those that are noted.
fn denied_page(
    alloc: Global,
    facts: &UnitFacts,
    store: &Disk,
    asks_medium: bool,
    command: &Command,
) -> Option<(u64, Reply)>
    ensures denied { IfSome result (λ found. IsDeniedIn (storage_of store.now) found.0) }
    ensures flushed { IfSome result (λ found. flushes_page asks_medium (⟦<Disk as Store>⟧.size store.now) command.now found.0 ≡ true) }
    ensures reply { IfSome result (λ found. plain_of found.1 ≡ unwritten (facts_of facts.now (⟦<Disk as Store>⟧.size store.now)) found.0) }
{
    for index in 0..MOST_NOTED {
        let page = store.denied_page(index)?;
        if let Some(reply) = unwritten(alloc, facts, store.capacity(), asks_medium, command, page) {
            return Some((page, reply));
        }
    }
    None
}

/// Ends the flush of a ticket that waits for a page which its unit's host can't write, with MEDIUM ERROR. The page is forgotten,
/// so that the next flush waits until it is written, or denied once more. Puts what is pending first among the facts. `None`, with
/// nothing else changed, where the command flushes no such page, or an attention is pending.
#[inline(never)]
pub(crate) fn fail_flush(
    alloc: Global,
    facts: &mut UnitFacts,
    attentions: &mut Attentions,
    store: &mut Disk,
    fence: &mut Option<Fence>,
    oldest: &mut Option<OldestWaiting>,
    asks_medium: bool,
    command: &Command,
    keeps_replies: bool,
    ticket: Ticket,
) -> Option<Performed>
    ensures failed { IfSome result (λ p. RanUnwritten keeps_replies
        (facts_of (told facts.old attentions.old) (⟦<Disk as Store>⟧.size store.old)) asks_medium
        (IsDeniedIn (storage_of store.old)) command.now (performed_of p)
        (⟦<Disk as Store>⟧.block_at store.old) (⟦<Disk as Store>⟧.block_at store.new) attentions.old attentions.new) }
    ensures over { IfSome result (λ p. fence.new ≡ without fence.old ticket) }
    ensures otherwise { IfNone result (store.new ≡ store.old) }
    ensures pends { IfNone result (attentions.new ≡ attentions.old) }
    ensures waits { IfNone result (fence.new ≡ fence.old) }
    ensures facts { facts.new ≡ told facts.old attentions.old }
    ensures size { ⟦<Disk as Store>⟧.size store.new ≡ ⟦<Disk as Store>⟧.size store.old }
    ensures storage { ⟦<Disk as Store>⟧.storage store.new ≡ ⟦<Disk as Store>⟧.storage store.old }
    ensures fits { IfSome result (λ p. length p.reply.payload.items ≤ (need_of command.now).into) }
{
    tell_oldest(facts, attentions);
    if !may_fail(facts) {
        return None;
    }
    let (page, reply) = denied_page(alloc, facts, store, asks_medium, command)?;
    let failed = with_copy(alloc, reply, keeps_replies)?;
    store.forget_denied(page);
    clear_oldest(attentions, command);
    give_up(fence, ticket);
    forget(oldest, ticket);
    Some(failed)
}
