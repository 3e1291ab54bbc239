//! Commands that need what their unit's host can't read, or flush what it can't write.

ghost use Rattle.std.specs.Prelude.{◌≡◌, ◌*◌, ◌≤◌, ◌&&◌, true, false, length, IfSome, IfNone, is_ok};
ghost use Rattle.command_model.specs.PlainReply.{plain_of};
ghost use Rattle.command_model.specs.Failing.{reaches, cuts, are_cut, needs_page, needs_page_wide, first_named, first_named_wide, unread, flushes_page, unwritten};
ghost use Rattle.command_model.specs.Replies.{unmap_answer};
ghost use Rattle.command_model.specs.UnmapList.{descriptors, descriptors_in};
ghost use Rattle.block_commands.specs.Inner.Told.{facts_of, protects};

use crate::capacity::is_in_range;
use crate::extents::{UNMAP_HEADER_BYTES, extent_at, taken_descriptors};
use crate::facts::UnitFacts;
use crate::protection::is_protected;
use crate::provisioning::looked_at;
use crate::unmap::{are_in_range, is_too_much};
use cdb::{Command, WideCommand};
use command_model::Reply;
use sense::Sense;
use std::alloc::Global;

/// The blocks of a page.
const PAGE_BLOCKS: u64 = 8;

/// Returns true if a range that lies below the capacity has a block in a page.
fn reaches(capacity: u64, lba: u64, count: u32, page: u64) -> bool
    ensures { result ≡ reaches capacity lba count page }
{
    if !is_in_range(capacity, lba, count) || count == 0 {
        return false;
    }
    lba / PAGE_BLOCKS <= page && page <= (lba + u64::from(count) - 1) / PAGE_BLOCKS
}

/// Returns true if a range that lies below the capacity has a block in a page, and lacks one of it.
fn cuts(capacity: u64, lba: u64, count: u32, page: u64) -> bool
    ensures { result ≡ cuts capacity lba count page }
{
    if !reaches(capacity, lba, count, page) {
        return false;
    }
    let first = page * PAGE_BLOCKS;
    lba > first || lba + u64::from(count) - first < PAGE_BLOCKS
}

/// Returns true if one of the descriptors cuts a page.
fn cuts_any(capacity: u64, taken: &[u8], count: usize, page: u64) -> bool
    requires { 16 * count ≤ length taken.now }
    ensures { result ≡ are_cut capacity (descriptors_in count taken.now) page }
{
    for i in 0..count {
        let extent = extent_at(taken, i);
        if cuts(capacity, extent.lba, extent.count, page) {
            return true;
        }
    }
    false
}

/// Returns true if an UNMAP of this parameter list needs a page: it isn't refused, and a descriptor cuts it.
fn unmap_needs(capacity: u64, list: &[u8], page: u64) -> bool
    ensures { result ≡ (is_ok (unmap_answer capacity list.now) && are_cut capacity (descriptors list.now) page) }
{
    if list.is_empty() {
        return false;
    }
    if list.len() < UNMAP_HEADER_BYTES {
        return false;
    }
    let count = taken_descriptors(list);
    let (_, taken) = list.split_at(UNMAP_HEADER_BYTES);
    if is_too_much(taken, count) {
        return false;
    }
    if !are_in_range(capacity, taken, count) {
        return false;
    }
    cuts_any(capacity, taken, count, page)
}

/// Returns true if a command of the wide profile alone needs a page.
fn needs_page_wide(capacity: u64, command: &WideCommand, page: u64) -> bool
    ensures { result ≡ needs_page_wide capacity command.now page }
{
    match *command {
        WideCommand::GetLbaStatus { lba, .. } => {
            reaches(capacity, lba, looked_at(capacity, lba), page)
        }
        WideCommand::Verify { blocks, lba, .. } => reaches(capacity, lba, u32::from(blocks), page),
        WideCommand::WriteZeros { blocks, lba } => cuts(capacity, lba, blocks, page),
        WideCommand::OrWrite { blocks, lba } => reaches(capacity, lba, u32::from(blocks), page),
        _ => false,
    }
}

/// Returns true if a command needs a page as the storage of its unit's host has it: it reads a block of it, or writes over a
/// part of it.
fn needs_page(capacity: u64, command: &Command, bytes: &[u8], page: u64) -> bool
    ensures { result ≡ needs_page capacity command.now bytes.now page }
{
    match *command {
        Command::Read { lba, blocks } => reaches(capacity, lba, u32::from(blocks), page),
        Command::Write { lba, blocks } => cuts(capacity, lba, u32::from(blocks), page),
        Command::WriteSame { lba, blocks } => cuts(capacity, lba, blocks, page),
        Command::Unmap { .. } => unmap_needs(capacity, bytes, page),
        Command::CompareAndWrite { lba, blocks } => {
            reaches(capacity, lba, u32::from(blocks), page)
        }
        Command::Wide(command) => needs_page_wide(capacity, &command, page),
        _ => false,
    }
}

/// Returns the first block that a command of the wide profile alone names by a range; 0 of others.
fn first_named_wide(command: &WideCommand) -> u64
    ensures { result ≡ first_named_wide command.now }
{
    match *command {
        WideCommand::GetLbaStatus { lba, .. } => lba,
        WideCommand::Verify { lba, .. } => lba,
        WideCommand::WriteZeros { lba, .. } => lba,
        WideCommand::OrWrite { lba, .. } => lba,
        _ => 0,
    }
}

/// Returns the first block that a command names by a range; 0 of others.
fn first_named(command: &Command) -> u64
    ensures { result ≡ first_named command.now }
{
    match *command {
        Command::Read { lba, .. } | Command::Write { lba, .. } => lba,
        Command::WriteSame { lba, .. } | Command::CompareAndWrite { lba, .. } => lba,
        Command::Wide(command) => first_named_wide(&command),
        _ => 0,
    }
}

/// Returns what a command is answered that needs a page which its unit's host can't read: MEDIUM ERROR, UNRECOVERED READ
/// ERROR. `bytes` are the data that it takes. `None` where it doesn't need that page, or a read-only unit refuses it. The unit
/// calls it for a command that waits, in the hold of its lock.
pub fn unread(
    alloc: Global,
    facts: &UnitFacts,
    capacity: u64,
    command: &Command,
    bytes: &[u8],
    page: u64,
) -> Option<Reply>
    ensures needed { IfSome result (λ r. needs_page capacity command.now bytes.now page ≡ true) }
    ensures reply { IfSome result (λ r. plain_of r ≡ unread (facts_of facts.now capacity) command.now page) }
    ensures unprotected { IfSome result (λ r. protects facts.now command.now ≡ false) }
    ensures unneeded { IfNone result (protects facts.now command.now ≡ false → needs_page capacity command.now bytes.now page ≡ false) }
{
    if is_protected(facts, command) {
        return None;
    }
    if !needs_page(capacity, command, bytes, page) {
        return None;
    }
    let block = first_named(command).max(page.saturating_mul(PAGE_BLOCKS));
    let sense = Sense::unrecovered_read_error(block).in_format(facts.format_told());
    Some(Reply::refusal(alloc, sense))
}

/// Returns true if a command that asks for the medium itself, or doesn't, flushes a page: SYNCHRONIZE CACHE each page of the
/// disk, and a READ that asks for the medium those that it reads.
fn flushes_page(asks_medium: bool, capacity: u64, command: &Command, page: u64) -> bool
    ensures { result ≡ flushes_page asks_medium capacity command.now page }
{
    match *command {
        Command::SynchronizeCache { lba, blocks } => {
            is_in_range(capacity, lba, blocks) && page.saturating_mul(PAGE_BLOCKS) < capacity
        }
        Command::Read { lba, blocks } => {
            asks_medium && reaches(capacity, lba, u32::from(blocks), page)
        }
        _ => false,
    }
}

/// Returns what a command is answered that flushes a page which its unit's host can't write: MEDIUM ERROR, WRITE ERROR. `None`
/// where it doesn't flush that page. The unit calls it for a command that waits, in the hold of its lock.
pub fn unwritten(
    alloc: Global,
    facts: &UnitFacts,
    capacity: u64,
    asks_medium: bool,
    command: &Command,
    page: u64,
) -> Option<Reply>
    ensures flushed { IfSome result (λ r. flushes_page asks_medium capacity command.now page ≡ true) }
    ensures reply { IfSome result (λ r. plain_of r ≡ unwritten (facts_of facts.now capacity) page) }
    ensures unflushed { IfNone result (flushes_page asks_medium capacity command.now page ≡ false) }
{
    if !flushes_page(asks_medium, capacity, command, page) {
        return None;
    }
    let sense = Sense::write_error(page.saturating_mul(PAGE_BLOCKS));
    Some(Reply::refusal(alloc, sense.in_format(facts.format_told())))
}
