//! Pages that go from memory, so that those of a command find room there.

ghost use Rattle.std.specs.Prelude.{◌≡◌, ◌≢◌, ◌≤◌, ℕ, true, false, None, IsTrue, IsFalse, length};
ghost use Rattle.command_model.specs.Capacity.{is_in_range};
ghost use Rattle.cdb.specs.Need.{need_of};
ghost use Rattle.command_model.specs.Attention.{met};
ghost use Rattle.command_model.specs.Waiting.{needs};
ghost use Rattle.backed_store.specs.Disks.{size_of, blocks_of, holds, has_room, is_coming, hosted_of, is_backed};
ghost use Rattle.block_store.specs.declared.readiness.Readiness.TheVariants.{Ready, Full};
ghost use Rattle.block_commands.specs.Inner.Told.{protects};
ghost use Rattle.block_commands.specs.Inner.Ready.{IsReady};
ghost use Rattle.command_model.specs.Data.{data_of};

use backed_store::{Disk, PAGE_BLOCKS, PageRange};
use block_commands::{UnitFacts, make_ready};
use block_store::{Readiness, Store};
use cdb::{Command, WideCommand};
use ring_core::Ticket;

/// The number of pages that go at first where a command finds no room. Each time that they weren't enough, twice as many go.
const FIRST_PAGES: u32 = 64;

/// The number of times that pages go for one command: 32,704 pages in all, more than any command needs.
const MOST_TIMES: u32 = 9;

/// The most blocks that a GET LBA STATUS looks at.
const MOST_LOOKED_AT: u64 = 2_048;

/// The bytes of the parameter list of an UNMAP of one extent.
const ONE_EXTENT_BYTES: usize = 24;

/// The command that has waited for the longest of those of its unit that wait for pages. Its pages stay in memory once they
/// are there, so that it runs once all are, whatever the others ask for.
#[derive(Clone, Copy)]
pub(crate) struct OldestWaiting {
    /// The ticket of its task.
    pub(crate) ticket: Ticket,
    /// Its pages.
    pub(crate) pages: PageRange,
    /// True if no room was found for all of them. Then no other command asks for pages: those that came in place of what
    /// went couldn't go again at once, and the next command would ask before this one.
    pub(crate) is_short: bool,
}

/// Returns a range of blocks that has those of an UNMAP of one extent; none of one that has several.
fn extent_of(list: &[u8]) -> (u64, u64) {
    if list.len() != ONE_EXTENT_BYTES {
        return (0, 0);
    }
    let mut lba = [0; 8];
    let mut blocks = [0; 4];
    lba.copy_from_slice(&list[8..16]);
    blocks.copy_from_slice(&list[16..20]);
    (
        u64::from_be_bytes(lba),
        u64::from(u32::from_be_bytes(blocks)),
    )
}

/// Returns the pages of a command's range of blocks, or more; none of a command that has no range, or several.
fn pages_of(command: &Command, bytes: &[u8]) -> PageRange {
    let (lba, blocks) = match *command {
        Command::Read { lba, blocks } | Command::Write { lba, blocks } => (lba, u64::from(blocks)),
        Command::WriteSame { lba, blocks } => (lba, u64::from(blocks)),
        Command::CompareAndWrite { lba, blocks } => (lba, u64::from(blocks)),
        Command::Unmap { .. } => extent_of(bytes),
        Command::Wide(WideCommand::Verify { blocks, lba, .. }) => (lba, u64::from(blocks)),
        Command::Wide(WideCommand::OrWrite { blocks, lba }) => (lba, u64::from(blocks)),
        Command::Wide(WideCommand::WriteZeros { blocks, lba }) => (lba, u64::from(blocks)),
        Command::Wide(WideCommand::GetLbaStatus { lba, .. }) => (lba, MOST_LOOKED_AT),
        _ => (0, 0),
    };
    PageRange {
        first: lba / PAGE_BLOCKS,
        count: (lba % PAGE_BLOCKS)
            .saturating_add(blocks)
            .div_ceil(PAGE_BLOCKS),
    }
}

/// Returns true if a range of blocks lies below a capacity.
pub(crate) fn is_inside(capacity: u64, lba: u64, blocks: u64) -> bool
    ensures { result ≡ is_in_range capacity lba blocks }
{
    lba <= capacity && blocks <= capacity - lba
}

/// Returns true of commands that need blocks of a disk of so many: of most that do.
fn needs_blocks(capacity: u64, command: &Command) -> bool
    ensures { IsTrue result → needs capacity command.now ≡ true }
{
    match *command {
        Command::Read { lba, blocks } => is_inside(capacity, lba, u64::from(blocks)),
        Command::Write { lba, blocks } => is_inside(capacity, lba, u64::from(blocks)),
        Command::WriteSame { lba, blocks } => is_inside(capacity, lba, u64::from(blocks)),
        Command::CompareAndWrite { lba, blocks } => is_inside(capacity, lba, u64::from(blocks)),
        Command::Unmap { .. } => true,
        Command::Wide(WideCommand::Verify { blocks, lba, .. }) => {
            is_inside(capacity, lba, u64::from(blocks))
        }
        Command::Wide(WideCommand::OrWrite { blocks, lba }) => {
            is_inside(capacity, lba, u64::from(blocks))
        }
        Command::Wide(WideCommand::WriteZeros { blocks, lba }) => {
            is_inside(capacity, lba, u64::from(blocks))
        }
        _ => false,
    }
}

/// Has a page of a disk go from memory that may go and is none of some ranges. Returns true if there was one.
fn drop_page(store: &mut Disk, spared: &[PageRange]) -> bool
    ensures blocks { (b : ℕ) → blocks_of store.new b ≡ blocks_of store.old b }
    ensures size { size_of store.new ≡ size_of store.old }
    ensures storage { hosted_of store.new ≡ hosted_of store.old }
{
    store.evict(spared)
}

/// Has at most so many pages go as [`drop_page`] does. Returns true if one went.
fn drop_pages(store: &mut Disk, spared: &[PageRange], most: u32) -> bool
    ensures blocks { (b : ℕ) → blocks_of store.new b ≡ blocks_of store.old b }
    ensures size { size_of store.new ≡ size_of store.old }
    ensures storage { hosted_of store.new ≡ hosted_of store.old }
{
    let mut dropped = false;
    for _number in 0..most {
        if !drop_page(store, spared) {
            return dropped;
        }
        dropped = true;
    }
    dropped
}

/// Makes a disk ready for a command as [`make_ready`] does. Where there is no room for its pages, so many others go but
/// those of some ranges, and it is tried again: at most so many times, each time twice as many.
fn make_ready_in_turns(
    facts: &UnitFacts,
    store: &mut Disk,
    command: &Command,
    bytes: &[u8],
    spared: &[PageRange],
    times: u32,
    pages: u32,
) -> Readiness
    requires data { (need_of command.now).out ≤ length bytes.now }
    ensures ready { result ≡ Ready → met command.now facts.now.pending ≡ None →
        IsFalse (protects facts.now command.now) →
        IsReady (holds store.new) (has_room store.new) (size_of store.new) command.now (data_of command.now bytes.now) }
    ensures asked { result ≢ Full → met command.now facts.now.pending ≡ None →
        IsFalse (protects facts.now command.now) →
        IsReady (is_coming store.new) (has_room store.new) (size_of store.new) command.now (data_of command.now bytes.now) }
    ensures idle { needs (size_of store.old) command.now ≡ false → result ≡ Ready }
    ensures blocks { (b : ℕ) → blocks_of store.new b ≡ blocks_of store.old b }
    ensures size { size_of store.new ≡ size_of store.old }
    ensures storage { hosted_of store.new ≡ hosted_of store.old }
{
    let readiness = make_ready(store, command, bytes, facts);
    if readiness != Readiness::Full || times == 0 {
        return readiness;
    }
    if !drop_pages(store, spared, pages) {
        return readiness;
    }
    let twice = pages.saturating_mul(2);
    make_ready_in_turns(facts, store, command, bytes, spared, times - 1, twice)
}

/// Returns true if the command of a ticket asks for no pages yet: another has waited for longer, and found no room for all of
/// its pages, or these aren't known.
fn is_behind(oldest: &Option<OldestWaiting>, ticket: Ticket) -> bool {
    match oldest {
        Some(other) => other.ticket != ticket && (other.is_short || other.pages.count == 0),
        None => false,
    }
}

/// Makes a disk ready for the command of a ticket as [`make_ready`] does. Where there is no room for its pages, others go: not
/// those of the command that has waited for the longest. The first that waits is that one, until it runs or its task leaves.
#[inline(never)]
pub(crate) fn make_ready_for(
    facts: &UnitFacts,
    store: &mut Disk,
    command: &Command,
    bytes: &[u8],
    oldest: &mut Option<OldestWaiting>,
    ticket: Ticket,
) -> Readiness
    requires data { (need_of command.now).out ≤ length bytes.now }
    ensures ready { result ≡ Ready → met command.now facts.now.pending ≡ None →
        IsFalse (protects facts.now command.now) →
        IsReady (holds store.new) (has_room store.new) (size_of store.new) command.now (data_of command.now bytes.now) }
    ensures asked { result ≢ Full → met command.now facts.now.pending ≡ None →
        IsFalse (protects facts.now command.now) →
        IsReady (is_coming store.new) (has_room store.new) (size_of store.new) command.now (data_of command.now bytes.now) }
    ensures idle { needs (size_of store.old) command.now ≡ false → result ≡ Ready }
    ensures blocks { (b : ℕ) → blocks_of store.new b ≡ blocks_of store.old b }
    ensures size { size_of store.new ≡ size_of store.old }
    ensures storage { hosted_of store.new ≡ hosted_of store.old }
{
    if is_behind(oldest, ticket) && needs_blocks(store.capacity(), command) {
        return Readiness::Full;
    }
    let own = pages_of(command, bytes);
    let first = match *oldest {
        Some(other) => other.pages,
        None => own,
    };
    let spared = [own, first];
    let readiness = make_ready_in_turns(
        facts,
        store,
        command,
        bytes,
        &spared,
        MOST_TIMES,
        FIRST_PAGES,
    );
    if readiness == Readiness::Ready {
        forget(oldest, ticket);
    } else {
        note_waiting(
            oldest,
            OldestWaiting {
                ticket,
                pages: own,
                is_short: readiness == Readiness::Full,
            },
        );
    }
    readiness
}

/// Notes that a command waits, if it has waited for the longest, or none has.
fn note_waiting(oldest: &mut Option<OldestWaiting>, own: OldestWaiting) {
    if let Some(other) = *oldest {
        if other.ticket != own.ticket {
            return;
        }
    }
    *oldest = Some(own);
}

/// Forgets that the command of a ticket waits for pages, since it runs or its task leaves.
#[inline(always)]
pub(crate) fn forget(oldest: &mut Option<OldestWaiting>, ticket: Ticket) {
    if let Some(own) = *oldest {
        if own.ticket == ticket {
            *oldest = None;
        }
    }
}
