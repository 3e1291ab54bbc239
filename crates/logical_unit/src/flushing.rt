//! A flush that waits until the host's storage has what was changed before it, and a reply that isn't told before that.

ghost use Rattle.std.specs.Prelude.{◌≡◌, ◌≢◌, ℕ, ◌/◌, List, is_some, true, false, None, IsTrue, IsFalse, IfSome};
ghost use Rattle.backed_store.specs.Disks.{is_backed, size_of, blocks_of, hosted_of, storage_of, owes, is_changed, IsOver, IsKeptWhole};
ghost use Rattle.command_model.specs.Waiting.{is_flush, flushes};
ghost use Rattle.unit_model.specs.Steps.{Step};
ghost use Rattle.unit_model.specs.Contents.{Opening, blocks_of as unit_blocks};
ghost use Rattle.logical_unit.specs.Inner.Flushes.{MayBegin, HasBegun, AreFenced, IsReadKept, fence_of, without};

use crate::making_room::is_inside;
use backed_store::Disk;
use block_store::Store;
use cdb::Command;
use ring_core::Ticket;

/// A flush that waits: that of a command which is one, or behind one that ran.
#[derive(Clone, Copy, PartialEq, Eq)]
pub(crate) struct Fence {
    /// The ticket of its task.
    pub(crate) ticket: Ticket,
    /// The place of the Enter of its task.
    pub(crate) place: u64,
    /// True if the command of its task ran before it began.
    pub(crate) ran: bool,
}

/// Returns true if a command is a READ of blocks below the capacity that asks for the medium, whose blocks the host's storage
/// doesn't have as they are.
fn is_read_unkept(disk: &Disk, asks_medium: bool, command: &Command) -> bool
    ensures flush { IsTrue result → IsTrue (flushes asks_medium command.now) }
    ensures no_flush { IsTrue result → is_flush command.now ≡ false }
    ensures kept { IsFalse result → IsTrue asks_medium → IsReadKept disk.now command.now }
    ensures changed { IsTrue result → (b : ℕ) × IsTrue (is_changed disk.now (b / 8)) }
    ensures whole { is_backed disk.now ≡ false → IsFalse result }
{
    match *command {
        Command::Read { lba, blocks } => {
            if !asks_medium {
                return false;
            }
            if !is_inside(disk.capacity(), lba, u64::from(blocks)) {
                return false;
            }
            !disk.are_kept(lba, u32::from(blocks))
        }
        _ => false,
    }
}

/// Has a flush be the latest of its disk, where no other waits. Returns true if it is. Its task may run now, or ran.
fn take_turn(fence: &mut Option<Fence>, disk: &mut Disk, own: Fence) -> bool
    ensures fenced { (o : Opening) (steps : List Step) → MayBegin steps own → ((b : ℕ) → blocks_of disk.old b ≡ unit_blocks o steps b) →
        AreFenced o steps fence.old (hosted_of disk.old) → AreFenced o steps fence.new (hosted_of disk.new) }
    ensures since { (o : Opening) (steps : List Step) → MayBegin steps own → ((b : ℕ) → blocks_of disk.old b ≡ unit_blocks o steps b) →
        AreFenced o steps fence.old (hosted_of disk.old) → IsTrue result → HasBegun o steps own (hosted_of disk.new) }
    ensures stands { IsTrue (is_some fence.new) }
    ensures own { IsTrue result → IfSome fence.new (λ f. f ≡ own) }
    ensures another { IsFalse result → IfSome fence.new (λ f. f ≢ own) }
    ensures waits { IsTrue (is_some fence.old) → (fence.new ≡ fence.old) × (disk.new ≡ disk.old) }
    ensures blocks { blocks_of disk.new ≡ blocks_of disk.old }
    ensures size { size_of disk.new ≡ size_of disk.old }
    ensures storage { storage_of disk.new ≡ storage_of disk.old }
{
    match *fence {
        None => {
            disk.begin_flush();
            *fence = Some(own);
            true
        }
        Some(other) => other == own,
    }
}

/// Returns true if a flush waits for the host's storage: a change is owed that was made before it began, or another flush
/// waits. Then its fence is kept until it is over.
fn is_behind(fence: &mut Option<Fence>, disk: &mut Disk, own: Fence) -> bool
    ensures fenced { (o : Opening) (steps : List Step) → MayBegin steps own → ((b : ℕ) → blocks_of disk.old b ≡ unit_blocks o steps b) →
        AreFenced o steps fence.old (hosted_of disk.old) → AreFenced o steps fence.new (hosted_of disk.new) }
    ensures since { (o : Opening) (steps : List Step) → MayBegin steps own → ((b : ℕ) → blocks_of disk.old b ≡ unit_blocks o steps b) →
        AreFenced o steps fence.old (hosted_of disk.old) → IsFalse result → HasBegun o steps own (hosted_of disk.new) }
    ensures over { IsFalse result → IsOver disk.new }
    // The own flush waits for what is owed, and is kept; that of another stays as it is.
    ensures owed { IsTrue result → IfSome fence.new (λ f. f ≡ own → (p : ℕ) × IsTrue (owes disk.new p)) }
    ensures kept { IsTrue result → IsTrue (is_some fence.new) }
    ensures waits { IsTrue result → IsTrue (is_some fence.old) → (fence.new ≡ fence.old) × (disk.new ≡ disk.old) }
    ensures blocks { blocks_of disk.new ≡ blocks_of disk.old }
    ensures size { size_of disk.new ≡ size_of disk.old }
    ensures storage { storage_of disk.new ≡ storage_of disk.old }
{
    if !take_turn(fence, disk, own) {
        return true;
    }
    if disk.is_flush_over() {
        *fence = None;
        return false;
    }
    true
}

/// Returns true if a command of a ticket, whose task entered at a place, waits for the host's storage: it is a SYNCHRONIZE CACHE,
/// as long as that flush waits, or a READ that asks for the medium, as long as the storage doesn't have its blocks as they are.
/// Nothing waits on a disk that isn't backed.
#[inline(always)]
pub(crate) fn has_to_wait(
    fence: &mut Option<Fence>,
    disk: &mut Disk,
    asks_medium: bool,
    command: &Command,
    ticket: Ticket,
    place: u64,
) -> bool
    ensures backed { IsTrue result → is_backed disk.old ≡ true }
    ensures flush { IsTrue result → IsTrue (flushes asks_medium command.now) }
    ensures fenced { (o : Opening) (steps : List Step) → MayBegin steps (fence_of ticket place false) →
        ((b : ℕ) → blocks_of disk.old b ≡ unit_blocks o steps b) → AreFenced o steps fence.old (hosted_of disk.old) →
        AreFenced o steps fence.new (hosted_of disk.new) }
    ensures since { (o : Opening) (steps : List Step) → MayBegin steps (fence_of ticket place false) →
        ((b : ℕ) → blocks_of disk.old b ≡ unit_blocks o steps b) → AreFenced o steps fence.old (hosted_of disk.old) →
        IsFalse result → IsTrue (is_flush command.now) → HasBegun o steps (fence_of ticket place false) (hosted_of disk.new) }
    ensures over { IsFalse result → IsTrue (is_flush command.now) → IsOver disk.new }
    ensures read { IsFalse result → IsTrue asks_medium → IsReadKept disk.new command.now }
    ensures owed { IsTrue result → IsTrue (is_flush command.now) →
        IfSome fence.new (λ f. f ≡ fence_of ticket place false → (p : ℕ) × IsTrue (owes disk.new p)) }
    ensures changed { IsTrue result → is_flush command.now ≡ false → (b : ℕ) × IsTrue (is_changed disk.new (b / 8)) }
    ensures kept { IsTrue result → IsTrue (is_flush command.now) → IsTrue (is_some fence.new) }
    ensures waits { IsTrue result → IsTrue (is_some fence.old) → (fence.new ≡ fence.old) × (disk.new ≡ disk.old) }
    ensures blocks { blocks_of disk.new ≡ blocks_of disk.old }
    ensures size { size_of disk.new ≡ size_of disk.old }
    ensures storage { storage_of disk.new ≡ storage_of disk.old }
{
    if disk.is_resident() {
        return false;
    }
    match *command {
        Command::SynchronizeCache { .. } => is_behind(
            fence,
            disk,
            Fence {
                ticket,
                place,
                ran: false,
            },
        ),
        _ => is_read_unkept(disk, asks_medium, command),
    }
}

/// Returns true if the host's storage has what the command of a ticket changed, which ran, and whose task entered at a place: so
/// its reply may be told. Else that waits, as a flush does.
pub(crate) fn is_through(
    fence: &mut Option<Fence>,
    disk: &mut Disk,
    ticket: Ticket,
    place: u64,
) -> bool
    ensures fenced { (o : Opening) (steps : List Step) → MayBegin steps (fence_of ticket place true) →
        ((b : ℕ) → blocks_of disk.old b ≡ unit_blocks o steps b) → AreFenced o steps fence.old (hosted_of disk.old) →
        AreFenced o steps fence.new (hosted_of disk.new) }
    ensures since { (o : Opening) (steps : List Step) → MayBegin steps (fence_of ticket place true) →
        ((b : ℕ) → blocks_of disk.old b ≡ unit_blocks o steps b) → AreFenced o steps fence.old (hosted_of disk.old) →
        IsTrue result → HasBegun o steps (fence_of ticket place true) (hosted_of disk.new) }
    ensures over { IsTrue result → IsOver disk.new }
    ensures owed { IsFalse result → IfSome fence.new (λ f. f ≡ fence_of ticket place true → (p : ℕ) × IsTrue (owes disk.new p)) }
    ensures blocks { blocks_of disk.new ≡ blocks_of disk.old }
    ensures size { size_of disk.new ≡ size_of disk.old }
    ensures storage { storage_of disk.new ≡ storage_of disk.old }
{
    !is_behind(
        fence,
        disk,
        Fence {
            ticket,
            place,
            ran: true,
        },
    )
}

/// Returns true if a command would wait that comes now, while no other flush waits.
pub(crate) fn would_wait(disk: &Disk, asks_medium: bool, command: &Command) -> bool
    ensures over { IsFalse result → IsTrue (is_flush command.now) → IsKeptWhole disk.now }
    ensures read { IsFalse result → IsTrue asks_medium → IsReadKept disk.now command.now }
    ensures whole { is_backed disk.now ≡ false → IsFalse result }
{
    match *command {
        Command::SynchronizeCache { .. } => !disk.is_kept(),
        _ => is_read_unkept(disk, asks_medium, command),
    }
}

/// Forgets that the flush of a ticket waits, whose task leaves.
pub(crate) fn give_up(fence: &mut Option<Fence>, ticket: Ticket)
    ensures { fence.new ≡ without fence.old ticket }
{
    if let Some(own) = *fence {
        if own.ticket == ticket {
            *fence = None;
        }
    }
}
