//! The pages that a command needs before it runs.

ghost use Rattle.std.specs.Prelude.{◌≡◌, ◌≢◌, ◌≤◌, ◌*◌, ◌&&◌, ℕ, false, None, is_some, length, IsTrue, IsFalse};
ghost use Rattle.cdb.specs.Need.{need_of};
ghost use Rattle.block_store.specs.declared.readiness.Readiness.TheVariants.{Ready, Full};
ghost use Rattle.command_model.specs.Capacity.{is_in_range};
ghost use Rattle.command_model.specs.Data.{data_of};
ghost use Rattle.command_model.specs.Attention.{met};
ghost use Rattle.command_model.specs.UnmapList.{descriptors_in, descriptors, is_named, are_in_range};
ghost use Rattle.command_model.specs.Replies.{unmap_answer};
ghost use Rattle.command_model.specs.Waiting.{needs, needs_wide};
ghost use Rattle.block_commands.specs.Inner.Told.{protects};
ghost use Rattle.block_commands.specs.Inner.Ready.{IsReady, is_inside, is_read_wide, is_changed_wide, is_near_wide, is_near_to, is_near_any, is_done};

use crate::attention::met_attention;
use crate::capacity::is_in_range;
use crate::extents::{UNMAP_HEADER_BYTES, extent_at, taken_descriptors};
use crate::facts::UnitFacts;
use crate::protection::is_protected;
use crate::provisioning::looked_at;
use crate::unmap::{are_in_range, is_too_much};
use block_store::{Readiness, Store};
use cdb::{Command, WideCommand, need};

/// Asks for the blocks that a read of the range needs, unless the range is refused.
fn to_read<S: Store>(store: &mut S, lba: u64, blocks: u32) -> Readiness
    ensures ready { result ≡ Ready → (b : ℕ) → IsTrue (is_inside (S.size store.old) lba blocks b) → IsTrue (S.is_held store.new b) }
    ensures asked { result ≢ Full → (b : ℕ) → IsTrue (is_inside (S.size store.old) lba blocks b) → IsTrue (S.is_coming store.new b) }
    ensures idle { is_in_range (S.size store.old) lba blocks ≡ false → result ≡ Ready }
    ensures whole { is_some (S.storage store.old) ≡ false → result ≡ Ready }
    ensures blocks { (b : ℕ) → S.block_at store.new b ≡ S.block_at store.old b }
    ensures size { S.size store.new ≡ S.size store.old }
    ensures storage { S.storage store.new ≡ S.storage store.old }
    ensures held { (b : ℕ) → IsTrue (S.is_held store.old b) → IsTrue (S.is_held store.new b) }
    ensures coming { (b : ℕ) → IsTrue (S.is_coming store.old b) → IsTrue (S.is_coming store.new b) }
    ensures keeps_room { (b : ℕ) → IsTrue (S.has_room store.old b) → IsTrue (S.has_room store.new b) }
{
    if !is_in_range(store.capacity(), lba, blocks) {
        return Readiness::Ready;
    }
    store.ask_to_read(lba, blocks)
}

/// Makes room for a write of the range, and asks for the blocks beside it, unless the range is refused.
fn to_write<S: Store>(store: &mut S, lba: u64, blocks: u32) -> Readiness
    ensures room { result ≢ Full → (b : ℕ) → IsTrue (is_inside (S.size store.old) lba blocks b) → IsTrue (S.has_room store.new b) }
    ensures near { result ≡ Ready → (b : ℕ) → IsTrue (is_near_to (S.size store.old) lba blocks b) → IsTrue (S.is_held store.new b) }
    ensures near_asked { result ≢ Full → (b : ℕ) → IsTrue (is_near_to (S.size store.old) lba blocks b) → IsTrue (S.is_coming store.new b) }
    ensures idle { is_in_range (S.size store.old) lba blocks ≡ false → result ≡ Ready }
    ensures whole { is_some (S.storage store.old) ≡ false → result ≡ Ready }
    ensures blocks { (b : ℕ) → S.block_at store.new b ≡ S.block_at store.old b }
    ensures size { S.size store.new ≡ S.size store.old }
    ensures storage { S.storage store.new ≡ S.storage store.old }
    ensures held { (b : ℕ) → IsTrue (S.is_held store.old b) → IsTrue (S.is_held store.new b) }
    ensures coming { (b : ℕ) → IsTrue (S.is_coming store.old b) → IsTrue (S.is_coming store.new b) }
    ensures keeps_room { (b : ℕ) → IsTrue (S.has_room store.old b) → IsTrue (S.has_room store.new b) }
{
    if !is_in_range(store.capacity(), lba, blocks) {
        return Readiness::Ready;
    }
    store.ask_to_write(lba, blocks)
}

/// Does the same for the blocks of each descriptor.
fn to_unmap_extents<S: Store>(store: &mut S, taken: &[u8], count: usize) -> Readiness
    requires fits { 16 * count ≤ length taken.now }
    requires range { IsTrue (are_in_range (S.size store.old) (descriptors_in count taken.now)) }
    ensures room { result ≢ Full → (b : ℕ) → IsTrue (is_named (descriptors_in count taken.now) b) → IsTrue (S.has_room store.new b) }
    ensures near { result ≡ Ready → (b : ℕ) → IsTrue (is_near_any (descriptors_in count taken.now) b) → IsTrue (S.is_held store.new b) }
    ensures near_asked { result ≢ Full → (b : ℕ) → IsTrue (is_near_any (descriptors_in count taken.now) b) → IsTrue (S.is_coming store.new b) }
    ensures whole { is_some (S.storage store.old) ≡ false → result ≡ Ready }
    ensures blocks { (b : ℕ) → S.block_at store.new b ≡ S.block_at store.old b }
    ensures size { S.size store.new ≡ S.size store.old }
    ensures storage { S.storage store.new ≡ S.storage store.old }
    ensures held { (b : ℕ) → IsTrue (S.is_held store.old b) → IsTrue (S.is_held store.new b) }
    ensures coming { (b : ℕ) → IsTrue (S.is_coming store.old b) → IsTrue (S.is_coming store.new b) }
    ensures keeps_room { (b : ℕ) → IsTrue (S.has_room store.old b) → IsTrue (S.has_room store.new b) }
{
    let mut so_far = Readiness::Ready;
    for i in 0..count {
        let extent = extent_at(taken, i);
        let here = to_write(store, extent.lba, extent.count);
        so_far = so_far.and(here);
    }
    so_far
}

/// Does the same for the blocks that an UNMAP names, unless it is refused.
fn to_unmap<S: Store>(store: &mut S, list: &[u8]) -> Readiness
    ensures room { result ≢ Full → (b : ℕ) → IsTrue (is_done (unmap_answer (S.size store.old) list.now) && is_named (descriptors list.now) b) → IsTrue (S.has_room store.new b) }
    ensures near { result ≡ Ready → (b : ℕ) → IsTrue (is_done (unmap_answer (S.size store.old) list.now) && is_near_any (descriptors list.now) b) → IsTrue (S.is_held store.new b) }
    ensures near_asked { result ≢ Full → (b : ℕ) → IsTrue (is_done (unmap_answer (S.size store.old) list.now) && is_near_any (descriptors list.now) b) → IsTrue (S.is_coming store.new b) }
    ensures whole { is_some (S.storage store.old) ≡ false → result ≡ Ready }
    ensures blocks { (b : ℕ) → S.block_at store.new b ≡ S.block_at store.old b }
    ensures size { S.size store.new ≡ S.size store.old }
    ensures storage { S.storage store.new ≡ S.storage store.old }
    ensures held { (b : ℕ) → IsTrue (S.is_held store.old b) → IsTrue (S.is_held store.new b) }
    ensures coming { (b : ℕ) → IsTrue (S.is_coming store.old b) → IsTrue (S.is_coming store.new b) }
    ensures keeps_room { (b : ℕ) → IsTrue (S.has_room store.old b) → IsTrue (S.has_room store.new b) }
{
    if list.is_empty() {
        return Readiness::Ready;
    }
    if list.len() < UNMAP_HEADER_BYTES {
        return Readiness::Ready;
    }
    let count = taken_descriptors(list);
    let (_, taken) = list.split_at(UNMAP_HEADER_BYTES);
    if is_too_much(taken, count) {
        return Readiness::Ready;
    }
    if !are_in_range(store.capacity(), taken, count) {
        return Readiness::Ready;
    }
    to_unmap_extents(store, taken, count)
}

/// Does the same for blocks that a command reads and then writes over.
fn to_read_and_write<S: Store>(store: &mut S, lba: u64, blocks: u32) -> Readiness
    ensures ready { result ≡ Ready → (b : ℕ) → IsTrue (is_inside (S.size store.old) lba blocks b) → IsTrue (S.is_held store.new b) }
    ensures asked { result ≢ Full → (b : ℕ) → IsTrue (is_inside (S.size store.old) lba blocks b) → IsTrue (S.is_coming store.new b) }
    ensures room { result ≢ Full → (b : ℕ) → IsTrue (is_inside (S.size store.old) lba blocks b) → IsTrue (S.has_room store.new b) }
    ensures near { result ≡ Ready → (b : ℕ) → IsTrue (is_near_to (S.size store.old) lba blocks b) → IsTrue (S.is_held store.new b) }
    ensures near_asked { result ≢ Full → (b : ℕ) → IsTrue (is_near_to (S.size store.old) lba blocks b) → IsTrue (S.is_coming store.new b) }
    ensures idle { is_in_range (S.size store.old) lba blocks ≡ false → result ≡ Ready }
    ensures whole { is_some (S.storage store.old) ≡ false → result ≡ Ready }
    ensures blocks { (b : ℕ) → S.block_at store.new b ≡ S.block_at store.old b }
    ensures size { S.size store.new ≡ S.size store.old }
    ensures storage { S.storage store.new ≡ S.storage store.old }
    ensures held { (b : ℕ) → IsTrue (S.is_held store.old b) → IsTrue (S.is_held store.new b) }
    ensures coming { (b : ℕ) → IsTrue (S.is_coming store.old b) → IsTrue (S.is_coming store.new b) }
    ensures keeps_room { (b : ℕ) → IsTrue (S.has_room store.old b) → IsTrue (S.has_room store.new b) }
{
    let read = to_read(store, lba, blocks);
    let write = to_write(store, lba, blocks);
    read.and(write)
}

/// Asks for the blocks that a command of the wide profile alone reads, and makes room for what it may write over.
fn to_run_wide<S: Store>(store: &mut S, command: &WideCommand) -> Readiness
    ensures ready { result ≡ Ready → (b : ℕ) → IsTrue (is_read_wide (S.size store.old) command.now b) → IsTrue (S.is_held store.new b) }
    ensures asked { result ≢ Full → (b : ℕ) → IsTrue (is_read_wide (S.size store.old) command.now b) → IsTrue (S.is_coming store.new b) }
    ensures room { result ≢ Full → (b : ℕ) → IsTrue (is_changed_wide (S.size store.old) command.now b) → IsTrue (S.has_room store.new b) }
    ensures near { result ≡ Ready → (b : ℕ) → IsTrue (is_near_wide (S.size store.old) command.now b) → IsTrue (S.is_held store.new b) }
    ensures near_asked { result ≢ Full → (b : ℕ) → IsTrue (is_near_wide (S.size store.old) command.now b) → IsTrue (S.is_coming store.new b) }
    ensures idle { needs_wide (S.size store.old) command.now ≡ false → result ≡ Ready }
    ensures whole { is_some (S.storage store.old) ≡ false → result ≡ Ready }
    ensures blocks { (b : ℕ) → S.block_at store.new b ≡ S.block_at store.old b }
    ensures size { S.size store.new ≡ S.size store.old }
    ensures storage { S.storage store.new ≡ S.storage store.old }
    ensures held { (b : ℕ) → IsTrue (S.is_held store.old b) → IsTrue (S.is_held store.new b) }
    ensures coming { (b : ℕ) → IsTrue (S.is_coming store.old b) → IsTrue (S.is_coming store.new b) }
    ensures keeps_room { (b : ℕ) → IsTrue (S.has_room store.old b) → IsTrue (S.has_room store.new b) }
{
    match *command {
        WideCommand::GetLbaStatus { lba, .. } => {
            let blocks = looked_at(store.capacity(), lba);
            to_read(store, lba, blocks)
        }
        WideCommand::Verify { blocks, lba, .. } => to_read(store, lba, u32::from(blocks)),
        WideCommand::WriteZeros { blocks, lba } => to_write(store, lba, blocks),
        WideCommand::OrWrite { blocks, lba } => to_read_and_write(store, lba, u32::from(blocks)),
        _ => Readiness::Ready,
    }
}

/// Makes a store ready for a command: makes room for what the command may write over, and asks the host for each page
/// that it needs in memory and that isn't there, all of them at once. The blocks stay as they are. `Ready` where
/// [`exec`](crate::exec) may run. A store whose blocks are all in memory always is; so is any store for a command that needs
/// no block, since it names none or is refused.
pub fn make_ready<S: Store>(
    store: &mut S,
    command: &Command,
    out: &[u8],
    facts: &UnitFacts,
) -> Readiness
    requires data { (need_of command.now).out ≤ length out.now }
    ensures ready { result ≡ Ready → met command.now facts.now.pending ≡ None →
        IsFalse (protects facts.now command.now) →
        IsReady (S.is_held store.new) (S.has_room store.new) (S.size store.new) command.now (data_of command.now out.now) }
    ensures asked { result ≢ Full → met command.now facts.now.pending ≡ None →
        IsFalse (protects facts.now command.now) →
        IsReady (S.is_coming store.new) (S.has_room store.new) (S.size store.new) command.now (data_of command.now out.now) }
    ensures idle { needs (S.size store.old) command.now ≡ false → result ≡ Ready }
    ensures met { IsTrue (is_some (met command.now facts.now.pending)) → result ≡ Ready }
    ensures protected { IsTrue (protects facts.now command.now) → result ≡ Ready }
    ensures whole { is_some (S.storage store.old) ≡ false → result ≡ Ready }
    ensures blocks { (b : ℕ) → S.block_at store.new b ≡ S.block_at store.old b }
    ensures size { S.size store.new ≡ S.size store.old }
    ensures storage { S.storage store.new ≡ S.storage store.old }
    ensures held { (b : ℕ) → IsTrue (S.is_held store.old b) → IsTrue (S.is_held store.new b) }
{
    if met_attention(command, facts.pending).is_some() {
        return Readiness::Ready;
    }
    if is_protected(facts, command) {
        return Readiness::Ready;
    }
    let bytes = &out[..need(command).out as usize];
    match *command {
        Command::Read { lba, blocks } => to_read(store, lba, u32::from(blocks)),
        Command::Write { lba, blocks } => to_write(store, lba, u32::from(blocks)),
        Command::WriteSame { lba, blocks } => to_write(store, lba, blocks),
        Command::CompareAndWrite { lba, blocks } => {
            to_read_and_write(store, lba, u32::from(blocks))
        }
        Command::Unmap { .. } => to_unmap(store, bytes),
        Command::Wide(command) => to_run_wide(store, &command),
        _ => Readiness::Ready,
    }
}
