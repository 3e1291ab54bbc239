//! One command, run whole, with the pages of its write.

ghost use Rattle.std.specs.Prelude.{◌≡◌, ◌≤◌, ◌+◌, ℕ, [], length, vec_len, IfOk, IfSome, OnErr, IsTrue, IsFalse, IsSomeAnd, is_some, None, if◌then◌else◌};
ghost use Rattle.block_store.specs.Drafts.{prepared_draft};
ghost use Rattle.block_store.specs.Pages.{covered};
ghost use Rattle.cdb.specs.Need.{need_of};
ghost use Rattle.command_model.specs.Data.{data_of};
ghost use Rattle.command_model.specs.PlainReply.{plain_of, success};
ghost use Rattle.command_model.specs.Statuses.{good};
ghost use Rattle.command_model.specs.Attention.{met};
ghost use Rattle.command_model.specs.Capacity.{is_in_range};
ghost use Rattle.command_model.specs.Effects.{block_after};
ghost use Rattle.command_model.specs.Replies.{reply_of};
ghost use Rattle.block_commands.specs.Inner.Told.{facts_of, protects};
ghost use Rattle.command_model.specs.Memory.{may_want};
ghost use Rattle.block_commands.specs.Prepared.{IsOf};
ghost use Rattle.block_commands.specs.Inner.Ready.{IsReady};

use crate::attention::met_attention;
use crate::capacity::is_in_range;
use crate::disks::exec_on;
use crate::facts::UnitFacts;
use crate::protection::is_protected;
use backed_store::Disk;
use block_store::{Prepared, Store};
use cdb::{Command, need};
use command_model::Reply;
use foundation::NoMemory;
use std::alloc::Global;

/// Runs one command on a disk, whole, as [`exec_on`] does. `prepared` has the new pages of its write, if any. They are
/// installed where nothing beside the range has changed in them since; else the blocks are written as ever. Gives pages
/// back beside the reply: those that it replaced, or those of `prepared` where it didn't install them. So a caller that
/// holds a lock frees them after it.
#[inline(always)]
pub fn exec_prepared(
    alloc: Global,
    room: &mut Vec<u8>,
    store: &mut Disk,
    command: &Command,
    out: &[u8],
    facts: &UnitFacts,
    prepared: Option<Prepared>,
) -> Result<(Reply, Option<Prepared>), NoMemory>
    requires data { (need_of command.now).out ≤ length out.now }
    requires own { IfSome prepared (λ pages. IsOf command.now (data_of command.now out.now) (prepared_draft pages)) }
    requires ready { met command.now facts.now.pending ≡ None →
        IsFalse (protects facts.now command.now) →
        IsReady (⟦<Disk as Store>⟧.is_held store.old) (⟦<Disk as Store>⟧.has_room store.old) (⟦<Disk as Store>⟧.size store.old)
        command.now (data_of command.now out.now) }
    ensures reply { IfOk result (λ answer. plain_of answer.0
        ≡ reply_of (facts_of facts.now (⟦<Disk as Store>⟧.size store.old)) command.now (data_of command.now out.now)
        (⟦<Disk as Store>⟧.block_at store.old)) }
    ensures blocks { IfOk result (λ answer. (b : ℕ) → ⟦<Disk as Store>⟧.block_at store.new b
        ≡ block_after command.now (data_of command.now out.now) answer.0.status (⟦<Disk as Store>⟧.block_at store.old) b) }
    ensures room { IfOk result (λ answer. vec_len answer.0.payload ≤ (need_of command.now).into) }
    ensures back { IfOk result (λ answer. is_some answer.1 ≡ is_some prepared) }
    ensures want { OnErr result (IsTrue (may_want (facts_of facts.now (⟦<Disk as Store>⟧.size store.old)) command.now)) }
    ensures err { OnErr result ((b : ℕ) → ⟦<Disk as Store>⟧.block_at store.new b ≡ ⟦<Disk as Store>⟧.block_at store.old b) }
    ensures capacity { ⟦<Disk as Store>⟧.size store.new ≡ ⟦<Disk as Store>⟧.size store.old }
    ensures storage { ⟦<Disk as Store>⟧.storage store.new ≡ ⟦<Disk as Store>⟧.storage store.old }
{
    let (installed, back) = exchange(store, command, facts, prepared)?;
    if installed {
        return Ok((written(alloc, command), back));
    }
    let reply = exec_on(alloc, room, store, command, out, facts)?;
    Ok((reply, back))
}

/// Installs the pages of a command, if there are any and nothing stops it. Returns true if it did, and the pages
/// that come back.
fn exchange(
    store: &mut Disk,
    command: &Command,
    facts: &UnitFacts,
    prepared: Option<Prepared>,
) -> Result<(bool, Option<Prepared>), NoMemory>
    ensures installed { IfOk result (λ answer. IsTrue answer.0 → (met command.now facts.now.pending ≡ None)
        × IsFalse (protects facts.now command.now)
        × IsSomeAnd prepared (λ pages. IsTrue (is_in_range (⟦<Disk as Store>⟧.size store.old)
        (prepared_draft pages).first (prepared_draft pages).count)
        × ((b : ℕ) → ⟦<Disk as Store>⟧.block_at store.new b
        ≡ covered (⟦<Disk as Store>⟧.block_at store.old) (prepared_draft pages).blocks
        (prepared_draft pages).first (prepared_draft pages).count b))) }
    ensures otherwise { IfOk result (λ answer. IsFalse answer.0 → (b : ℕ) →
        ⟦<Disk as Store>⟧.block_at store.new b ≡ ⟦<Disk as Store>⟧.block_at store.old b) }
    ensures held { (b : ℕ) → IsTrue (⟦<Disk as Store>⟧.is_held store.old b) → IsTrue (⟦<Disk as Store>⟧.is_held store.new b) }
    ensures keeps_room { (b : ℕ) → IsTrue (⟦<Disk as Store>⟧.has_room store.old b) → IsTrue (⟦<Disk as Store>⟧.has_room store.new b) }
    ensures back { IfOk result (λ answer. is_some answer.1 ≡ is_some prepared) }
    ensures want { OnErr result ((met command.now facts.now.pending ≡ None)
        × IsSomeAnd prepared (λ pages. IsTrue (is_in_range (⟦<Disk as Store>⟧.size store.old)
        (prepared_draft pages).first (prepared_draft pages).count))) }
    ensures err { OnErr result ((b : ℕ) → ⟦<Disk as Store>⟧.block_at store.new b ≡ ⟦<Disk as Store>⟧.block_at store.old b) }
    ensures size { ⟦<Disk as Store>⟧.size store.new ≡ ⟦<Disk as Store>⟧.size store.old }
    ensures storage { ⟦<Disk as Store>⟧.storage store.new ≡ ⟦<Disk as Store>⟧.storage store.old }
{
    let Some(pages) = prepared else {
        return Ok((false, None));
    };
    if met_attention(command, facts.pending).is_some() {
        return Ok((false, Some(pages)));
    }
    if is_protected(facts, command) {
        return Ok((false, Some(pages)));
    }
    let (installed, back) = installs(store, pages)?;
    Ok((installed, Some(back)))
}

/// Makes GOOD with no data. The data that a command needs are counted in 32 bits.
fn written(alloc: Global, command: &Command) -> Reply
    ensures reply { plain_of result ≡ success command.now [] }
    ensures room { vec_len result.payload ≡ 0 }
    ensures status { result.status ≡ good }
{
    let _needed = need(command).out;
    Reply::success(command, Vec::new(alloc))
}

/// Installs the pages, where they lie below the capacity and nothing beside their range has changed in them. Returns
/// true if it did, and the pages that come back.
fn installs(store: &mut Disk, prepared: Prepared) -> Result<(bool, Prepared), NoMemory>
    ensures range { IfOk result (λ answer. IsTrue answer.0 →
        IsTrue (is_in_range (⟦<Disk as Store>⟧.size store.old) (prepared_draft prepared).first (prepared_draft prepared).count)) }
    ensures blocks { IfOk result (λ answer. (b : ℕ) → ⟦<Disk as Store>⟧.block_at store.new b
        ≡ (if answer.0 then covered (⟦<Disk as Store>⟧.block_at store.old)
        (prepared_draft prepared).blocks (prepared_draft prepared).first (prepared_draft prepared).count b
        else ⟦<Disk as Store>⟧.block_at store.old b)) }
    ensures want { OnErr result (IsTrue (is_in_range (⟦<Disk as Store>⟧.size store.old)
        (prepared_draft prepared).first (prepared_draft prepared).count)) }
    ensures err { OnErr result ((b : ℕ) → ⟦<Disk as Store>⟧.block_at store.new b ≡ ⟦<Disk as Store>⟧.block_at store.old b) }
    ensures size { ⟦<Disk as Store>⟧.size store.new ≡ ⟦<Disk as Store>⟧.size store.old }
    ensures storage { ⟦<Disk as Store>⟧.storage store.new ≡ ⟦<Disk as Store>⟧.storage store.old }
    ensures held { (b : ℕ) → IsTrue (⟦<Disk as Store>⟧.is_held store.old b) → IsTrue (⟦<Disk as Store>⟧.is_held store.new b) }
    ensures keeps_room { (b : ℕ) → IsTrue (⟦<Disk as Store>⟧.has_room store.old b) → IsTrue (⟦<Disk as Store>⟧.has_room store.new b) }
{
    if !is_in_range(store.capacity(), prepared.first(), prepared.count()) {
        return Ok((false, prepared));
    }
    store.install(prepared)
}
