//! One command, run whole on a disk.

ghost use Rattle.std.specs.Prelude.{◌≡◌, ◌≤◌, ℕ, length, vec_len, IfOk, OnErr, IsTrue, IsFalse, None};
ghost use Rattle.cdb.specs.Need.{need_of};
ghost use Rattle.command_model.specs.Data.{data_of};
ghost use Rattle.command_model.specs.PlainReply.{plain_of};
ghost use Rattle.command_model.specs.Effects.{block_after};
ghost use Rattle.command_model.specs.Memory.{may_want};
ghost use Rattle.command_model.specs.Replies.{reply_of};
ghost use Rattle.command_model.specs.Attention.{met};
ghost use Rattle.block_commands.specs.Inner.Told.{facts_of, protects};
ghost use Rattle.block_commands.specs.Inner.Ready.{IsReady};

use crate::execution::exec;
use crate::facts::UnitFacts;
use backed_store::Disk;
use block_store::Store;
use cdb::Command;
use command_model::Reply;
use foundation::NoMemory;
use std::alloc::Global;

/// Runs one command on a disk, whole, as [`exec`] does. What the host's storage has of it stays as it is.
#[inline(always)]
pub fn exec_on(
    alloc: Global,
    room: &mut Vec<u8>,
    disk: &mut Disk,
    command: &Command,
    out: &[u8],
    facts: &UnitFacts,
) -> Result<Reply, NoMemory>
    requires data { (need_of command.now).out ≤ length out.now }
    requires ready { met command.now facts.now.pending ≡ None →
        IsFalse (protects facts.now command.now) →
        IsReady (⟦<Disk as Store>⟧.is_held disk.old) (⟦<Disk as Store>⟧.has_room disk.old) (⟦<Disk as Store>⟧.size disk.old)
        command.now (data_of command.now out.now) }
    ensures reply { IfOk result (λ reply. plain_of reply
        ≡ reply_of (facts_of facts.now (⟦<Disk as Store>⟧.size disk.old)) command.now (data_of command.now out.now)
        (⟦<Disk as Store>⟧.block_at disk.old)) }
    ensures blocks { IfOk result (λ reply. (b : ℕ) → ⟦<Disk as Store>⟧.block_at disk.new b
        ≡ block_after command.now (data_of command.now out.now) reply.status (⟦<Disk as Store>⟧.block_at disk.old) b) }
    ensures room { IfOk result (λ reply. vec_len reply.payload ≤ (need_of command.now).into) }
    ensures want { OnErr result (IsTrue (may_want (facts_of facts.now (⟦<Disk as Store>⟧.size disk.old)) command.now)) }
    ensures err { OnErr result ((b : ℕ) → ⟦<Disk as Store>⟧.block_at disk.new b ≡ ⟦<Disk as Store>⟧.block_at disk.old b) }
    ensures capacity { ⟦<Disk as Store>⟧.size disk.new ≡ ⟦<Disk as Store>⟧.size disk.old }
    ensures storage { ⟦<Disk as Store>⟧.storage disk.new ≡ ⟦<Disk as Store>⟧.storage disk.old }
{
    match disk {
        Disk::Whole(store) => exec(alloc, room, store, command, out, facts),
        Disk::Backed(store) => exec(alloc, room, store, command, out, facts),
    }
}
