//! A READ whose data are taken from where they stand.

ghost use Rattle.std.specs.Prelude.{◌≡◌, ℕ, List, length, None, IfSome, IsFalse, IsTrue};
ghost use Rattle.cdb.specs.Need.{need_of};
ghost use Rattle.command_model.specs.Effects.{block_after};
ghost use Rattle.command_model.specs.PlainReply.{success};
ghost use Rattle.command_model.specs.Replies.{reply_of};
ghost use Rattle.command_model.specs.Statuses.{good};
ghost use Rattle.block_commands.specs.Inner.Told.{facts_of, protects};
ghost use Rattle.block_commands.specs.Inner.Ready.{is_read};

use crate::capacity::is_in_range;
use crate::facts::UnitFacts;
use backed_store::{BlocksInPlace, Disk};
use block_store::Store;
use cdb::Command;

/// Returns the data of a READ where they stand on the disk (SBC-3 §5.11), so that nothing is copied for its reply: that
/// is GOOD with these data. Its blocks lie below the capacity, and no attention is pending. `None` for every other
/// command, which [`exec`](crate::exec) runs once it is ready. A command that meets no attention is ready here, too, which
/// the caller sees to. Takes no memory.
#[inline(always)]
pub fn read_in_place<'a>(
    store: &'a Disk,
    command: &Command,
    facts: &UnitFacts,
) -> Option<BlocksInPlace<'a>>
    requires held { facts.now.pending ≡ None → IsFalse (protects facts.now command.now) → (b : ℕ) →
        IsTrue (is_read (⟦<Disk as Store>⟧.size store.now) command.now b)
        → IsTrue (⟦<Disk as Store>⟧.is_held store.now b) }
    ensures reply { IfSome result (λ found. (out : List ℕ) →
        reply_of (facts_of facts.now (⟦<Disk as Store>⟧.size store.now)) command.now out (⟦<Disk as Store>⟧.block_at store.now)
        ≡ success command.now found) }
    ensures blocks { IfSome result (λ found. (out : List ℕ) (b : ℕ) →
        block_after command.now out good (⟦<Disk as Store>⟧.block_at store.now) b ≡ ⟦<Disk as Store>⟧.block_at store.now b) }
    ensures sends { IfSome result (λ found. (need_of command.now).out ≡ 0) }
    ensures calm { IfSome result (λ found. facts.now.pending ≡ None) }
    ensures len { IfSome result (λ found. length found ≡ (need_of command.now).into) }
{
    if facts.pending.is_some() {
        return None;
    }
    match *command {
        Command::Read { lba, blocks } => {
            if !is_in_range(store.capacity(), lba, u32::from(blocks)) {
                return None;
            }
            Some(store.blocks_in_place(lba, u32::from(blocks)))
        }
        _ => None,
    }
}
