//! One command, run whole.

ghost use Rattle.std.specs.Prelude.{◌≡◌, ◌≤◌, ◌+◌, ◌<◌, ◌^◌, ℕ, length, vec_len, IfOk, OnOk, OnErr, unwrap_or, IsTrue, IsFalse, None};
ghost use Rattle.std.specs.Result.{ForOk};
ghost use Rattle.cdb.specs.Need.{need_of};
ghost use Rattle.command_model.specs.Data.{data_of};
ghost use Rattle.command_model.specs.PlainReply.{plain_of, refusal, sent_in};
ghost use Rattle.command_model.specs.Effects.{block_after, given};
ghost use Rattle.block_commands.specs.Inner.Told.{facts_of, protects, sense_told};
ghost use Rattle.command_model.specs.Memory.{may_want, wants};
ghost use Rattle.command_model.specs.Replies.{reply_of, answer_of};
ghost use Rattle.command_model.specs.Attention.{met};
ghost use Rattle.block_commands.specs.Inner.Steps.{Gives, Replies, Wants};
ghost use Rattle.block_commands.specs.Inner.Ready.{IsReady};

use crate::attention::met_attention;
use crate::capacity::{capacity_10, capacity_16};
use crate::compare::compare_and_write;
use crate::data::{cut, without_data};
use crate::facts::UnitFacts;
use crate::failure::Failure;
use crate::inquiry::inquiry;
use crate::luns::{listed_luns, lun_list};
use crate::protection::is_protected;
use crate::transfer::{read, synchronize, write, write_same};
use crate::unmap::unmap;
use crate::wide::wide;
use block_store::Store;
use cdb::{Command, need};
use command_model::Reply;
use foundation::NoMemory;
use sense::Sense;
use std::alloc::Global;

/// Runs one command on the blocks of a unit, whole.
///
/// `out` is what the driver sent. It has at least the bytes that the command needs, and only those are used. Where an
/// attention is pending, a command that meets it is answered with it and isn't run. The caller takes the attention from
/// its list where `takes_attention` says so. REQUEST SENSE takes it too, and returns it as data. Behind an attention a
/// read-only unit refuses each command that may change the medium.
///
/// Refuses only where memory for the data to the driver or for the store can't be had; the blocks are then as before.
/// The data of a READ take the room that is given, whatever stands there, in place of memory.
#[inline(always)]
pub fn exec<S: Store>(
    alloc: Global,
    room: &mut Vec<u8>,
    store: &mut S,
    command: &Command,
    out: &[u8],
    facts: &UnitFacts,
) -> Result<Reply, NoMemory>
    requires data { (need_of command.now).out ≤ length out.now }
    requires ready { met command.now facts.now.pending ≡ None →
        IsFalse (protects facts.now command.now) →
        IsReady (S.is_held store.old) (S.has_room store.old) (S.size store.old) command.now (data_of command.now out.now) }
    ensures reply { IfOk result (λ reply. plain_of reply
        ≡ reply_of (facts_of facts.now (S.size store.old)) command.now (data_of command.now out.now)
        (S.block_at store.old)) }
    ensures blocks { IfOk result (λ reply. (b : ℕ) → S.block_at store.new b
        ≡ block_after command.now (data_of command.now out.now) reply.status (S.block_at store.old) b) }
    ensures room { IfOk result (λ reply. vec_len reply.payload ≤ (need_of command.now).into) }
    ensures want { OnErr result (IsTrue (may_want (facts_of facts.now (S.size store.old)) command.now)) }
    ensures err { OnErr result ((b : ℕ) → S.block_at store.new b ≡ S.block_at store.old b) }
    ensures capacity { S.size store.new ≡ S.size store.old }
    ensures storage { S.storage store.new ≡ S.storage store.old }
{
    if let Some(attention) = met_attention(command, facts.pending) {
        return Ok(refused(alloc, facts, attention));
    }
    if is_protected(facts, command) {
        return Ok(refused(alloc, facts, Sense::WRITE_PROTECTED));
    }
    let bytes = &out[..need(command).out as usize];
    let answer = run(alloc, room, store, command, bytes, facts);
    replied(alloc, facts, command, answer)
}

/// Runs a command that nothing stops, on exactly the data that it needs. After an error nothing
/// is changed.
fn run<S: Store>(
    alloc: Global,
    room: &mut Vec<u8>,
    store: &mut S,
    command: &Command,
    bytes: &[u8],
    facts: &UnitFacts,
) -> Result<Vec<u8>, Failure>
    requires data { length bytes.now ≡ (need_of command.now).out }
    requires ready { IsReady (S.is_held store.old) (S.has_room store.old) (S.size store.old) command.now bytes.now }
    ensures answer { Gives (λ bytes. bytes.items)
        (answer_of (facts_of facts.now (S.size store.old)) command.now bytes.now (S.block_at store.old)) result }
    ensures ok { OnOk result ((b : ℕ) → S.block_at store.new b
        ≡ unwrap_or (given command.now bytes.now b (S.block_at store.old b)) (S.block_at store.old b)) }
    ensures err { OnErr result ((b : ℕ) → S.block_at store.new b ≡ S.block_at store.old b) }
    ensures size { S.size store.new ≡ S.size store.old }
    ensures storage { S.storage store.new ≡ S.storage store.old }
    ensures room { IfOk result (λ bytes. vec_len bytes ≤ (need_of command.now).into) }
    ensures want { Wants (wants (S.size store.old) command.now) result }
{
    match *command {
        Command::TestUnitReady => Ok(Vec::new(alloc)),
        Command::RequestSense { format, allocation } => {
            let sense = facts.pending.unwrap_or(Sense::NO_SENSE);
            Ok(cut(alloc, sense.to_bytes(format).as_slice(), allocation)?)
        }
        Command::Read { lba, blocks } => read(room, store, lba, blocks),
        Command::Write { lba, blocks } => without_data(alloc, write(store, lba, blocks, bytes)),
        Command::Inquiry { what, allocation } => {
            let identity = facts.identity_told();
            Ok(inquiry(
                alloc,
                facts.profile,
                &identity,
                what,
                facts.address,
                allocation,
            )?)
        }
        Command::ReadCapacity10 => {
            let data = capacity_10(store.capacity());
            Ok(Vec::from_slice(alloc, &data)?)
        }
        Command::ReadCapacity16 { allocation } => {
            let exponent = facts.identity_told().physical_exponent;
            Ok(cut(alloc, &capacity_16(store.capacity(), exponent), allocation)?)
        }
        Command::SynchronizeCache { lba, blocks } => {
            synchronize(store, lba, blocks)?;
            Ok(Vec::new(alloc))
        }
        Command::WriteSame { lba, blocks } => {
            without_data(alloc, write_same(store, lba, blocks, bytes))
        }
        Command::Unmap { .. } => {
            unmap(store, bytes)?;
            Ok(Vec::new(alloc))
        }
        Command::CompareAndWrite { lba, blocks } => {
            without_data(alloc, compare_and_write(alloc, store, lba, blocks, bytes))
        }
        Command::ReportLuns { select, allocation } => {
            Ok(lun_list(alloc, listed_luns(select, &facts.luns), allocation)?)
        }
        Command::Wide(command) => wide(
            alloc,
            store,
            facts.format_told(),
            facts.cache_told(),
            facts.read_only_told(),
            &command,
            bytes,
        ),
        Command::Bad { .. } => Err(Failure::Refused(Sense::INVALID_FIELD_IN_CDB)),
        Command::Unknown => Err(Failure::Refused(Sense::INVALID_OPCODE)),
    }
}

/// Returns the reply to a command that is refused with this sense data, in the format that the unit tells.
fn refused(alloc: Global, facts: &UnitFacts, sense: Sense) -> Reply
    ensures { plain_of result ≡ sent_in (sense_told facts.now) (refusal sense) }
{
    Reply::refusal(alloc, sense.in_format(facts.format_told()))
}

/// Returns the reply to a command that gave this data, or was refused.
#[inline(always)]
fn replied(
    alloc: Global,
    facts: &UnitFacts,
    command: &Command,
    answer: Result<Vec<u8>, Failure>,
) -> Result<Reply, NoMemory>
    requires { ForOk answer (λ bytes. (need_of command.now).out + vec_len bytes < 2 ^ 32) }
    ensures { Replies (λ bytes. bytes.items) (sense_told facts.now) command.now answer result }
{
    match answer {
        Ok(payload) => Ok(Reply::success(command, payload)),
        Err(Failure::Refused(sense)) => Ok(refused(alloc, facts, sense)),
        Err(Failure::WantOfMemory) => Err(NoMemory),
    }
}
