//! Writing what answers a job into its chain.

ghost use Rattle.std.specs.Prelude.{◌≡◌, ◌+◌, ◌≤◌, ◌<◌, ◌-◌, ◌^◌, length, IfOk, IfSome};
ghost use Rattle.ring_core.specs.Parts.{writable_total};
ghost use Rattle.ring_core.specs.Writes.{Wrote, scatter_writes, stores_of};
ghost use Rattle.unit_model.specs.Endings.{answer_of, code_of};
ghost use Rattle.logical_unit.specs.Endings.{ending_of, ending_of_reply, ending_of_run, plain_run, FitsNeed};

use command_model::{BUSY, Reply};
use foundation::NoMemory;
use guest_mem::WritableMemory;
use logical_unit::{Outcome, Receipt};
use request_intake::{ChainLengths, DirectAnswer};
use responses::{write_direct, write_reply};
use ring_core::Chain;
use scsi_codec::{RESPONSE_BYTES, ResponseCode};
use unit_model::Reason;

/// Writes what came of a command: its reply, or BUSY where it was refused memory.
#[inline(always)]
pub(crate) fn write_run<M: WritableMemory>(
    memory: &mut M,
    chain: &Chain,
    lengths: &ChainLengths,
    ran: &Result<Reply, NoMemory>,
) -> u32
    requires fits { M.extent memory.old ≡ chain.now.memory }
    requires sum { lengths.now.readable + lengths.now.writable ≤ 2 ^ 32 }
    requires whole { lengths.now.writable ≡ writable_total chain.now.parts }
    requires room { RESPONSE_BYTES ≤ lengths.now.writable }
    requires less { lengths.now.writable < 2 ^ 32 }
    requires payload { IfOk ran.now (λ r. length r.payload.items ≤ lengths.now.writable - RESPONSE_BYTES) }
    ensures written { result ≡ length (answer_of lengths.now (ending_of_run (plain_run ran.now))) }
    ensures memory { Wrote (M.may_be memory.old) (M.may_be memory.new)
        (scatter_writes chain.now.parts 0 (answer_of lengths.now (ending_of_run (plain_run ran.now)))) }
    ensures stores { M.stored memory.new ≡ M.storing (M.stored memory.old)
        (stores_of (scatter_writes chain.now.parts 0 (answer_of lengths.now (ending_of_run (plain_run ran.now))))) }
    ensures size { M.extent memory.new ≡ M.extent memory.old }
{
    match ran {
        Ok(reply) => write_reply(memory, chain, lengths, reply),
        Err(NoMemory) => write_direct(memory, chain, &DirectAnswer::of_status(lengths, BUSY)),
    }
}

/// Returns the response code of a task that was marked (VIRTIO 1.2 §5.6.6.1).
fn code_of_reason(reason: Reason) -> ResponseCode
    ensures { result ≡ code_of reason }
{
    match reason {
        Reason::Aborted => ResponseCode::Aborted,
        Reason::Reset => ResponseCode::Reset,
    }
}

/// Writes what answers a job whose command ran: its reply, or FAILURE where the receipt lacks it.
fn write_receipt<M: WritableMemory>(
    memory: &mut M,
    chain: &Chain,
    lengths: &ChainLengths,
    receipt: &Receipt,
) -> u32
    requires fits { M.extent memory.old ≡ chain.now.memory }
    requires sum { lengths.now.readable + lengths.now.writable ≤ 2 ^ 32 }
    requires whole { lengths.now.writable ≡ writable_total chain.now.parts }
    requires room { RESPONSE_BYTES ≤ lengths.now.writable }
    requires less { lengths.now.writable < 2 ^ 32 }
    requires payload { IfSome receipt.now.reply (λ r. length r.payload ≤ lengths.now.writable - RESPONSE_BYTES) }
    ensures written { result ≡ length (answer_of lengths.now (ending_of_reply receipt.now.reply)) }
    ensures memory { Wrote (M.may_be memory.old) (M.may_be memory.new)
        (scatter_writes chain.now.parts 0 (answer_of lengths.now (ending_of_reply receipt.now.reply))) }
    ensures stores { M.stored memory.new ≡ M.storing (M.stored memory.old)
        (stores_of (scatter_writes chain.now.parts 0 (answer_of lengths.now (ending_of_reply receipt.now.reply)))) }
    ensures size { M.extent memory.new ≡ M.extent memory.old }
{
    match receipt.reply() {
        Some(reply) => write_reply(memory, chain, lengths, reply),
        None => write_direct(memory, chain, &DirectAnswer::failed(ResponseCode::Failure)),
    }
}

/// Writes what answers a job over the writable parts of its chain, by what came of its commit: how many bytes it has.
pub(crate) fn write_outcome<M: WritableMemory>(
    memory: &mut M,
    chain: &Chain,
    lengths: &ChainLengths,
    outcome: &Outcome,
) -> u32
    requires fits { M.extent memory.old ≡ chain.now.memory }
    requires sum { lengths.now.readable + lengths.now.writable ≤ 2 ^ 32 }
    requires whole { lengths.now.writable ≡ writable_total chain.now.parts }
    requires room { RESPONSE_BYTES ≤ lengths.now.writable }
    requires less { lengths.now.writable < 2 ^ 32 }
    requires payload { FitsNeed (lengths.now.writable - RESPONSE_BYTES) outcome.now }
    ensures written { result ≡ length (answer_of lengths.now (ending_of outcome.now)) }
    ensures memory { Wrote (M.may_be memory.old) (M.may_be memory.new)
        (scatter_writes chain.now.parts 0 (answer_of lengths.now (ending_of outcome.now))) }
    ensures stores { M.stored memory.new ≡ M.storing (M.stored memory.old)
        (stores_of (scatter_writes chain.now.parts 0 (answer_of lengths.now (ending_of outcome.now)))) }
    ensures size { M.extent memory.new ≡ M.extent memory.old }
{
    match outcome {
        Outcome::Reply(receipt) => write_receipt(memory, chain, lengths, receipt),
        Outcome::Aborted(reason) => {
            write_direct(
                memory,
                chain,
                &DirectAnswer::failed(code_of_reason(*reason)),
            )
        }
        Outcome::Busy => write_direct(memory, chain, &DirectAnswer::of_status(lengths, BUSY)),
        Outcome::Unknown => {
            write_direct(memory, chain, &DirectAnswer::failed(ResponseCode::Failure))
        }
    }
}
