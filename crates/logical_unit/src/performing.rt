//! Running a command whole.

ghost use Rattle.std.specs.Prelude.{◌≡◌, ◌≢◌, ◌≤◌, ◌<◌, IfSome, if◌then◌else◌, length, true, IfOk, IfErr, OnErr, false, None, IsOk, IsTrue, IsFalse};
ghost use Rattle.std.specs.Option.{option_map};
ghost use Rattle.cdb.specs.Need.{need_of};
ghost use Rattle.command_model.specs.PlainReply.{plain_of};
ghost use Rattle.block_store.specs.Drafts.{prepared_draft};
ghost use Rattle.backed_store.specs.Disks.{is_backed, storage_of};
ghost use Rattle.block_store.specs.declared.readiness.Readiness.TheVariants.{Ready, Full};
ghost use Rattle.block_commands.specs.Prepared.{IsOf};
ghost use Rattle.block_commands.specs.Inner.Told.{facts_of, protects};
ghost use Rattle.block_commands.specs.Inner.Ready.{IsReady};
ghost use Rattle.command_model.specs.Waiting.{needs};
ghost use Rattle.command_model.specs.Attention.{met};
ghost use Rattle.sense.specs.Conditions.{unit_attention};
ghost use Rattle.unit_model.specs.Contents.{pending_at_start};
ghost use Rattle.unit_log.specs.Inner.Kept.{kept_reply};
ghost use Rattle.logical_unit.specs.Endings.{plain_run};
ghost use Rattle.logical_unit.specs.Inner.Performing.{Performs, Comes, performed_of, told, taken, unkept};
ghost use Rattle.block_store.specs.Storage.{IsLostIn};

use crate::failing::fail;
use crate::making_room::{OldestWaiting, forget, make_ready_for};
use backed_store::Disk;
use block_commands::{UnitFacts, exec_on, exec_prepared, takes_attention};
use block_store::{Prepared, Readiness, Store};
use cdb::Command;
use command_model::Reply;
use foundation::NoMemory;
use ring_core::Ticket;
use sense::Sense;
use std::alloc::{AllocError, Global};
use unit_attention::{Attentions, Code};
use unit_log::LONGEST_KEPT;

/// Returns what is pending before any command: POWER ON OR RESET (SAM-5 §5.14), but in a unit that is configured as
/// calm.
pub fn attentions_at_start(calm: bool) -> Attentions
    ensures { result ≡ pending_at_start calm }
{
    let mut attentions = Attentions::new();
    if !calm {
        attentions.raise(Code::POWER_ON_OR_RESET);
    }
    attentions
}

/// Makes sense data of a code, with the key UNIT ATTENTION.
fn sense_of(code: Code) -> Sense
    ensures { result ≡ unit_attention code.asc code.ascq }
{
    Sense::unit_attention(code.asc, code.ascq)
}

/// Puts what is pending first among the facts.
#[inline(always)]
pub fn tell_oldest(facts: &mut UnitFacts, attentions: &Attentions)
    ensures { facts.new ≡ told facts.old attentions.now }
{
    facts.pending = match attentions.peek() {
        Some(code) => Some(sense_of(code)),
        None => None,
    };
}

/// Clears what is pending first, where the command takes it.
#[inline(always)]
pub(crate) fn clear_oldest(attentions: &mut Attentions, command: &Command)
    ensures { attentions.new ≡ taken command.now attentions.old }
{
    if attentions.peek().is_some() && takes_attention(command) {
        let _ = attentions.take();
    }
}

/// Returns the reply again, to be kept: only one with data takes memory, as much as these are.
fn again(alloc: Global, reply: &Reply) -> Result<Reply, AllocError>
    ensures same { IfOk result (λ kept. plain_of kept ≡ plain_of reply.now) }
    ensures want { OnErr result (0 < length reply.now.payload.items) }
{
    let payload = if reply.payload.is_empty() {
        Vec::new(alloc)
    } else {
        Vec::from_slice(alloc, reply.payload.as_slice())?
    };
    Ok(Reply {
        status: reply.status,
        sense: reply.sense,
        payload,
        moved: reply.moved,
    })
}

/// Returns the reply again, where it isn't too long to be kept.
pub(crate) fn kept_of(alloc: Global, reply: &Reply) -> Result<Option<Reply>, AllocError>
    ensures same { IfOk result (λ kept. option_map plain_of kept ≡ kept_reply true (plain_of reply.now)) }
    ensures want { OnErr result (0 < length reply.now.payload.items) }
{
    if reply.payload.len() > LONGEST_KEPT {
        return Ok(None);
    }
    Ok(Some(again(alloc, reply)?))
}

/// The reply to a command that ran, and the same again where replies are kept and it isn't too long.
#[derive(Drop)]
pub struct Performed {
    /// The reply.
    pub reply: Reply,
    /// The same again, to be kept; `None` where it isn't kept.
    pub kept: Option<Reply>,
}

/// Puts what is pending first among the facts, and asks the host for each page that the command of a ticket needs and that
/// isn't in memory. The command has exactly the data that it takes. The blocks stay as they are. `Ready` where it may run;
/// so always on a disk that isn't backed. Where there is no room for its pages, others go from memory, but not those of the
/// command that has waited for the longest.
#[inline(always)]
pub(crate) fn ready_for(
    facts: &mut UnitFacts,
    attentions: &Attentions,
    store: &mut Disk,
    command: &Command,
    bytes: &[u8],
    oldest: &mut Option<OldestWaiting>,
    ticket: Ticket,
) -> Readiness
    requires data { length bytes.now ≡ (need_of command.now).out }
    ensures facts { facts.new ≡ told facts.old attentions.now }
    ensures ready { result ≡ Ready → met command.now (told facts.old attentions.now).pending ≡ None →
        IsFalse (protects (told facts.old attentions.now) command.now) →
        IsReady (⟦<Disk as Store>⟧.is_held store.new) (⟦<Disk as Store>⟧.has_room store.new) (⟦<Disk as Store>⟧.size store.new)
        command.now bytes.now }
    ensures asked { result ≢ Full → met command.now (told facts.old attentions.now).pending ≡ None →
        IsFalse (protects (told facts.old attentions.now) command.now) →
        IsReady (⟦<Disk as Store>⟧.is_coming store.new) (⟦<Disk as Store>⟧.has_room store.new) (⟦<Disk as Store>⟧.size store.new)
        command.now bytes.now }
    ensures idle { needs (⟦<Disk as Store>⟧.size store.old) command.now ≡ false → result ≡ Ready }
    ensures whole { is_backed store.old ≡ false → result ≡ Ready }
    ensures storage { ⟦<Disk as Store>⟧.storage store.new ≡ ⟦<Disk as Store>⟧.storage store.old }
    ensures blocks { ⟦<Disk as Store>⟧.block_at store.new ≡ ⟦<Disk as Store>⟧.block_at store.old }
    ensures size { ⟦<Disk as Store>⟧.size store.new ≡ ⟦<Disk as Store>⟧.size store.old }
{
    tell_oldest(facts, attentions);
    if store.is_resident() {
        return Readiness::Ready;
    }
    make_ready_for(facts, store, command, bytes, oldest, ticket)
}

/// Makes a disk ready for a command as [`ready_for`] does, where no command of its unit waits. Returns true if it may run.
#[inline(always)]
pub fn is_ready(
    facts: &mut UnitFacts,
    attentions: &Attentions,
    store: &mut Disk,
    command: &Command,
    bytes: &[u8],
    ticket: Ticket,
) -> bool
    requires data { length bytes.now ≡ (need_of command.now).out }
    ensures facts { facts.new ≡ told facts.old attentions.now }
    ensures ready { IsTrue result → met command.now (told facts.old attentions.now).pending ≡ None →
        IsFalse (protects (told facts.old attentions.now) command.now) →
        IsReady (⟦<Disk as Store>⟧.is_held store.new) (⟦<Disk as Store>⟧.has_room store.new) (⟦<Disk as Store>⟧.size store.new)
        command.now bytes.now }
    ensures whole { is_backed store.old ≡ false → IsTrue result }
    ensures storage { ⟦<Disk as Store>⟧.storage store.new ≡ ⟦<Disk as Store>⟧.storage store.old }
    ensures blocks { ⟦<Disk as Store>⟧.block_at store.new ≡ ⟦<Disk as Store>⟧.block_at store.old }
    ensures size { ⟦<Disk as Store>⟧.size store.new ≡ ⟦<Disk as Store>⟧.size store.old }
{
    match ready_for(facts, attentions, store, command, bytes, &mut None, ticket) {
        Readiness::Ready => true,
        Readiness::Asked | Readiness::Full => false,
    }
}

/// Runs a command, with exactly the data that it takes, on the blocks of its unit, whose facts have what is pending; its
/// reply is kept nowhere. The unit calls it, in the hold of its lock. `NoMemory` where memory was refused, with blocks
/// and attentions as before.
#[inline(always)]
pub fn run(
    alloc: Global,
    room: &mut Vec<u8>,
    facts: &UnitFacts,
    attentions: &mut Attentions,
    store: &mut Disk,
    command: &Command,
    bytes: &[u8],
) -> Result<Reply, NoMemory>
    requires data { length bytes.now ≡ (need_of command.now).out }
    requires ready { met command.now facts.now.pending ≡ None →
        IsFalse (protects facts.now command.now) →
        IsReady (⟦<Disk as Store>⟧.is_held store.old) (⟦<Disk as Store>⟧.has_room store.old) (⟦<Disk as Store>⟧.size store.old)
        command.now bytes.now }
    ensures performed { Performs false (facts_of facts.now (⟦<Disk as Store>⟧.size store.old))
        command.now bytes.now (unkept (plain_run result))
        (⟦<Disk as Store>⟧.block_at store.old) (⟦<Disk as Store>⟧.block_at store.new) attentions.old attentions.new }
    ensures size { ⟦<Disk as Store>⟧.size store.new ≡ ⟦<Disk as Store>⟧.size store.old }
    ensures storage { ⟦<Disk as Store>⟧.storage store.new ≡ ⟦<Disk as Store>⟧.storage store.old }
    ensures fits { IfOk result (λ r. length r.payload.items ≤ (need_of command.now).into) }
{
    let ran = exec_on(alloc, room, store, command, bytes, facts);
    if ran.is_ok() {
        clear_oldest(attentions, command);
    }
    ran
}

/// Runs a command as [`run`] does, with the new pages of its write, if they were prepared. The pages that aren't used
/// any more come to stand in `spare`, so that they are freed behind the hold of its unit's lock.
#[inline(always)]
fn run_prepared(
    alloc: Global,
    room: &mut Vec<u8>,
    facts: &UnitFacts,
    attentions: &mut Attentions,
    store: &mut Disk,
    command: &Command,
    bytes: &[u8],
    prepared: Option<Prepared>,
    spare: &mut Option<Prepared>,
) -> Result<Reply, NoMemory>
    requires data { length bytes.now ≡ (need_of command.now).out }
    requires own { IfSome prepared (λ pages. IsOf command.now bytes.now (prepared_draft pages)) }
    requires ready { met command.now facts.now.pending ≡ None →
        IsFalse (protects facts.now command.now) →
        IsReady (⟦<Disk as Store>⟧.is_held store.old) (⟦<Disk as Store>⟧.has_room store.old) (⟦<Disk as Store>⟧.size store.old)
        command.now bytes.now }
    ensures performed { Performs false (facts_of facts.now (⟦<Disk as Store>⟧.size store.old))
        command.now bytes.now (unkept (plain_run result))
        (⟦<Disk as Store>⟧.block_at store.old) (⟦<Disk as Store>⟧.block_at store.new) attentions.old attentions.new }
    ensures size { ⟦<Disk as Store>⟧.size store.new ≡ ⟦<Disk as Store>⟧.size store.old }
    ensures storage { ⟦<Disk as Store>⟧.storage store.new ≡ ⟦<Disk as Store>⟧.storage store.old }
    ensures fits { IfOk result (λ r. length r.payload.items ≤ (need_of command.now).into) }
{
    let (reply, back) = exec_prepared(alloc, room, store, command, bytes, facts, prepared)?;
    *spare = back;
    clear_oldest(attentions, command);
    Ok(reply)
}

/// Runs a command as [`run`] does, with the new pages of its write. Copies the reply too, where replies are kept and it
/// isn't too long. `None`, with blocks and attentions as before, where memory was refused to the command or to that
/// copy.
#[inline(always)]
pub fn perform(
    alloc: Global,
    room: &mut Vec<u8>,
    facts: &UnitFacts,
    attentions: &mut Attentions,
    store: &mut Disk,
    command: &Command,
    bytes: &[u8],
    prepared: Option<Prepared>,
    spare: &mut Option<Prepared>,
    keeps_replies: bool,
) -> Option<Performed>
    requires data { length bytes.now ≡ (need_of command.now).out }
    requires own { IfSome prepared (λ pages. IsOf command.now bytes.now (prepared_draft pages)) }
    requires ready { met command.now facts.now.pending ≡ None →
        IsFalse (protects facts.now command.now) →
        IsReady (⟦<Disk as Store>⟧.is_held store.old) (⟦<Disk as Store>⟧.has_room store.old) (⟦<Disk as Store>⟧.size store.old)
        command.now bytes.now }
    ensures performed { Performs keeps_replies (facts_of facts.now (⟦<Disk as Store>⟧.size store.old))
        command.now bytes.now (option_map performed_of result)
        (⟦<Disk as Store>⟧.block_at store.old) (⟦<Disk as Store>⟧.block_at store.new) attentions.old attentions.new }
    ensures size { ⟦<Disk as Store>⟧.size store.new ≡ ⟦<Disk as Store>⟧.size store.old }
    ensures storage { ⟦<Disk as Store>⟧.storage store.new ≡ ⟦<Disk as Store>⟧.storage store.old }
    ensures fits { IfSome result (λ p. length p.reply.payload.items ≤ (need_of command.now).into) }
{
    if !keeps_replies {
        let reply = run_prepared(
            alloc, room, facts, attentions, store, command, bytes, prepared, spare,
        )
        .ok()?;
        return Some(Performed { reply, kept: None });
    }
    let (reply, back) = exec_prepared(alloc, room, store, command, bytes, facts, prepared).ok()?;
    *spare = back;
    // A reply with data is that of a command that changes no block.
    let kept = kept_of(alloc, &reply).ok()?;
    clear_oldest(attentions, command);
    Some(Performed { reply, kept })
}

/// Runs the command of a ticket as [`perform`] does, if what it needs of the disk is in memory. Else it waits, with blocks and
/// attentions as before: `Asked` where the host is asked for each page at once, `Full` where there is no room for all.
#[inline(always)]
fn perform_in_memory(
    alloc: Global,
    room: &mut Vec<u8>,
    facts: &mut UnitFacts,
    attentions: &mut Attentions,
    store: &mut Disk,
    command: &Command,
    bytes: &[u8],
    prepared: Option<Prepared>,
    spare: &mut Option<Prepared>,
    keeps_replies: bool,
    oldest: &mut Option<OldestWaiting>,
    ticket: Ticket,
) -> Result<Option<Performed>, Readiness>
    requires data { length bytes.now ≡ (need_of command.now).out }
    requires own { IfSome prepared (λ pages. IsOf command.now bytes.now (prepared_draft pages)) }
    ensures performed { IfOk result (λ ran. Performs keeps_replies
        (facts_of (told facts.old attentions.old) (⟦<Disk as Store>⟧.size store.old))
        command.now bytes.now (option_map performed_of ran)
        (⟦<Disk as Store>⟧.block_at store.old) (⟦<Disk as Store>⟧.block_at store.new) attentions.old attentions.new) }
    ensures waits { OnErr result ((⟦<Disk as Store>⟧.block_at store.new ≡ ⟦<Disk as Store>⟧.block_at store.old)
        × (attentions.new ≡ attentions.old)) }
    ensures backed { OnErr result (is_backed store.old ≡ true) }
    ensures needed { OnErr result (needs (⟦<Disk as Store>⟧.size store.old) command.now ≡ true) }
    ensures asked { IfErr result (λ why. why ≢ Full → met command.now (told facts.old attentions.old).pending ≡ None →
        IsFalse (protects (told facts.old attentions.old) command.now) →
        IsReady (⟦<Disk as Store>⟧.is_coming store.new) (⟦<Disk as Store>⟧.has_room store.new) (⟦<Disk as Store>⟧.size store.new)
        command.now bytes.now) }
    ensures whole { is_backed store.old ≡ false → IsOk result }
    ensures facts { facts.new ≡ told facts.old attentions.old }
    ensures size { ⟦<Disk as Store>⟧.size store.new ≡ ⟦<Disk as Store>⟧.size store.old }
    ensures storage { ⟦<Disk as Store>⟧.storage store.new ≡ ⟦<Disk as Store>⟧.storage store.old }
    ensures fits { IfOk result (λ ran. IfSome ran (λ p. length p.reply.payload.items ≤ (need_of command.now).into)) }
{
    match ready_for(facts, attentions, store, command, bytes, oldest, ticket) {
        Readiness::Ready => Ok(perform(
            alloc,
            room,
            facts,
            attentions,
            store,
            command,
            bytes,
            prepared,
            spare,
            keeps_replies,
        )),
        Readiness::Asked => Err(Readiness::Asked),
        Readiness::Full => Err(Readiness::Full),
    }
}

/// Runs the command of a ticket as [`perform`] does, if what it needs of the disk is in memory. Where it needs a page that the
/// host can't read, it ends with MEDIUM ERROR, and changes no block. Else it waits, with blocks and attentions as before:
/// `Asked` where the host is asked for each page at once, `Full` where there is no room for all.
#[inline(always)]
pub(crate) fn perform_if_ready(
    alloc: Global,
    room: &mut Vec<u8>,
    facts: &mut UnitFacts,
    attentions: &mut Attentions,
    store: &mut Disk,
    command: &Command,
    bytes: &[u8],
    prepared: Option<Prepared>,
    spare: &mut Option<Prepared>,
    keeps_replies: bool,
    oldest: &mut Option<OldestWaiting>,
    ticket: Ticket,
) -> Result<Option<Performed>, Readiness>
    requires data { length bytes.now ≡ (need_of command.now).out }
    requires own { IfSome prepared (λ pages. IsOf command.now bytes.now (prepared_draft pages)) }
    ensures performed { IfOk result (λ ran. Comes keeps_replies
        (facts_of (told facts.old attentions.old) (⟦<Disk as Store>⟧.size store.old)) (IsLostIn (storage_of store.old))
        command.now bytes.now (option_map performed_of ran)
        (⟦<Disk as Store>⟧.block_at store.old) (⟦<Disk as Store>⟧.block_at store.new) attentions.old attentions.new) }
    ensures waits { OnErr result ((⟦<Disk as Store>⟧.block_at store.new ≡ ⟦<Disk as Store>⟧.block_at store.old)
        × (attentions.new ≡ attentions.old)) }
    ensures backed { OnErr result (is_backed store.old ≡ true) }
    ensures needed { OnErr result (needs (⟦<Disk as Store>⟧.size store.old) command.now ≡ true) }
    ensures asked { IfErr result (λ why. why ≢ Full → met command.now (told facts.old attentions.old).pending ≡ None →
        IsFalse (protects (told facts.old attentions.old) command.now) →
        IsReady (⟦<Disk as Store>⟧.is_coming store.new) (⟦<Disk as Store>⟧.has_room store.new) (⟦<Disk as Store>⟧.size store.new)
        command.now bytes.now) }
    ensures whole { is_backed store.old ≡ false → IsOk result }
    ensures facts { facts.new ≡ told facts.old attentions.old }
    ensures size { ⟦<Disk as Store>⟧.size store.new ≡ ⟦<Disk as Store>⟧.size store.old }
    ensures storage { ⟦<Disk as Store>⟧.storage store.new ≡ ⟦<Disk as Store>⟧.storage store.old }
    ensures fits { IfOk result (λ ran. IfSome ran (λ p. length p.reply.payload.items ≤ (need_of command.now).into)) }
{
    let ran = perform_in_memory(
        alloc,
        room,
        facts,
        attentions,
        store,
        command,
        bytes,
        prepared,
        spare,
        keeps_replies,
        oldest,
        ticket,
    );
    match ran {
        Ok(performed) => Ok(performed),
        Err(why) => match fail(
            alloc,
            facts,
            attentions,
            store,
            command,
            bytes,
            keeps_replies,
        ) {
            Some(failed) => {
                forget(oldest, ticket);
                Ok(Some(failed))
            }
            None => Err(why),
        },
    }
}
