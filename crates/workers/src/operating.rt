//! The operator's acts on the units of a host.

ghost use Rattle.std.specs.Prelude.{◌≡◌, ◌<◌, true, vec_len, slice_get, IfOk, IfErr, OnOk, OnErr, if◌then◌else◌};
ghost use Rattle.std.specs.Bool.{OnTrue};
ghost use Rattle.handoff.specs.Seats.{IsSeatOf, IsSameSeat};
ghost use Rattle.unit_model.specs.Contents.{is_capacity};
ghost use Rattle.lock_scopes.specs.Acts.{acts_with, reset_of, resize_of};
ghost use Rattle.workers.specs.Resetting.{WasReset};
ghost use Rattle.workers.specs.Resizing.{ResizeFails, WasResized};

use event_queue::WaitingEvents;
use lock_scopes::{Acts, Gate, Weighing, hard_on, resize_on};
use logical_unit::is_capacity;
use phases::{ResetFault, ResizeFault};
use std::sync::Wait;
use std::sync::ledger::Ledger;
use worker_steps::{Post, Shared, drain, raise};

/// Resets a unit, in one hold of its lock, which is an act. Returns true if it did: not where the list has no room for
/// the jobs that this releases. It fails as the phase does.
fn reset_one<R: Wait, G: Gate + Drop, C: Ledger + Weighing, W: Ledger>(
    rt: &R,
    shared: &Shared<G, C, W>,
    at: usize,
    acts: &mut Acts<C>,
    post: &mut Post<W>,
    waiting: &mut WaitingEvents,
) -> Result<bool, ResetFault>
    requires at { at < vec_len shared.now.units }
    ensures made { IfOk result (λ was. acts.new
        ≡ (if was then acts_with (reset_of (slice_get shared.now.inventory.addresses at)) acts.old else acts.old)) }
    ensures none { OnErr result (acts.new ≡ acts.old) }
    ensures reset { IfOk result (λ was. OnTrue was (WasReset shared.now.inventory at)) }
    ensures seat { post.new.seat ≡ post.old.seat }
{
    match hard_on(
        rt,
        shared.units.as_slice(),
        at,
        &shared.inventory,
        acts,
        &mut post.out,
        waiting,
    ) {
        Ok(was_reset) => Ok(was_reset),
        Err(fault) => Err(fault),
    }
}

/// Resets a unit for the operator, and tells the guest. Serves first what the operator's seat had. A unit that isn't
/// there changes nothing. `NoMemory` where a growth was refused, `WrongUnit` where another unit stands there than the
/// inventory names: the unit wasn't reset then. It may wait, and run commands.
pub(crate) fn reset<R: Wait, G: Gate + Drop, C: Ledger + Weighing, W: Ledger>(
    rt: &R,
    shared: &Shared<G, C, W>,
    at: usize,
    acts: &mut Acts<C>,
    post: &mut Post<W>,
    waiting: &mut WaitingEvents,
) -> Result<(), ResetFault>
    requires seat { IsSeatOf shared.now.handoff post.old.seat }
    ensures seat { IsSameSeat post.old.seat post.new.seat }
    ensures made { OnOk result (at < vec_len shared.now.units →
        acts.new ≡ acts_with (reset_of (slice_get shared.now.inventory.addresses at)) acts.old) }
    ensures absent { OnOk result ((at < vec_len shared.now.units → ⊥) → acts.new ≡ acts.old) }
    ensures none { OnErr result (acts.new ≡ acts.old) }
    ensures reset { OnOk result (at < vec_len shared.now.units → WasReset shared.now.inventory at) }
    ensures there { OnErr result (at < vec_len shared.now.units) }
{
    drain(rt, shared, post);
    if at >= shared.units.len() {
        return Ok(());
    }
    if !post.is_idle() {
        return Err(ResetFault::NoMemory);
    }
    if !reset_one(rt, shared, at, acts, post, waiting)? {
        return Err(ResetFault::NoMemory);
    }
    raise(rt, shared, waiting);
    drain(rt, shared, post);
    Ok(())
}

/// Gives a unit so many blocks, in one hold of its lock, which is an act. Answers as the phase does.
fn resize_one<R: Wait, G: Gate + Drop, C: Ledger + Weighing, W: Ledger>(
    rt: &R,
    shared: &Shared<G, C, W>,
    at: usize,
    blocks: u64,
    told: bool,
    acts: &mut Acts<C>,
    waiting: &mut WaitingEvents,
) -> Result<bool, ResizeFault>
    requires at { at < vec_len shared.now.units }
    requires capacity { is_capacity blocks ≡ true }
    ensures made { IfOk result (λ was. acts.new
        ≡ (if was then acts_with (resize_of blocks told (slice_get shared.now.inventory.addresses at)) acts.old else acts.old)) }
    ensures none { OnErr result (acts.new ≡ acts.old) }
    ensures resized { IfOk result (λ was. OnTrue was (WasResized shared.now.inventory at blocks told)) }
    ensures cause { IfErr result (λ fault. ResizeFails blocks fault) }
{
    match resize_on(
        rt,
        shared.units.as_slice(),
        at,
        &shared.inventory,
        acts,
        blocks,
        told,
        waiting,
    ) {
        Ok(was_resized) => Ok(was_resized),
        Err(fault) => Err(fault),
    }
}

/// Gives a unit so many blocks for the operator, and tells the guest where it asked for that. A unit that isn't there
/// changes nothing. `BadCapacity` where no unit may have so many blocks, `NoMemory` where a growth was refused,
/// `WrongUnit` where another unit stands there than the inventory names: the unit wasn't resized then.
pub(crate) fn resize<R: Wait, G: Gate + Drop, C: Ledger + Weighing, W: Ledger>(
    rt: &R,
    shared: &Shared<G, C, W>,
    at: usize,
    blocks: u64,
    told: bool,
    acts: &mut Acts<C>,
    waiting: &mut WaitingEvents,
) -> Result<(), ResizeFault>
    ensures made { OnOk result (at < vec_len shared.now.units →
        acts.new ≡ acts_with (resize_of blocks told (slice_get shared.now.inventory.addresses at)) acts.old) }
    ensures absent { OnOk result ((at < vec_len shared.now.units → ⊥) → acts.new ≡ acts.old) }
    ensures none { OnErr result (acts.new ≡ acts.old) }
    ensures good { OnOk result (is_capacity blocks ≡ true) }
    ensures resized { OnOk result (at < vec_len shared.now.units → WasResized shared.now.inventory at blocks told) }
    ensures cause { IfErr result (λ fault. ResizeFails blocks fault) }
{
    if !is_capacity(blocks) {
        return Err(ResizeFault::BadCapacity);
    }
    if shared.units.len() <= at {
        return Ok(());
    }
    if !resize_one(rt, shared, at, blocks, told, acts, waiting)? {
        return Err(ResizeFault::NoMemory);
    }
    raise(rt, shared, waiting);
    Ok(())
}
