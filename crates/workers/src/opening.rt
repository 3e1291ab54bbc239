//! The parts of a device that is wanted, of which nothing has happened yet.

ghost use Rattle.std.specs.Prelude.{ℕ, ◌≡◌, ◌+◌, ◌*◌, ◌≤◌, true, false, [], length, slice_get, Some, vec_len, IfOk};
ghost use Rattle.unit_model.specs.Unit.{PlainUnit, is_backed};
ghost use Rattle.request_intake.specs.Inventory.{inventory_of};
ghost use Rattle.config.specs.Config.{is_config};
ghost use Rattle.lock_scopes.specs.Ledgers.{most_commits};

use config::Config;
use device_opening::{Opened, open_port};
use foundation::NoMemory;
use guest_mem::GuestMem;
use lock_scopes::{CountedUnit, KeptQueue, Part, Weighing};
use logical_unit::UnitState;
use std::alloc::Global;
use std::sync::Mutex;
use std::sync::ledger::{Book, Ledger, Share};
use worker_steps::Parts;

/// The rest of the two ledgers as units are opened: the parts that no unit has, and the book of the second. A unit is
/// given one of the second for each Commit that it may make.
#[derive(Drop)]
pub(crate) struct Ledgers<C: Ledger + Weighing, W: Ledger> {
    pub(crate) acts: Share<C>,
    pub(crate) receipts: Share<W>,
    pub(crate) book: Book<W>,
}

/// Puts units of which no step was taken, and whose disks aren't backed, under locks, each with its parts of the ledgers.
fn lock_units<C: Ledger + Weighing, W: Ledger>(
    alloc: Global,
    units: Vec<UnitState>,
    ledgers: &mut Ledgers<C, W>,
) -> Result<Vec<Mutex<CountedUnit<C, W>>>, NoMemory>
    requires fresh { (k : ℕ) (u : PlainUnit) → slice_get units.items k ≡ Some u → (u.steps ≡ []) × (is_backed u ≡ false) }
    requires of_acts { length units.items ≤ ledgers.old.acts.parts }
    requires of_receipts { length units.items ≤ ledgers.old.receipts.parts }
    requires new { (ledgers.old.acts.amount ≡ 0) × (ledgers.old.receipts.amount ≡ 0) × (ledgers.old.book.total ≡ 0) }
    ensures units { IfOk result (λ locked. vec_len locked ≡ length units.items) }
    ensures acts { IfOk result (λ locked. (ledgers.new.acts.parts + vec_len locked ≡ ledgers.old.acts.parts)
        × (ledgers.new.acts.amount ≡ 0)) }
    ensures receipts { IfOk result (λ locked. (ledgers.new.receipts.parts + vec_len locked ≡ ledgers.old.receipts.parts)
        × (ledgers.new.receipts.amount ≡ 0)) }
    ensures book { IfOk result (λ locked. ledgers.new.book.total ≡ vec_len locked * most_commits) }
{
    let mut locked = Vec::with_capacity(alloc, units.len())?;
    for unit in units {
        let acts = Part::new(ledgers.acts.split_off(1, 0));
        let mut share = ledgers.receipts.split_off(1, 0);
        ledgers.book.add(&mut share, u64::MAX);
        locked.push_reserved(Mutex::new(CountedUnit::new(unit, Part::new(share), acts)));
    }
    Ok(locked)
}

/// Opens the parts of the device of a valid configuration, with parts of the ledgers for each unit. Called once, where a
/// host is started. `NoMemory` where a growth was refused.
pub(crate) fn open_parts<C: Ledger + Weighing, W: Ledger>(
    alloc: Global,
    config: &Config,
    ledgers: &mut Ledgers<C, W>,
) -> Result<Parts<C, W>, NoMemory>
    requires valid { is_config config.now ≡ true }
    requires of_acts { length config.now.units.items ≤ ledgers.old.acts.parts }
    requires of_receipts { length config.now.units.items ≤ ledgers.old.receipts.parts }
    requires new { (ledgers.old.acts.amount ≡ 0) × (ledgers.old.receipts.amount ≡ 0) × (ledgers.old.book.total ≡ 0) }
    ensures acts { IfOk result (λ p. (ledgers.new.acts.parts + vec_len p.units ≡ ledgers.old.acts.parts)
        × (ledgers.new.acts.amount ≡ 0)) }
    ensures receipts { IfOk result (λ p. (ledgers.new.receipts.parts + vec_len p.units ≡ ledgers.old.receipts.parts)
        × (ledgers.new.receipts.amount ≡ 0)) }
    ensures book { IfOk result (λ p. ledgers.new.book.total ≡ vec_len p.units * most_commits) }
    ensures units { IfOk result (λ p. vec_len p.units ≡ length config.now.units.items) }
    ensures queues { IfOk result (λ p. vec_len p.queues ≡ length config.now.queues.items) }
    ensures few { IfOk result (λ p. vec_len p.queues ≤ 18) }
    ensures inventory { IfOk result (λ p. p.inventory ≡ inventory_of config.now.units.items) }
{
    let Ok(memory) = GuestMem::new(alloc, config.pages) else {
        return Err(NoMemory);
    };
    // Receipts are compared with the replies that units keep.
    let Opened {
        inventory,
        queues,
        units,
    } = device_opening::open_parts(alloc, config, &memory, true, |queue| {
        Mutex::new(KeptQueue::new(alloc, queue))
    })?;
    let units = lock_units(alloc, units, ledgers)?;
    let port = open_port(alloc)?;
    Ok(Parts {
        units,
        queues,
        memory: Mutex::new(memory),
        port: Mutex::new(port),
        inventory,
    })
}
