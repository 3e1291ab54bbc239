//! The views that a unit gives of itself.

use crate::changes::Changes;
use crate::outcomes::Receipt;
use crate::unit::{Place, UnitState};
use block_store::Store;
use cdb::Profile;
use command_model::Identity;
use foundation::NoMemory;
use ring_core::Ticket;
use scsi_codec::Address;
use std::mem;
use unit_attention::Code;
use unit_log::StepKind;
use unit_model::{Counts, Rule};

impl UnitState {
    ghost use Rattle.unit_model.specs.Unit.{is_backed};
    ghost use Rattle.std.specs.Prelude.{◌≡◌, ◌+◌, ◌*◌, ◌≢◌, ◌<◌, ◌≤◌, ◌⊎◌, ◌++◌, true, length, slice_get, OnOk, OnErr, IsTrue, IsFalse, ◌↔◌};
    ghost use Rattle.std.specs.Option.{option_map};
    ghost use Rattle.block_store.specs.Blocks.{run};
    ghost use Rattle.unit_model.specs.Steps.{alive};
    ghost use Rattle.unit_model.specs.Seen.{any_met};
    ghost use Rattle.unit_model.specs.Clearing.{is_clear};
    ghost use Rattle.unit_model.specs.Contents.{blocks_of, capacity_of, pending_of};
    ghost use Rattle.unit_model.specs.Counts.{counts_of};
    ghost use Rattle.unit_model.specs.Base.{base_of, kept_at};
    ghost use Rattle.unit_model.specs.Receipts.{IsConfirmed, step_at, unit_address};
    ghost use Rattle.unit_log.specs.Kept.{kind_of};
    ghost use Rattle.unit_log.specs.Runs.{committed_one};
    ghost use Rattle.logical_unit.specs.Changes.{AreUnchanged};

    /// Returns true if the unit has this address. A function and the operator name the unit that they come to by it.
    pub fn has_address(&self, address: Address) -> bool
        ensures yes { IsTrue result → address ≡ unit_address self.now.opening }
        ensures no { IsFalse result → address ≢ unit_address self.now.opening }
    {
        address.target == self.facts.address.target && address.lun == self.facts.address.lun
    }

    /// Returns true if all tasks that were alive at the step of this place and met by it, done or not, have left. A
    /// step that is no Abort and no Reset met none. It takes no memory.
    pub fn clear_of(&self, place: Place) -> bool
        ensures { result ≡ is_clear place self.now.steps }
    {
        match self.log.rule_at(place) {
            Some(rule) => !self.tasks.is_met_before(place, rule),
            None => true,
        }
    }

    /// Returns true if the Commit of a receipt stands at its place in this unit's history, with its reply where both
    /// have one: the receipt, and the unit where it still keeps it. It takes no memory. A unit that keeps no replies
    /// knows no Commits of folded steps: there the place is asked for that isn't folded.
    pub fn confirm(&self, receipt: &Receipt) -> bool
        requires { (self.now.keeps_replies ≡ true) ⊎ (base_of self.now.steps ≤ receipt.now.place) }
        ensures { IsTrue result ↔ IsConfirmed self.now.opening self.now.keeps_replies self.now.steps receipt.now }
    {
        let unit = receipt.unit();
        unit.target == self.facts.address.target
            && unit.lun == self.facts.address.lun
            && self
                .log
                .has_commit(receipt.place(), receipt.ticket(), receipt.reply())
    }

    /// Returns the ticket of the Commit at a place; `None` where another step stands, or none yet. It takes no memory.
    /// A unit that keeps no replies knows no Commits of folded steps: there the place is asked for that isn't folded.
    pub fn commit_at(&self, place: Place) -> Option<Ticket>
        requires { (self.now.keeps_replies ≡ true) ⊎ (base_of self.now.steps ≤ place) }
        ensures { result ≡ committed_one (option_map kind_of (step_at place self.now.steps)) }
    {
        self.log.commit_at(place)
    }

    /// Returns true if a task that the rule meets is alive. It takes no memory.
    pub fn is_alive(&self, rule: Rule) -> bool
        ensures { result ≡ any_met rule (alive self.now.steps) }
    {
        self.tasks.is_met(rule)
    }

    /// Returns how many tasks are alive, at most 64.
    pub fn alive_count(&self) -> usize
        ensures { result ≡ length (alive self.now.steps) }
    {
        self.tasks.len()
    }

    /// Returns the ticket of a task that is alive, by its index in the order of entry; `None` where fewer are alive.
    pub fn alive_ticket(&self, index: usize) -> Option<Ticket>
        ensures { result ≡ option_map (λ e. e.ticket) (slice_get (alive self.now.steps) index) }
    {
        self.tasks.ticket_at(index)
    }

    /// Returns whether the unit keeps the replies of its Commits, and with them which folded steps are Commits.
    pub fn keeps_replies(&self) -> bool
        ensures { result ≡ self.now.keeps_replies }
    {
        self.log.keeps_replies()
    }

    /// Returns how many steps its history has.
    pub fn steps(&self) -> u64
        ensures { result ≡ length self.now.steps }
    {
        self.log.len()
    }

    /// Returns how much the unit did since it opened, by the steps of its history.
    pub fn counts(&self) -> Counts
        ensures { result ≡ counts_of self.now.steps }
    {
        self.log.counts()
    }

    /// Returns how many of them are folded: the oldest.
    pub fn base(&self) -> u64
        ensures { result ≡ base_of self.now.steps }
    {
        self.log.base()
    }

    /// Returns what the step at a place is; `None` where it is folded, or there is none yet.
    pub fn step(&self, place: Place) -> Option<StepKind>
        ensures { result ≡ option_map kind_of (kept_at place self.now.steps) }
    {
        self.log.kind_at(place)
    }

    /// Returns its target, 0 to 255.
    pub fn target(&self) -> u8
        ensures { result ≡ self.now.opening.target }
    {
        self.facts.address.target
    }

    /// Returns its LUN, 0 to 16,383.
    pub fn lun(&self) -> u16
        ensures { result ≡ self.now.opening.lun }
    {
        self.facts.address.lun
    }

    /// Returns the profile of its commands.
    pub fn profile(&self) -> Profile
        ensures { result ≡ self.now.opening.profile }
    {
        self.facts.profile
    }

    /// Returns what its configuration says of it.
    pub fn identity(&self) -> Identity
        ensures { result ≡ self.now.opening.identity }
    {
        self.facts.identity
    }

    /// Returns how many blocks it opened with.
    pub fn opening_blocks(&self) -> u64
        ensures { result ≡ self.now.opening.blocks }
    {
        self.opening_blocks
    }

    /// Returns true if its disk is backed: the host's storage has the pages that aren't in memory, and commands may wait.
    pub fn is_backed(&self) -> bool
        ensures { result ≡ is_backed self.now }
    {
        !self.store.is_resident()
    }

    /// Returns its capacity in blocks of 512 bytes.
    pub fn capacity(&self) -> u64
        ensures { result ≡ capacity_of self.now.opening self.now.steps }
    {
        self.store.capacity()
    }

    /// Returns the codes of the unit attention conditions that are pending, the oldest first (SAM-5 §5.14).
    pub fn pending(&self) -> &[Code]
        ensures { result.now ≡ pending_of self.now.opening self.now.steps }
    {
        self.attentions.as_slice()
    }

    /// Returns which blocks may have changed, and starts anew. A host calls it to write a disk through to its file, and
    /// keeps the place of the history at the call, [`UnitState::steps`]. If [`Changes::since`] of the next call is at
    /// most that place, only the ranges of that call have to be written, and only below the capacity. Else each block
    /// of the disk has to be. It takes no memory.
    pub fn take_changes(&mut self) -> Changes
        ensures unit { self.new ≡ self.old }
        ensures past { result.since ≤ length self.old.steps }
        ensures unchanged { AreUnchanged self.old result }
    {
        mem::replace(&mut self.changes, Changes::since_place(self.log.len()))
    }

    /// Appends the bytes of `count` blocks from `first` on, 512 of each, as its commands left them. All of them lie
    /// below the capacity. `NoMemory`, with the list as it was, where that can't grow. So it answers for any block of a
    /// backed disk, whose pages may be absent.
    pub fn read_blocks(&self, first: u64, count: u32, into: &mut Vec<u8>) -> Result<(), NoMemory>
        requires { first + count ≤ capacity_of self.now.opening self.now.steps }
        ensures ok { OnOk result (into.new.items ≡ into.old.items ++ run (blocks_of self.now.opening self.now.steps) first count) }
        ensures len { OnOk result (length into.new.items ≡ length into.old.items + 512 * count) }
        ensures err { OnErr result (into.new.items ≡ into.old.items) }
        ensures want { OnErr result (0 < count) }
    {
        if self.is_backed() && count > 0 {
            return Err(NoMemory);
        }
        into.reserve(512 * count as usize)?;
        self.store.read_blocks(first, count, into);
        Ok(())
    }
}
