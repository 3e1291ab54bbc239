//! The pages that are in memory, or on their way.

ghost use Rattle.std.specs.Prelude.{◌+◌, ◌≤◌, length};
ghost use Rattle.backed_store.specs.Slots.{slot_count};
ghost use Rattle.backed_store.specs.Standing.{AreIndexed};

use crate::mark::Mark;
use crate::page_set::PageSet;
use crate::queue::PageQueue;
use crate::slot::{Slot, put_aside};
use crate::slots::Slots;
use crate::unkept::Unkept;
use block_store::{BLOCK_BYTES, Readiness};
use foundation::NoMemory;
use std::alloc::Global;

/// The pages that are in memory, or on their way. With the spare slots they are at most `budget`.
#[derive(Drop)]
pub(crate) struct Cache {
    pub(crate) alloc: Global,
    pub(crate) budget: usize,
    pub(crate) slots: Slots,
    // Slots of pages that went, for those that come. Their bytes are left as they were.
    pub(crate) spare: Vec<Slot>,
    // The pages that the host is to be asked for.
    pub(crate) wanted: PageQueue,
    // The pages that were changed, or are about to be.
    pub(crate) unkept: Unkept,
    // The pages that are in memory as the host's storage has them.
    pub(crate) clean: PageSet,
    // The number from which a page is looked for that may go.
    pub(crate) hand: u64,
    // The number of the latest change.
    pub(crate) latest: u64,
    ghost bound: { slot_count slots + length spare.items ≤ budget },
    ghost indexed: { AreIndexed slots wanted unkept clean latest },
}

impl Cache {
    ghost use Rattle.std.specs.Prelude.{◌≡◌, ◌≢◌, ℕ, ◌+◌, ◌%◌, ◌<◌, ◌==◌, None, false, IsTrue, OnOk, is_some, length, if◌then◌else◌};
    ghost use Rattle.block_store.specs.Blocks.{block_count, nth_block, overwritten, filled};
    ghost use Rattle.block_store.specs.declared.readiness.Readiness.TheVariants.{Ready, Full};
    ghost use Rattle.backed_store.specs.Marks.{is_coming, is_listed, is_rewritten, has_room, changed};
    ghost use Rattle.backed_store.specs.Caches.{mark_at, state_at, bytes_at, number_at, again_at, OwesNoMore, IsKept};

    /// Makes a cache of no page. Takes no memory.
    pub(crate) fn new(alloc: Global, budget: usize) -> Cache
        ensures none { (p : ℕ) → mark_at result p ≡ None }
        ensures budget { result.budget ≡ budget }
        ensures latest { result.latest ≡ 0 }
    {
        Cache {
            alloc,
            budget,
            slots: Slots::new(alloc),
            spare: Vec::new(alloc),
            wanted: PageQueue::new(alloc),
            unkept: Unkept::new(alloc),
            clean: PageSet::new(alloc),
            hand: 0,
            latest: 0,
        }
    }

    /// Gives a page that has none a slot, while fewer pages than the budget have one. `NoMemory` where memory was refused.
    fn add(&mut self, page: u64) -> Result<(), NoMemory>
        requires none { mark_at self.old page ≡ None }
        requires bound { slot_count self.old.slots < self.old.budget }
        ensures some { OnOk result (IsTrue (is_some (mark_at self.new page))) }
        ensures kept { IsKept self.old self.new }
        ensures coming { (p : ℕ) → IsTrue (is_coming (mark_at self.old p)) → IsTrue (is_coming (mark_at self.new p)) }
        ensures room { (p : ℕ) → has_room (mark_at self.new p) ≡ has_room (mark_at self.old p) }
        ensures budget { self.new.budget ≡ self.old.budget }
    {
        let slot = Slot::taken(&mut self.spare, self.alloc)?;
        self.slots.add(page, slot)
    }

    /// Gives a page a slot, if it has none. Returns true if it has one now: not where the budget is spent, or memory was
    /// refused.
    fn reach(&mut self, page: u64) -> bool
        ensures some { IsTrue result → IsTrue (is_some (mark_at self.new page)) }
        ensures kept { IsKept self.old self.new }
        ensures coming { (p : ℕ) → IsTrue (is_coming (mark_at self.old p)) → IsTrue (is_coming (mark_at self.new p)) }
        ensures room { (p : ℕ) → has_room (mark_at self.new p) ≡ has_room (mark_at self.old p) }
        ensures budget { self.new.budget ≡ self.old.budget }
    {
        if self.slots.mark(page).is_some() {
            return true;
        }
        if self.slots.len() >= self.budget {
            return false;
        }
        self.add(page).is_ok()
    }

    /// Takes the slot from a page of which nothing is known.
    fn give_back(&mut self, page: u64)
        ensures kept { IsKept self.old self.new }
        ensures coming { (p : ℕ) → is_coming (mark_at self.new p) ≡ is_coming (mark_at self.old p) }
        ensures room { (p : ℕ) → has_room (mark_at self.new p) ≡ has_room (mark_at self.old p) }
        ensures budget { self.new.budget ≡ self.old.budget }
    {
        if let Some(mark) = self.slots.mark(page) {
            if mark.is_nothing() && !mark.listed {
                put_aside(&mut self.spare, self.slots.remove(page));
            }
        }
    }

    /// Puts a page that has a slot into the queue of the pages that the host is to be asked for. `NoMemory` where memory
    /// was refused.
    fn want(&mut self, page: u64) -> Result<(), NoMemory>
        requires some { IsTrue (is_some (mark_at self.old page)) }
        ensures coming_now { OnOk result (IsTrue (is_coming (mark_at self.new page))) }
        ensures kept { IsKept self.old self.new }
        ensures coming { (p : ℕ) → IsTrue (is_coming (mark_at self.old p)) → IsTrue (is_coming (mark_at self.new p)) }
        ensures room { (p : ℕ) → IsTrue (has_room (mark_at self.old p)) → IsTrue (has_room (mark_at self.new p)) }
        ensures budget { self.new.budget ≡ self.old.budget }
    {
        self.wanted.push(page)?;
        if let Some(mark) = self.slots.mark(page) {
            self.slots.set(
                page,
                Mark {
                    wanted: true,
                    ..mark
                },
            );
        }
        Ok(())
    }

    /// Gives a change of a page that has a slot a number, and puts the page into the queue of those to be written. `NoMemory`
    /// where memory was refused.
    pub(crate) fn list(&mut self, page: u64) -> Result<(), NoMemory>
        requires some { IsTrue (is_some (mark_at self.old page)) }
        requires new { has_room (mark_at self.old page) ≡ false }
        ensures listed { OnOk result (IsTrue (is_listed (mark_at self.new page))) }
        ensures kept { IsKept self.old self.new }
        ensures coming { (p : ℕ) → IsTrue (is_coming (mark_at self.old p)) → IsTrue (is_coming (mark_at self.new p)) }
        ensures room { (p : ℕ) → IsTrue (has_room (mark_at self.old p)) → IsTrue (has_room (mark_at self.new p)) }
        ensures budget { self.new.budget ≡ self.old.budget }
    {
        let number = self.latest.saturating_add(1);
        self.unkept.insert(page, number)?;
        self.latest = number;
        if let Some(mark) = self.slots.mark(page) {
            self.slots.set(
                page,
                Mark {
                    listed: true,
                    number,
                    ..mark
                },
            );
        }
        Ok(())
    }

    /// Sees to it that a page that isn't in memory has a slot, and that the host is asked for it.
    fn fetch(&mut self, page: u64) -> Readiness
        ensures ready { result ≢ Ready }
        ensures asked { result ≢ Full → IsTrue (is_coming (mark_at self.new page)) }
        ensures kept { IsKept self.old self.new }
        ensures coming { (p : ℕ) → IsTrue (is_coming (mark_at self.old p)) → IsTrue (is_coming (mark_at self.new p)) }
        ensures room { (p : ℕ) → IsTrue (has_room (mark_at self.old p)) → IsTrue (has_room (mark_at self.new p)) }
        ensures budget { self.new.budget ≡ self.old.budget }
    {
        if !self.reach(page) {
            return Readiness::Full;
        }
        match self.want(page) {
            Ok(()) => Readiness::Asked,
            Err(_) => {
                self.give_back(page);
                Readiness::Full
            }
        }
    }

    /// Sees to it that a page is in memory, or the host is asked for it.
    pub(crate) fn ask(&mut self, page: u64) -> Readiness
        ensures ready { result ≡ Ready → IsTrue (state_at self.new page).held }
        ensures asked { result ≢ Full → IsTrue (is_coming (mark_at self.new page)) }
        ensures kept { IsKept self.old self.new }
        ensures coming { (p : ℕ) → IsTrue (is_coming (mark_at self.old p)) → IsTrue (is_coming (mark_at self.new p)) }
        ensures room { (p : ℕ) → IsTrue (has_room (mark_at self.old p)) → IsTrue (has_room (mark_at self.new p)) }
        ensures budget { self.new.budget ≡ self.old.budget }
    {
        if let Some(mark) = self.note(page) {
            if mark.held {
                return Readiness::Ready;
            }
            if mark.wanted || mark.reading {
                return Readiness::Asked;
            }
        }
        self.fetch(page)
    }

    /// Sees to it that a page can be changed. Returns true if it can.
    pub(crate) fn make_room(&mut self, page: u64) -> bool
        ensures room_now { IsTrue result → IsTrue (has_room (mark_at self.new page)) }
        ensures kept { IsKept self.old self.new }
        ensures coming { (p : ℕ) → IsTrue (is_coming (mark_at self.old p)) → IsTrue (is_coming (mark_at self.new p)) }
        ensures room { (p : ℕ) → IsTrue (has_room (mark_at self.old p)) → IsTrue (has_room (mark_at self.new p)) }
        ensures budget { self.new.budget ≡ self.old.budget }
    {
        if let Some(mark) = self.slots.mark(page) {
            if mark.listed || mark.writing {
                return true;
            }
        }
        if !self.reach(page) {
            return false;
        }
        if self.list(page).is_err() {
            self.give_back(page);
            return false;
        }
        true
    }

    /// Puts the bytes over blocks of a page that can be changed.
    pub(crate) fn put(&mut self, page: u64, from: usize, bytes: &[u8])
        requires room { IsTrue (has_room (mark_at self.old page)) }
        requires whole { length bytes.now % BLOCK_BYTES ≡ 0 }
        requires range { from + block_count bytes.now ≤ 8 }
        ensures here { (k : ℕ) → nth_block (bytes_at self.new page) k ≡ overwritten (nth_block (bytes_at self.old page)) from bytes.now k }
        ensures others { (p : ℕ) → p ≢ page → bytes_at self.new p ≡ bytes_at self.old p }
        ensures states { (p : ℕ) → state_at self.new p ≡ (if p == page then changed (state_at self.old p) else state_at self.old p) }
        ensures keeps_room { (p : ℕ) → has_room (mark_at self.new p) ≡ has_room (mark_at self.old p) }
        ensures numbers { (p : ℕ) → number_at self.new p ≡ number_at self.old p }
        ensures again { (p : ℕ) → IsTrue (is_rewritten (state_at self.old p)) → again_at self.new p ≡ again_at self.old p }
        ensures owing { OwesNoMore self.old self.new }
        ensures budget { self.new.budget ≡ self.old.budget }
    {
        let number = self.latest.saturating_add(1);
        self.clean.remove(page);
        self.latest = number;
        self.slots.put(page, number, from, bytes);
    }

    /// Puts the block into each of `count` places of a page that can be changed.
    pub(crate) fn fill(&mut self, page: u64, from: usize, count: usize, block: &[u8; BLOCK_BYTES])
        requires room { IsTrue (has_room (mark_at self.old page)) }
        requires range { from + count ≤ 8 }
        ensures here { (k : ℕ) → nth_block (bytes_at self.new page) k ≡ filled (nth_block (bytes_at self.old page)) from count block.now k }
        ensures others { (p : ℕ) → p ≢ page → bytes_at self.new p ≡ bytes_at self.old p }
        ensures states { (p : ℕ) → state_at self.new p ≡ (if p == page then changed (state_at self.old p) else state_at self.old p) }
        ensures keeps_room { (p : ℕ) → has_room (mark_at self.new p) ≡ has_room (mark_at self.old p) }
        ensures numbers { (p : ℕ) → number_at self.new p ≡ number_at self.old p }
        ensures again { (p : ℕ) → IsTrue (is_rewritten (state_at self.old p)) → again_at self.new p ≡ again_at self.old p }
        ensures owing { OwesNoMore self.old self.new }
        ensures budget { self.new.budget ≡ self.old.budget }
    {
        let number = self.latest.saturating_add(1);
        self.clean.remove(page);
        self.latest = number;
        self.slots.fill(page, number, from, count, block);
    }
}
