//! The pages that the host's storage may lack, by number, by the age of their changes, and in a queue.

ghost use Rattle.std.specs.Prelude.{◌≡◌, ℕ, ◌<◌, ◌==◌, ◌||◌, ◌&&◌, not, false, nat_lt, IsTrue, OnOk, OnErr, if◌then◌else◌};
ghost use Rattle.backed_store.specs.Sets.{has, has_at};
ghost use Rattle.backed_store.specs.Queues.{stands};

use crate::change_set::ChangeSet;
use crate::page_set::PageSet;
use crate::queue::PageQueue;
use foundation::NoMemory;
use std::alloc::Global;

/// The pages that the host's storage may lack: those that were changed, or are about to be.
#[derive(Drop)]
pub(crate) struct Unkept {
    pub(crate) pages: PageSet,
    // The oldest change of each.
    pub(crate) changes: ChangeSet,
    // Those that the host wasn't given since, and some others.
    pub(crate) unwritten: PageQueue,
}

impl Unkept {
    /// Makes one of no page. Takes no memory.
    pub(crate) fn new(alloc: Global) -> Unkept
        ensures pages { (p : ℕ) → has result.pages p ≡ false }
        ensures changes { (n p : ℕ) → has_at result.changes n p ≡ false }
        ensures queue { (p : ℕ) → stands result.unwritten p ≡ false }
    {
        Unkept {
            pages: PageSet::new(alloc),
            changes: ChangeSet::new(alloc),
            unwritten: PageQueue::new(alloc),
        }
    }

    /// Adds a page that isn't there, with the number of its change, and puts it behind the queue. `NoMemory` where memory
    /// was refused.
    pub(crate) fn insert(&mut self, page: u64, number: u64) -> Result<(), NoMemory>
        requires pages { has self.old.pages page ≡ false }
        requires changes { (n : ℕ) → has_at self.old.changes n page ≡ false }
        ensures pages { OnOk result ((p : ℕ) → has self.new.pages p ≡ (p == page || has self.old.pages p)) }
        ensures changes { OnOk result ((n p : ℕ) → has_at self.new.changes n p ≡ ((n == number && p == page) || has_at self.old.changes n p)) }
        ensures here { OnOk result (IsTrue (stands self.new.unwritten page)) }
        ensures queue { (p : ℕ) → IsTrue (stands self.old.unwritten p) → IsTrue (stands self.new.unwritten p) }
        ensures no_page { OnErr result ((p : ℕ) → has self.new.pages p ≡ has self.old.pages p) }
        ensures no_change { OnErr result ((n p : ℕ) → has_at self.new.changes n p ≡ has_at self.old.changes n p) }
    {
        self.pages.insert(page)?;
        if self.changes.insert(number, page).is_err() {
            self.pages.remove(page);
            return Err(NoMemory);
        }
        if self.unwritten.push(page).is_err() {
            self.pages.remove(page);
            self.changes.remove(number, page);
            return Err(NoMemory);
        }
        Ok(())
    }

    /// Has another number for the change of a page, and puts it behind the queue. `NoMemory` where memory was refused.
    pub(crate) fn renumber(&mut self, page: u64, old: u64, new: u64) -> Result<(), NoMemory>
        requires changes { (n : ℕ) → has_at self.old.changes n page ≡ (n == old) }
        ensures changes { OnOk result ((n p : ℕ) → has_at self.new.changes n p ≡ (if p == page then n == new else has_at self.old.changes n p)) }
        ensures here { OnOk result (IsTrue (stands self.new.unwritten page)) }
        ensures queue { (p : ℕ) → IsTrue (stands self.old.unwritten p) → IsTrue (stands self.new.unwritten p) }
        ensures pages { (p : ℕ) → has self.new.pages p ≡ has self.old.pages p }
        ensures no_change { OnErr result ((n p : ℕ) → has_at self.new.changes n p ≡ has_at self.old.changes n p) }
    {
        if old == new {
            return self.unwritten.push(page);
        }
        self.changes.insert(new, page)?;
        if self.unwritten.push(page).is_err() {
            self.changes.remove(new, page);
            return Err(NoMemory);
        }
        self.changes.remove(old, page);
        Ok(())
    }

    /// Takes a page out with its change, unless it stays. The queue stays as it is.
    pub(crate) fn settle(&mut self, page: u64, number: u64, stays: bool)
        requires changes { (n : ℕ) → IsTrue (has_at self.old.changes n page) → n ≡ number }
        ensures pages { (p : ℕ) → has self.new.pages p ≡ (if p == page then stays && has self.old.pages p else has self.old.pages p) }
        ensures changes { (n p : ℕ) → has_at self.new.changes n p ≡ (if p == page then stays && has_at self.old.changes n p else has_at self.old.changes n p) }
        ensures queue { self.new.unwritten ≡ self.old.unwritten }
    {
        if !stays {
            self.pages.remove(page);
            self.changes.remove(number, page);
        }
    }

    /// Takes out the pages from `end` on, but not out of the queue.
    pub(crate) fn cut(&mut self, end: u64)
        ensures pages { (p : ℕ) → has self.new.pages p ≡ (nat_lt p end && has self.old.pages p) }
        ensures changes { (n p : ℕ) → has_at self.new.changes n p ≡ (nat_lt p end && has_at self.old.changes n p) }
        ensures queue { self.new.unwritten ≡ self.old.unwritten }
    {
        self.pages.cut(end);
        self.changes.cut(end);
    }
}
