//! Pages that go.

ghost use Rattle.std.specs.Prelude.{◌≡◌, ℕ, ◌^◌, ◌<◌, ◌≤◌, true, false, IsTrue, IfSome, IfNone};
ghost use Rattle.backed_store.specs.Marks.{may_go};
ghost use Rattle.backed_store.specs.Caches.{mark_at};
ghost use Rattle.backed_store.specs.Spared.{is_spared};
ghost use Rattle.backed_store.specs.Passing.{IsEvicted, IsPassed};

use crate::cache::Cache;
use crate::mark::Mark;
use crate::page_range::{PageRange, spared_until};
use crate::slot::put_aside;

/// How many pages that were used since are given another round in one call, at most.
const CHANCES: u32 = 64;

impl Cache {
    /// Returns true if a page may go: it is clean, the host has nothing to do with it, and it isn't about to be changed.
    fn may_go(&self, page: u64) -> bool
        ensures { result ≡ may_go (mark_at self.now page) }
    {
        match self.slots.mark(page) {
            Some(mark) => mark.held && !mark.dirty && !mark.is_busy(),
            None => false,
        }
    }

    /// Returns the last of some pages, from this one on, of which each must stay; `None` where this one may go, and isn't
    /// spared.
    fn stays_until(&self, page: u64, spared: &[PageRange]) -> Option<u64>
        ensures reaches { IfSome result (λ last. page ≤ last) }
        ensures some { IfSome result (λ last. (p : ℕ) → page ≤ p → p ≤ last → IsTrue (may_go (mark_at self.now p)) → IsTrue (is_spared spared.now p)) }
        ensures goes { IfNone result (IsTrue (may_go (mark_at self.now page))) }
        ensures unspared { IfNone result (is_spared spared.now page ≡ false) }
    {
        if !self.may_go(page) {
            return Some(page);
        }
        spared_until(spared, page)
    }

    /// Returns the first page at or behind a number that may go and isn't spared. It looks at no more pages than there are
    /// ranges, and pages that the host reads or that are about to be changed.
    fn find_from(&self, number: u64, spared: &[PageRange]) -> Option<u64>
        ensures goes { IfSome result (λ page. IsTrue (may_go (mark_at self.now page))) }
        ensures unspared { IfSome result (λ page. is_spared spared.now page ≡ false) }
        ensures none { IfNone result ((p : ℕ) → number ≤ p → p < 2 ^ 64 → IsTrue (may_go (mark_at self.now p)) → IsTrue (is_spared spared.now p)) }
    {
        let mut at = number;
        while let Some(page) = self.clean.next_from(at) {
            let Some(last) = self.stays_until(page, spared) else {
                return Some(page);
            };
            let Some(next) = last.checked_add(1) else {
                return None;
            };
            at = next;
        }
        None
    }

    /// Returns the next page that may go and isn't spared, round and round from the hand on.
    fn find_next(&self, spared: &[PageRange]) -> Option<u64>
        ensures goes { IfSome result (λ page. IsTrue (may_go (mark_at self.now page))) }
        ensures unspared { IfSome result (λ page. is_spared spared.now page ≡ false) }
        ensures none { IfNone result ((p : ℕ) → p < 2 ^ 64 → IsTrue (may_go (mark_at self.now p)) → IsTrue (is_spared spared.now p)) }
    {
        match self.find_from(self.hand, spared) {
            Some(page) => Some(page),
            None => self.find_from(0, spared),
        }
    }

    /// Moves the hand behind a page. Returns true if the page was used since it was last considered.
    fn pass(&mut self, page: u64) -> bool
        ensures passed { IsPassed self.old self.new }
        ensures budget { self.new.budget ≡ self.old.budget }
    {
        self.hand = page.saturating_add(1);
        let Some(mark) = self.slots.mark(page) else {
            return false;
        };
        self.slots.set(
            page,
            Mark {
                used: false,
                ..mark
            },
        );
        mark.used
    }

    /// Drops a page that may go from memory.
    fn drop_page(&mut self, page: u64, spared: &[PageRange])
        requires goes { IsTrue (may_go (mark_at self.old page)) }
        requires unspared { is_spared spared.now page ≡ false }
        ensures evicted { IsEvicted spared.now self.old self.new page }
        ensures budget { self.new.budget ≡ self.old.budget }
    {
        self.clean.remove(page);
        put_aside(&mut self.spare, self.slots.remove(page));
    }

    /// Drops a clean page from memory, by a clock: a page that was used since is given another round, 64 of them at most.
    /// Returns the page; `None` where none may go.
    pub(crate) fn evict(&mut self, spared: &[PageRange]) -> Option<u64>
        ensures some { IfSome result (λ page. IsEvicted spared.now self.old self.new page) }
        ensures none { IfNone result (IsPassed self.old self.new) }
        ensures stay { IfNone result ((p : ℕ) → p < 2 ^ 64 → IsTrue (may_go (mark_at self.old p)) → IsTrue (is_spared spared.now p)) }
        ensures budget { self.new.budget ≡ self.old.budget }
    {
        for _ in 0..CHANCES {
            let page = self.find_next(spared)?;
            if !self.pass(page) {
                self.drop_page(page, spared);
                return Some(page);
            }
        }
        let page = self.find_next(spared)?;
        self.drop_page(page, spared);
        Some(page)
    }
}
