//! Changes that the host's storage may lack.

ghost use Rattle.std.specs.Prelude.{◌≡◌, ℕ, ◌+◌, ◌/◌, ◌^◌, ◌<◌, ◌≤◌, false, IsTrue, IsFalse, IfSome, IfNone};
ghost use Rattle.block_store.specs.Blocks.{is_within};
ghost use Rattle.backed_store.specs.Stores.{contents, backing_of, is_dirty, number_of, latest_of};
ghost use Rattle.backed_store.specs.Flushes.{owes, IsFlushed};

use crate::backed::BackedStore;
use crate::numbers::{in_page, page_of};

impl BackedStore {
    /// Returns the number of the latest change. A flush that begins now waits for the changes up to it.
    pub fn latest_change(&self) -> u64
        ensures latest { result ≡ latest_of self.now }
        ensures all { (p : ℕ) → number_of self.now p ≤ result }
    {
        self.cache.latest
    }

    /// Returns a page of which the host's storage may lack a change of this number or an older one; `None` where it has them
    /// all. A page that is about to be changed counts as changed.
    pub fn find_unkept_change(&self, number: u64) -> Option<u64>
        ensures some { IfSome result (λ page. IsTrue (owes self.now number page)) }
        ensures flushed { IfNone result (IsFlushed self.now number) }
        ensures none { IfNone result ((p : ℕ) → number_of self.now p ≤ number → is_dirty self.now p ≡ false) }
        ensures kept { IfNone result ((b : ℕ) → number_of self.now (b / 8) ≤ number → contents self.now b ≡ backing_of self.now b) }
    {
        let Some((oldest, page)) = self.cache.unkept.changes.oldest() else {
            return None;
        };
        if oldest > number {
            return None;
        }
        Some(page)
    }

    /// Returns true if the host's storage has each change up to this number: then a flush that waits for these is over. It
    /// looks at the oldest change alone.
    pub fn is_flushed(&self, number: u64) -> bool
        ensures yes { IsTrue result → IsFlushed self.now number }
        ensures no { IsFalse result → (p : ℕ) × IsTrue (owes self.now number p) }
    {
        self.find_unkept_change(number).is_none()
    }

    /// Returns true if a page differs from what the host's storage has, as far as the store knows.
    fn is_changed(&self, page: u64) -> bool
        ensures { result ≡ is_dirty self.now page }
    {
        match self.cache.slots.mark(page) {
            Some(mark) => mark.held && mark.dirty,
            None => false,
        }
    }

    /// Returns true if the host's storage has each block of a range as it is. It looks at each page of the range.
    pub fn are_kept(&self, first: u64, count: usize) -> bool
        requires number { first + count < 2 ^ 64 }
        ensures clean { IsTrue result → (b : ℕ) → IsTrue (is_within first count b) → is_dirty self.now (b / 8) ≡ false }
        ensures kept { IsTrue result → (b : ℕ) → IsTrue (is_within first count b) → contents self.now b ≡ backing_of self.now b }
        ensures changed { IsFalse result → (b : ℕ) × IsTrue (is_within first count b) × IsTrue (is_dirty self.now (b / 8)) }
    {
        let mut done = 0;
        while done < count {
            let at = first + done as u64;
            if self.is_changed(page_of(at)) {
                return false;
            }
            done += in_page(at, count - done);
        }
        true
    }
}
