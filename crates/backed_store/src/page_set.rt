//! Pages in order of their numbers.

ghost use Rattle.std.specs.Prelude.{◌≡◌, ℕ, ◌≤◌, ◌<◌, ◌==◌, ◌||◌, ◌&&◌, not, false, nat_lt, IsTrue, IfSome, IfNone, OnOk, OnErr};
ghost use Rattle.backed_store.specs.Sets.{has};

use foundation::NoMemory;
use std::alloc::Global;
use std::collections::BTreeSet;

/// Pages in order of their numbers. Each call takes at most logarithmic time, but for `cut`.
#[derive(Drop)]
pub(crate) struct PageSet {
    pub(crate) pages: BTreeSet<u64>,
}

impl PageSet {
    /// Makes a set of no page. Takes no memory.
    pub(crate) fn new(alloc: Global) -> PageSet
        ensures { (p : ℕ) → has result p ≡ false }
    {
        PageSet {
            pages: BTreeSet::new(alloc),
        }
    }

    /// Adds a page. `NoMemory` where memory was refused.
    pub(crate) fn insert(&mut self, page: u64) -> Result<(), NoMemory>
        ensures ok { OnOk result ((p : ℕ) → has self.new p ≡ (p == page || has self.old p)) }
        ensures err { OnErr result ((p : ℕ) → has self.new p ≡ has self.old p) }
    {
        match self.pages.insert(page) {
            Ok(_) => Ok(()),
            Err(_) => Err(NoMemory),
        }
    }

    /// Takes a page out, if it is there.
    pub(crate) fn remove(&mut self, page: u64)
        ensures { (p : ℕ) → has self.new p ≡ (not (p == page) && has self.old p) }
    {
        let _was = self.pages.remove(&page);
    }

    /// Returns the first page at or behind a number; `None` where none stands there.
    pub(crate) fn next_from(&self, number: u64) -> Option<u64>
        ensures member { IfSome result (λ page. IsTrue (has self.now page)) }
        ensures behind { IfSome result (λ page. number ≤ page) }
        ensures least { IfSome result (λ page. (p : ℕ) → number ≤ p → p < page → has self.now p ≡ false) }
        ensures none { IfNone result ((p : ℕ) → number ≤ p → has self.now p ≡ false) }
    {
        match self.pages.range(number..).next() {
            Some(page) => Some(*page),
            None => None,
        }
    }

    /// Takes out the pages from `end` on.
    pub(crate) fn cut(&mut self, end: u64)
        ensures { (p : ℕ) → has self.new p ≡ (nat_lt p end && has self.old p) }
    {
        self.pages.retain(|page| *page < end);
    }
}
