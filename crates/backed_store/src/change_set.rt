//! Changes of pages in order of their numbers.

ghost use Rattle.std.specs.Prelude.{◌≡◌, ℕ, ◌≤◌, ◌==◌, ◌||◌, ◌&&◌, not, false, nat_lt, IsTrue, IfSome, IfNone, OnOk, OnErr};
ghost use Rattle.backed_store.specs.Sets.{has_at};

use foundation::NoMemory;
use std::alloc::Global;
use std::collections::BTreeSet;

/// Changes of pages in order of their numbers. Each call takes at most logarithmic time, but for `cut`.
#[derive(Drop)]
pub(crate) struct ChangeSet {
    pub(crate) changes: BTreeSet<(u64, u64)>,
}

impl ChangeSet {
    /// Makes a set of no change. Takes no memory.
    pub(crate) fn new(alloc: Global) -> ChangeSet
        ensures { (n p : ℕ) → has_at result n p ≡ false }
    {
        ChangeSet {
            changes: BTreeSet::new(alloc),
        }
    }

    /// Adds a change of a page. `NoMemory` where memory was refused.
    pub(crate) fn insert(&mut self, number: u64, page: u64) -> Result<(), NoMemory>
        ensures ok { OnOk result ((n p : ℕ) → has_at self.new n p ≡ ((n == number && p == page) || has_at self.old n p)) }
        ensures err { OnErr result ((n p : ℕ) → has_at self.new n p ≡ has_at self.old n p) }
    {
        match self.changes.insert((number, page)) {
            Ok(_) => Ok(()),
            Err(_) => Err(NoMemory),
        }
    }

    /// Takes a change of a page out, if it is there.
    pub(crate) fn remove(&mut self, number: u64, page: u64)
        ensures { (n p : ℕ) → has_at self.new n p ≡ (not (n == number && p == page) && has_at self.old n p) }
    {
        let _was = self.changes.remove(&(number, page));
    }

    /// Returns the change with the least number, and its page; `None` where there is none.
    pub(crate) fn oldest(&self) -> Option<(u64, u64)>
        ensures member { IfSome result (λ found. IsTrue (has_at self.now found.0 found.1)) }
        ensures least { IfSome result (λ found. (n p : ℕ) → IsTrue (has_at self.now n p) → found.0 ≤ n) }
        ensures none { IfNone result ((n p : ℕ) → has_at self.now n p ≡ false) }
    {
        match self.changes.first() {
            Some(change) => Some(*change),
            None => None,
        }
    }

    /// Takes out the changes of the pages from `end` on.
    pub(crate) fn cut(&mut self, end: u64)
        ensures { (n p : ℕ) → has_at self.new n p ≡ (nat_lt p end && has_at self.old n p) }
    {
        self.changes.retain(|change| change.1 < end);
    }
}
