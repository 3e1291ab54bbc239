//! Pages that the host said it can't read, or can't write.

ghost use Rattle.std.specs.Prelude.{◌≤◌, vec_len};

use foundation::NoMemory;
use std::alloc::Global;

/// The most pages that are kept.
const MOST: usize = 64;

/// The latest pages of which the host said so, each once, the oldest first: at most 64.
#[derive(Drop)]
pub(crate) struct NotedPages {
    pub(crate) pages: Vec<u64>,
    ghost bound: { vec_len pages ≤ 64 },
}

impl NotedPages {
    ghost use Rattle.std.specs.Prelude.{◌≡◌, ◌≢◌, ℕ, ◌==◌, ◌<◌, ◌&&◌, not, false, drop, filter, length, nat_lt, IsTrue, IfSome, OnOk, slice_get};
    ghost use Rattle.backed_store.specs.Noted.{noted, is_noted};

    /// Makes one of no page. Takes no memory.
    pub(crate) fn new(alloc: Global) -> NotedPages
        ensures { (p : ℕ) → is_noted result p ≡ false }
    {
        NotedPages {
            pages: Vec::new(alloc),
        }
    }

    /// Returns the page at an index, the oldest at 0; `None` from the number of pages on.
    pub(crate) fn at(&self, index: usize) -> Option<u64>
        ensures index { result ≡ slice_get (noted self.now) index }
        ensures noted { IfSome result (λ page. IsTrue (is_noted self.now page)) }
        ensures bound { IfSome result (λ page. index < 64) }
    {
        match self.pages.get(index) {
            Some(page) => Some(*page),
            None => None,
        }
    }

    /// Drops the oldest page where 64 stand.
    fn make_room(&mut self)
        ensures len { length (noted self.new) < 64 }
        ensures oldest { 64 ≤ length (noted self.old) → noted self.new ≡ drop 1 (noted self.old) }
        ensures kept { length (noted self.old) < 64 → noted self.new ≡ noted self.old }
        ensures others { (p : ℕ) → IsTrue (is_noted self.new p) → IsTrue (is_noted self.old p) }
    {
        if self.pages.len() >= MOST {
            let _oldest = self.pages.remove(0);
        }
    }

    /// Adds a page as the newest, and drops the oldest where 64 stand. `NoMemory` where memory was refused: the page isn't
    /// added then.
    pub(crate) fn note(&mut self, page: u64) -> Result<(), NoMemory>
        ensures here { OnOk result (IsTrue (is_noted self.new page)) }
        ensures others { (p : ℕ) → p ≢ page → IsTrue (is_noted self.new p) → IsTrue (is_noted self.old p) }
        ensures kept { length (noted self.old) < 64 → (p : ℕ) → p ≢ page → is_noted self.new p ≡ is_noted self.old p }
    {
        self.forget(page);
        self.make_room();
        match self.pages.push(page) {
            Ok(()) => Ok(()),
            Err(_) => Err(NoMemory),
        }
    }

    /// Takes a page out.
    pub(crate) fn forget(&mut self, page: u64)
        ensures noted { noted self.new ≡ filter (λ p. not (p == page)) (noted self.old) }
        ensures len { length (noted self.new) ≤ length (noted self.old) }
        ensures each { (p : ℕ) → is_noted self.new p ≡ (not (p == page) && is_noted self.old p) }
    {
        self.pages.retain(|noted| *noted != page);
    }

    /// Takes out the pages from `end` on.
    pub(crate) fn cut(&mut self, end: u64)
        ensures { (p : ℕ) → is_noted self.new p ≡ (nat_lt p end && is_noted self.old p) }
    {
        self.pages.retain(|noted| *noted < end);
    }
}
