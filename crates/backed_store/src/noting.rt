//! Reads in place, which eviction is told of.

ghost use Rattle.std.specs.Prelude.{◌≡◌, ℕ, IsTrue};
ghost use Rattle.backed_store.specs.Marks as marks;
ghost use Rattle.backed_store.specs.Caches.{mark_at, IsKept};
ghost use Rattle.backed_store.specs.Stores.{holds, is_coming, has_room, IsSame, IsHost};

use crate::backed::BackedStore;
use crate::cache::Cache;
use crate::mark::Mark;
use crate::numbers::page_of;

/// Of so many reads in place one looks its page up. A page that is read often is met all the same.
const NOTED: u32 = 8;

impl Cache {
    /// Notes that a page was used, and returns its mark, if it has a slot.
    #[inline(always)]
    pub(crate) fn note(&mut self, page: u64) -> Option<Mark>
        ensures result { result ≡ mark_at self.new page }
        ensures kept { IsKept self.old self.new }
        ensures coming { (p : ℕ) → marks.is_coming (mark_at self.new p) ≡ marks.is_coming (mark_at self.old p) }
        ensures room { (p : ℕ) → marks.has_room (mark_at self.new p) ≡ marks.has_room (mark_at self.old p) }
        ensures budget { self.new.budget ≡ self.old.budget }
    {
        self.slots.touch(page)
    }
}

impl BackedStore {
    /// Notes that a block was read in place, so that its page is given another round before it goes. Nothing else changes.
    #[inline(always)]
    pub fn note_use(&mut self, block: u64)
        ensures same { IsSame self.old self.new }
        ensures host { IsHost self.old self.new }
        ensures held { (b : ℕ) → holds self.new b ≡ holds self.old b }
        ensures coming { (b : ℕ) → is_coming self.new b ≡ is_coming self.old b }
        ensures room { (b : ℕ) → has_room self.new b ≡ has_room self.old b }
    {
        self.reads = self.reads.wrapping_add(1);
        if self.reads % NOTED == 0 {
            let _mark = self.cache.note(page_of(block));
        }
    }
}
