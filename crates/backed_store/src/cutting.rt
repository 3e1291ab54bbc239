//! Pages that are cut off at a block.

ghost use Rattle.std.specs.Prelude.{◌≡◌, ℕ, ◌*◌, ◌/◌, ◌%◌, ◌<◌, None, IsTrue, nat_lt, if◌then◌else◌};
ghost use Rattle.block_store.specs.Blocks.{nth_block, zero_block};
ghost use Rattle.backed_store.specs.Marks.{state_of};
ghost use Rattle.backed_store.specs.Caches.{mark_at, state_at, bytes_at, OwesNoMore};

use crate::cache::Cache;
use crate::numbers::{page_of, position_of};

impl Cache {
    /// Frees the pages from a block on. What its page keeps behind it is zeros.
    pub(crate) fn cut(&mut self, end: u64)
        ensures states { (p : ℕ) → state_at self.new p ≡ (if nat_lt (8 * p) end then state_at self.old p else state_of None) }
        ensures marks { (p : ℕ) → mark_at self.new p ≡ (if nat_lt (8 * p) end then mark_at self.old p else None) }
        ensures blocks { (b : ℕ) → 8 * (b / 8) < end → IsTrue (state_at self.old (b / 8)).held →
            nth_block (bytes_at self.new (b / 8)) (b % 8) ≡ (if nat_lt b end then nth_block (bytes_at self.old (b / 8)) (b % 8) else zero_block) }
        ensures owing { OwesNoMore self.old self.new }
        ensures budget { self.new.budget ≡ self.old.budget }
    {
        let position = position_of(end);
        let page = page_of(end);
        if position == 0 {
            self.slots.cut(page);
            self.unkept.cut(page);
            self.clean.cut(page);
            return;
        }
        self.slots.cut(page + 1);
        self.unkept.cut(page + 1);
        self.clean.cut(page + 1);
        self.slots.wipe(page, position);
    }
}
