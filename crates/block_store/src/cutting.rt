//! Pages that are cut off at a number.

ghost use Rattle.std.specs.Prelude.{◌≡◌, ℕ, ◌/◌, ◌<◌, [], nat_lt, if◌then◌else◌};
ghost use Rattle.block_store.specs.Kept.{kept};

use crate::numbers::ROW_PAGES;
use crate::pages::Pages;
use crate::row;
use crate::table::Table;
use std::alloc::Global;

impl Pages {
    /// Frees the pages from `end` on. Takes no memory.
    pub(crate) fn cut(&mut self, alloc: Global, end: u64)
        ensures { (p : ℕ) → kept self.new p ≡ (if nat_lt p end then kept self.old p else []) }
    {
        let number = end / ROW_PAGES as u64;
        self.held.cut(number + 1);
        let mut row = self.held.take(alloc, number);
        row.truncate((end % ROW_PAGES as u64) as usize);
        row::trim(&mut row);
        self.put_row(number, row);
        self.held.give_back(alloc, number);
    }
}
