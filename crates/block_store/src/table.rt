//! Tables on the way to rows of pages.
//!
//! A tree of a fixed depth: a part of a row's number picks the slot of each table. A table has as many slots as its
//! last one in use needs. `give_back` drops the slots at its end that have no rows, and frees a table that has no slots
//! left.

ghost use Rattle.std.specs.Prelude.{◌≡◌, ◌≢◌, ℕ, ◌+◌, ◌-◌, ◌%◌, ◌^◌, ◌<◌, take, List, [], Bool, true, false, length, nat_lt, OnOk, IsTrue, IsFalse, if◌then◌else◌};
ghost use Rattle.block_store.specs.Blocks.{block_count, overwritten};
ghost use Rattle.block_store.specs.Inner.Kept.{row_blocks};
ghost use Rattle.block_store.specs.Tables.{in_slots, more_rows};
ghost use Rattle.block_store.specs.declared.page.Page.{Page};

use crate::page::Page;
use crate::{BLOCK_BYTES, row};
use std::alloc::{AllocError, Global};
use std::mem;

/// The slots of a table, at most, other than the first.
const SLOTS: u64 = 64;

/// Keeps rows of pages, by number.
pub(crate) trait Table: Drop {
    // The rows that a slot has for a table of this type.
    ghost rows: { ℕ };

    // True if the table may have row n.
    ghost fits: { ℕ → Bool };

    // The pages of row n.
    ghost row_at: { Self → ℕ → List Page };

    // True if row n has a slot.
    ghost has_row: { Self → ℕ → Bool };

    /// Returns how many rows a slot has for it.
    fn rows() -> u64
        ensures { result ≡ rows };

    /// Makes one with no rows. Takes no memory.
    fn new(alloc: Global) -> Self
        ensures { (n : ℕ) → row_at result n ≡ [] };

    /// Returns the pages of a row.
    fn row(&self, n: u64) -> &[Page]
        ensures { result.now ≡ row_at self.now n };

    /// Takes the pages of a row out. Its slot stays.
    fn take(&mut self, alloc: Global, n: u64) -> Vec<Page>
        requires { IsTrue (fits n) }
        ensures taken { result.items ≡ row_at self.old n }
        ensures placed { 0 < length result.items → IsTrue (has_row self.new n) }
        ensures gone { row_at self.new n ≡ [] }
        ensures others { (m : ℕ) → IsTrue (fits m) → m ≢ n → row_at self.new m ≡ row_at self.old m }
        ensures slots { (m : ℕ) → has_row self.new m ≡ has_row self.old m };

    /// Puts pages into the slot of a row.
    fn put(&mut self, n: u64, row: Vec<Page>)
        requires fits { IsTrue (fits n) }
        requires placed { IsTrue (has_row self.old n) }
        ensures here { row_at self.new n ≡ row.items }
        ensures others { (m : ℕ) → IsTrue (fits m) → m ≢ n → row_at self.new m ≡ row_at self.old m }
        ensures slots { (m : ℕ) → has_row self.new m ≡ has_row self.old m };

    /// Puts bytes over the blocks of a row from its block `first` on, if their pages keep their bytes. Returns
    /// true if they do.
    fn try_put(&mut self, n: u64, first: u64, bytes: &[u8]) -> bool
        requires fits { IsTrue (fits n) }
        requires range { first + block_count bytes.now < 2 ^ 64 }
        requires whole { length bytes.now % BLOCK_BYTES ≡ 0 }
        ensures put { IsTrue result → (b : ℕ) → row_blocks (row_at self.new n) b
            ≡ overwritten (row_blocks (row_at self.old n)) first bytes.now b }
        ensures same { IsFalse result → row_at self.new n ≡ row_at self.old n }
        ensures others { (m : ℕ) → IsTrue (fits m) → m ≢ n → row_at self.new m ≡ row_at self.old m };

    /// Makes the tables on the way to a row.
    fn place(&mut self, alloc: Global, n: u64) -> Result<(), AllocError>
        requires { IsTrue (fits n) }
        ensures placed { OnOk result (IsTrue (has_row self.new n)) }
        ensures slots { (m : ℕ) → IsTrue (has_row self.old m) → IsTrue (has_row self.new m) }
        ensures rows { (m : ℕ) → row_at self.new m ≡ row_at self.old m };

    /// Returns true if it has no slots, and so no rows.
    fn is_empty(&self) -> bool
        ensures { IsTrue result → (m : ℕ) → row_at self.now m ≡ [] };

    /// Frees the tables on the way to a row that have no rows.
    fn give_back(&mut self, alloc: Global, n: u64)
        ensures { (m : ℕ) → row_at self.new m ≡ row_at self.old m };

    /// Drops the rows from `end` on.
    fn cut(&mut self, end: u64)
        ensures { (m : ℕ) → IsTrue (fits m) → row_at self.new m ≡ (if nat_lt m end then row_at self.old m else []) };

    ghost some: { 0 < rows };

    ghost within: { (n : ℕ) → IsTrue (fits (n % rows)) };
}

/// A row of pages.
#[derive(Drop)]
pub(crate) struct Row {
    pub(crate) pages: Vec<Page>,
}

impl Table for Row {
    ghost use Rattle.std.specs.Prelude.{◌==◌};
    ghost use Rattle.std.proofs.Common.{arith, rules};

    ghost rows = { 1 };

    ghost fits = { λ n. n == 0 };

    ghost row_at = { λ row n. row.pages.items };

    ghost has_row = { λ row n. true };

    #[inline(always)]
    fn rows() -> u64 {
        1
    }

    fn new(alloc: Global) -> Row {
        Row {
            pages: Vec::new(alloc),
        }
    }

    fn row(&self, _n: u64) -> &[Page] {
        &self.pages
    }

    fn take(&mut self, alloc: Global, _n: u64) -> Vec<Page> {
        mem::replace(&mut self.pages, Vec::new(alloc))
    }

    fn put(&mut self, _n: u64, row: Vec<Page>) {
        self.pages = row;
    }

    fn try_put(&mut self, _n: u64, first: u64, bytes: &[u8]) -> bool {
        row::try_put(&mut self.pages, first, bytes)
    }

    fn place(&mut self, _alloc: Global, _n: u64) -> Result<(), AllocError> {
        Ok(())
    }

    fn is_empty(&self) -> bool {
        self.pages.is_empty()
    }

    fn give_back(&mut self, alloc: Global, _n: u64) {
        if self.pages.is_empty() {
            self.pages = Vec::new(alloc);
        }
    }

    fn cut(&mut self, end: u64) {
        if end == 0 {
            self.pages.clear();
        }
    }

    ghost some = { Prim.search rules };

    ghost within = { Prim.search rules };
}

/// A table of tables.
#[derive(Drop)]
pub(crate) struct Level<T> {
    pub(crate) slots: Vec<T>,
}

impl<T: Table> Level<T> {
    ghost use Rattle.std.specs.Prelude.{vec_len};

    /// Appends slots without rows, up to a number.
    fn reach(&mut self, alloc: Global, slot: usize) -> Result<(), AllocError>
        ensures reached { OnOk result (slot < vec_len self.new.slots) }
        ensures rows { (m : ℕ) → in_slots T.rows T.row_at [] self.new.slots.items m ≡ in_slots T.rows T.row_at [] self.old.slots.items m }
        ensures slots { (m : ℕ) → IsTrue (in_slots T.rows T.has_row false self.old.slots.items m) →
            IsTrue (in_slots T.rows T.has_row false self.new.slots.items m) }
    {
        let needed = slot.saturating_add(1);
        self.slots.reserve(needed.saturating_sub(self.slots.len()))?;
        while self.slots.len() <= slot {
            self.slots.push(T::new(alloc))?;
        }
        Ok(())
    }

    /// Returns true if the last slot has no rows.
    fn ends_empty(&self) -> bool
        ensures some { IsTrue result → 0 < vec_len self.now.slots }
        ensures rows { IsTrue result → (m : ℕ) → in_slots T.rows T.row_at [] (take (vec_len self.now.slots - 1) self.now.slots.items) m
            ≡ in_slots T.rows T.row_at [] self.now.slots.items m }
    {
        match self.slots.last() {
            Some(last) => last.is_empty(),
            None => false,
        }
    }

    /// Drops the slots without rows at the end.
    fn trim(&mut self)
        ensures { (m : ℕ) → in_slots T.rows T.row_at [] self.new.slots.items m ≡ in_slots T.rows T.row_at [] self.old.slots.items m }
    {
        while self.ends_empty() {
            let _ = self.slots.pop();
        }
    }
}

impl<T: Table> Table for Level<T> {
    ghost use Rattle.std.specs.Prelude.{refl};
    ghost use Rattle.block_store.specs.Inner.Tables.{some-rows};

    ghost rows = { more_rows T.rows };

    ghost fits = { λ n. true };

    ghost row_at = { λ t n. in_slots T.rows T.row_at [] t.slots.items n };

    ghost has_row = { λ t n. in_slots T.rows T.has_row false t.slots.items n };

    #[inline(always)]
    fn rows() -> u64 {
        T::rows().saturating_mul(SLOTS)
    }

    fn new(alloc: Global) -> Level<T> {
        Level {
            slots: Vec::new(alloc),
        }
    }

    fn row(&self, n: u64) -> &[Page] {
        match self.slots.get((n / T::rows()) as usize) {
            Some(slot) => slot.row(n % T::rows()),
            None => &[],
        }
    }

    fn take(&mut self, alloc: Global, n: u64) -> Vec<Page> {
        match self.slots.get_mut((n / T::rows()) as usize) {
            Some(slot) => slot.take(alloc, n % T::rows()),
            None => Vec::new(alloc),
        }
    }

    fn put(&mut self, n: u64, row: Vec<Page>) {
        if let Some(slot) = self.slots.get_mut((n / T::rows()) as usize) {
            slot.put(n % T::rows(), row);
        }
    }

    fn try_put(&mut self, n: u64, first: u64, bytes: &[u8]) -> bool {
        match self.slots.get_mut((n / T::rows()) as usize) {
            Some(slot) => slot.try_put(n % T::rows(), first, bytes),
            None => false,
        }
    }

    fn place(&mut self, alloc: Global, n: u64) -> Result<(), AllocError> {
        let slot = (n / T::rows()) as usize;
        self.reach(alloc, slot)?;
        self.slots[slot].place(alloc, n % T::rows())
    }

    fn is_empty(&self) -> bool {
        self.slots.is_empty()
    }

    fn give_back(&mut self, alloc: Global, n: u64) {
        if let Some(slot) = self.slots.get_mut((n / T::rows()) as usize) {
            slot.give_back(alloc, n % T::rows());
        }
        self.trim();
        if self.slots.is_empty() {
            self.slots = Vec::new(alloc);
        }
    }

    fn cut(&mut self, end: u64) {
        let slot = (end / T::rows()) as usize;
        if slot < self.slots.len() {
            self.slots.truncate(slot + 1);
            self.slots[slot].cut(end % T::rows());
        }
    }

    ghost some = { some-rows T.rows T.some };

    ghost within = { λ n. refl };
}

/// Keeps the rows of a store, with five tables on the way to each. The first has a slot for each 2^24 rows, so at most
/// 128 for a store of 2^40 blocks.
pub(crate) type Tree = Level<Level<Level<Level<Level<Row>>>>>;
