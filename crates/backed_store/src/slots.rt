//! The slots of pages, by number.

ghost use Rattle.std.specs.Prelude.{◌≡◌, ◌≢◌, ℕ, ◌+◌, ◌-◌, ◌%◌, ◌≤◌, ◌==◌, None, Some, true, false, IsTrue, IfSome, IfNone, OnOk, OnErr, is_some, [], length, vec_capacity, nat_lt, if◌then◌else◌};
ghost use Rattle.std.specs.Option.{option_map, option_copied};
ghost use Rattle.block_store.specs.Blocks.{block_count, nth_block, overwritten, filled, zeroed};
ghost use Rattle.backed_store.specs.Changed.{changed, loaded, used, unknown};
ghost use Rattle.backed_store.specs.Known.{IsKnown};
ghost use Rattle.backed_store.specs.Marks.{state_of};
ghost use Rattle.backed_store.specs.Slots.{slot_at, slot_count, mark_at, bytes_at};

use crate::mark::Mark;
use crate::numbers::PAGE_BYTES;
use crate::slot::Slot;
use block_store::BLOCK_BYTES;
use foundation::NoMemory;
use std::alloc::Global;
use std::collections::HashMap;

/// The pages that have a slot. The host's storage alone has the others.
#[derive(Drop)]
pub(crate) struct Slots {
    pub(crate) pages: HashMap<u64, Slot>,
}

impl Slots {
    /// Makes one of no slot. Takes no memory.
    pub(crate) fn new(alloc: Global) -> Slots
        ensures none { (p : ℕ) → slot_at result p ≡ None }
        ensures count { slot_count result ≡ 0 }
    {
        Slots {
            pages: HashMap::new(alloc),
        }
    }

    /// Returns how many pages have a slot.
    pub(crate) fn len(&self) -> usize
        ensures { result ≡ slot_count self.now }
    {
        self.pages.len()
    }

    /// Returns the slot of a page.
    #[inline(always)]
    pub(crate) fn at(&self, page: u64) -> Option<&Slot>
        ensures { option_copied result ≡ slot_at self.now page }
    {
        self.pages.get(&page)
    }

    /// Returns the bytes of a page that is in memory.
    #[inline(always)]
    pub(crate) fn held(&self, page: u64) -> Option<&[u8]>
        ensures some { IfSome result (λ bytes. bytes.now ≡ bytes_at self.now page) }
        ensures len { IfSome result (λ bytes. length bytes.now ≡ PAGE_BYTES) }
        ensures none { IfNone result ((state_of (mark_at self.now page)).held ≡ false) }
        ensures held { IfSome result (λ bytes. IsTrue (state_of (mark_at self.now page)).held) }
    {
        match self.at(page) {
            Some(slot) if slot.mark.held => Some(slot.bytes.as_slice()),
            _ => None,
        }
    }

    /// Returns the bytes of a page that is in memory again, in an empty list that has room for them.
    pub(crate) fn copied(&self, page: u64, room: Vec<u8>) -> Vec<u8>
        requires empty { room.items ≡ [] }
        requires room { PAGE_BYTES ≤ vec_capacity room }
        ensures { IsTrue (state_of (mark_at self.now page)).held → result.items ≡ bytes_at self.now page }
    {
        let mut bytes = room;
        if let Some(held) = self.held(page) {
            // The list has room, so nothing is refused.
            let _ = bytes.extend_from_slice(held);
        }
        bytes
    }

    /// Returns the mark of a page that has a slot.
    #[inline(always)]
    pub(crate) fn mark(&self, page: u64) -> Option<Mark>
        ensures { result ≡ mark_at self.now page }
    {
        match self.at(page) {
            Some(slot) => Some(slot.mark),
            None => None,
        }
    }

    /// Puts a mark on a page that has a slot.
    #[inline(always)]
    pub(crate) fn set(&mut self, page: u64, mark: Mark)
        ensures marks { (p : ℕ) → mark_at self.new p ≡ (if p == page then option_map (λ _. mark) (mark_at self.old p) else mark_at self.old p) }
        ensures bytes { (p : ℕ) → bytes_at self.new p ≡ bytes_at self.old p }
        ensures count { slot_count self.new ≡ slot_count self.old }
    {
        match self.pages.get_mut(&page) {
            Some(slot) => slot.mark = mark,
            None => {}
        }
    }

    /// Notes that a page was used, and returns its mark, if it has a slot.
    #[inline(always)]
    pub(crate) fn touch(&mut self, page: u64) -> Option<Mark>
        ensures result { result ≡ mark_at self.new page }
        ensures marks { (p : ℕ) → mark_at self.new p
            ≡ (if p == page then option_map used (mark_at self.old p) else mark_at self.old p) }
        ensures bytes { (p : ℕ) → bytes_at self.new p ≡ bytes_at self.old p }
        ensures count { slot_count self.new ≡ slot_count self.old }
    {
        match self.pages.get_mut(&page) {
            Some(slot) => {
                slot.mark.used = true;
                Some(slot.mark)
            }
            None => None,
        }
    }

    /// Gives a page that has none a slot of which nothing is known. `NoMemory` where memory was refused.
    pub(crate) fn add(&mut self, page: u64, slot: Slot) -> Result<(), NoMemory>
        requires none { mark_at self.old page ≡ None }
        requires unknown { slot.mark ≡ unknown }
        ensures some { OnOk result (IsTrue (is_some (mark_at self.new page))) }
        ensures known { IsKnown self.old self.new }
        ensures count { slot_count self.new ≤ slot_count self.old + 1 }
    {
        match self.pages.insert(page, slot) {
            Ok(_) => Ok(()),
            Err(_) => Err(NoMemory),
        }
    }

    /// Takes the slot from a page, if it has one, and returns it.
    pub(crate) fn remove(&mut self, page: u64) -> Option<Slot>
        ensures slots { (p : ℕ) → slot_at self.new p ≡ (if p == page then None else slot_at self.old p) }
        ensures count { slot_count self.new + (if is_some result then 1 else 0) ≡ slot_count self.old }
    {
        self.pages.remove(&page)
    }

    /// Puts the bytes over blocks of a page that has a slot, by the change of a number.
    pub(crate) fn put(&mut self, page: u64, number: u64, from: usize, bytes: &[u8])
        requires some { IsTrue (is_some (mark_at self.old page)) }
        requires whole { length bytes.now % BLOCK_BYTES ≡ 0 }
        requires range { from + block_count bytes.now ≤ 8 }
        ensures here { (k : ℕ) → nth_block (bytes_at self.new page) k ≡ overwritten (nth_block (bytes_at self.old page)) from bytes.now k }
        ensures others { (p : ℕ) → p ≢ page → bytes_at self.new p ≡ bytes_at self.old p }
        ensures marks { (p : ℕ) → mark_at self.new p ≡ (if p == page then option_map (changed number) (mark_at self.old p) else mark_at self.old p) }
        ensures count { slot_count self.new ≡ slot_count self.old }
    {
        match self.pages.get_mut(&page) {
            Some(slot) => {
                slot.put(from, bytes);
                slot.mark = slot.mark.changed(number);
            }
            None => {}
        }
    }

    /// Puts the block into each of `count` places of a page that has a slot, by the change of a number.
    pub(crate) fn fill(
        &mut self,
        page: u64,
        number: u64,
        from: usize,
        count: usize,
        block: &[u8; BLOCK_BYTES],
    )
        requires some { IsTrue (is_some (mark_at self.old page)) }
        requires range { from + count ≤ 8 }
        ensures here { (k : ℕ) → nth_block (bytes_at self.new page) k ≡ filled (nth_block (bytes_at self.old page)) from count block.now k }
        ensures others { (p : ℕ) → p ≢ page → bytes_at self.new p ≡ bytes_at self.old p }
        ensures marks { (p : ℕ) → mark_at self.new p ≡ (if p == page then option_map (changed number) (mark_at self.old p) else mark_at self.old p) }
        ensures count { slot_count self.new ≡ slot_count self.old }
    {
        match self.pages.get_mut(&page) {
            Some(slot) => {
                slot.fill(from, count, block);
                slot.mark = slot.mark.changed(number);
            }
            None => {}
        }
    }

    /// Puts the bytes that came from the host's storage in the slot of a page that has one.
    pub(crate) fn load(&mut self, page: u64, bytes: &[u8])
        requires some { IsTrue (is_some (mark_at self.old page)) }
        requires len { length bytes.now ≡ PAGE_BYTES }
        ensures here { bytes_at self.new page ≡ bytes.now }
        ensures others { (p : ℕ) → p ≢ page → bytes_at self.new p ≡ bytes_at self.old p }
        ensures marks { (p : ℕ) → mark_at self.new p ≡ (if p == page then option_map loaded (mark_at self.old p) else mark_at self.old p) }
        ensures count { slot_count self.new ≡ slot_count self.old }
    {
        match self.pages.get_mut(&page) {
            Some(slot) => {
                slot.bytes.copy_from_slice(bytes);
                slot.mark = slot.mark.loaded();
            }
            None => {}
        }
    }

    /// Frees the slots of the pages from `end` on.
    pub(crate) fn cut(&mut self, end: u64)
        ensures slots { (p : ℕ) → slot_at self.new p ≡ (if nat_lt p end then slot_at self.old p else None) }
        ensures count { slot_count self.new ≤ slot_count self.old }
    {
        self.pages.retain(|page, _| *page < end);
    }

    /// Puts zeros into the blocks of a page from `from` on.
    pub(crate) fn wipe(&mut self, page: u64, from: usize)
        requires { from ≤ 8 }
        ensures here { IsTrue (is_some (mark_at self.old page)) → (k : ℕ) →
            nth_block (bytes_at self.new page) k ≡ zeroed (nth_block (bytes_at self.old page)) from (8 - from) k }
        ensures others { (p : ℕ) → p ≢ page → bytes_at self.new p ≡ bytes_at self.old p }
        ensures marks { (p : ℕ) → mark_at self.new p ≡ mark_at self.old p }
        ensures count { slot_count self.new ≡ slot_count self.old }
    {
        match self.pages.get_mut(&page) {
            Some(slot) => slot.wipe(from),
            None => {}
        }
    }
}
