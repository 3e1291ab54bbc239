//! Pages that the host writes.

ghost use Rattle.std.specs.Prelude.{◌≡◌, ◌≢◌, ℕ, ◌<◌, ◌≤◌, nat_le, ◌&&◌, not, true, false, None, IsTrue, IsFalse, IfSome, IfNone, OnOk, OnErr, is_some, length, if◌then◌else◌, ◌==◌};
ghost use Rattle.backed_store.specs.Marks.{is_dirty, is_writing, is_rewritten, is_listed, dues_of, given, answered};
ghost use Rattle.backed_store.specs.Caches.{mark_at, state_at, bytes_at, number_at, again_at, OwesNoMore, IsKept};
ghost use Rattle.backed_store.specs.Queues.{queue_len};

use crate::cache::Cache;
use crate::mark::Mark;
use crate::slot::put_aside;
use foundation::NoMemory;

impl Cache {
    /// Takes the first page out of the queue of those to be written. Returns true with it if it is to be written: the host
    /// is given it then. Takes the slot from a page that was never written after room was made for it.
    fn take_unwritten(&mut self) -> Option<(u64, bool)>
        ensures dirty { IfSome result (λ taken. IsTrue taken.1 → IsTrue (is_dirty (state_at self.old taken.0)) × ((state_at self.old taken.0).writing ≡ false)) }
        ensures states { IfSome result (λ taken. (p : ℕ) → state_at self.new p ≡ (if taken.1 && p == taken.0 then given (state_at self.old p) else state_at self.old p)) }
        ensures bytes { (p : ℕ) → IsTrue (state_at self.old p).held → bytes_at self.new p ≡ bytes_at self.old p }
        ensures none { IfNone result ((p : ℕ) → IsTrue (is_dirty (state_at self.new p)) → IsTrue (is_writing (state_at self.new p))) }
        ensures kept { IfNone result (IsKept self.old self.new) }
        ensures numbers { (p : ℕ) → IsTrue (is_dirty (state_at self.old p)) → number_at self.new p ≡ number_at self.old p }
        ensures again { (p : ℕ) → IsTrue (is_rewritten (state_at self.old p)) → again_at self.new p ≡ again_at self.old p }
        ensures owing { OwesNoMore self.old self.new }
        ensures less { IfSome result (λ taken. IsTrue taken.1 → (n : ℕ) → dues_of n (mark_at self.new taken.0) ≤ 1) }
        ensures none_listed { IfNone result ((p : ℕ) → is_listed (mark_at self.new p) ≡ false) }
        ensures len { IfSome result (λ taken. queue_len self.new.unkept.unwritten < queue_len self.old.unkept.unwritten) }
        ensures budget { self.new.budget ≡ self.old.budget }
    {
        let page = self.unkept.unwritten.pop()?;
        let Some(mark) = self.slots.mark(page) else {
            return Some((page, false));
        };
        if mark.is_nothing() {
            self.unkept.settle(page, mark.number, false);
            put_aside(&mut self.spare, self.slots.remove(page));
            return Some((page, false));
        }
        let due = mark.is_due();
        let next = mark.taken(due);
        self.unkept.settle(page, mark.number, next.writing);
        self.slots.set(page, next);
        Some((page, due))
    }

    /// Returns the next page that the host is to write, which it is given; `None` where each dirty page is given already.
    pub(crate) fn next_unwritten(&mut self) -> Option<u64>
        ensures dirty { IfSome result (λ page. IsTrue (is_dirty (state_at self.old page)) × ((state_at self.old page).writing ≡ false)) }
        ensures states { IfSome result (λ page. (p : ℕ) → state_at self.new p ≡ (if p == page then given (state_at self.old p) else state_at self.old p)) }
        ensures kept { IfNone result (IsKept self.old self.new) }
        ensures numbers { (p : ℕ) → IsTrue (is_dirty (state_at self.old p)) → number_at self.new p ≡ number_at self.old p }
        ensures again { (p : ℕ) → IsTrue (is_rewritten (state_at self.old p)) → again_at self.new p ≡ again_at self.old p }
        ensures bytes { (p : ℕ) → IsTrue (state_at self.old p).held → bytes_at self.new p ≡ bytes_at self.old p }
        ensures none { IfNone result ((p : ℕ) → IsTrue (is_dirty (state_at self.new p)) → IsTrue (is_writing (state_at self.new p))) }
        ensures owing { OwesNoMore self.old self.new }
        ensures less { IfSome result (λ page. (n : ℕ) → dues_of n (mark_at self.new page) ≤ 1) }
        ensures none_listed { IfNone result ((p : ℕ) → is_listed (mark_at self.new p) ≡ false) }
        ensures budget { self.new.budget ≡ self.old.budget }
    {
        while let Some((page, now)) = self.take_unwritten() {
            if now {
                return Some(page);
            }
        }
        None
    }

    /// Notes that the host has written a page as it is, which is clean then. `NoMemory` where memory was refused.
    fn keep(&mut self, page: u64) -> Result<(), NoMemory>
        requires held { IsTrue (state_at self.old page).held }
        ensures states { OnOk result ((p : ℕ) → state_at self.new p ≡ (if p == page then answered true (state_at self.old p) else state_at self.old p)) }
        ensures bytes { (p : ℕ) → IsTrue (state_at self.old p).held → bytes_at self.new p ≡ bytes_at self.old p }
        ensures numbers { OnOk result ((p : ℕ) → p ≢ page → number_at self.new p ≡ number_at self.old p) }
        ensures again { OnOk result ((p : ℕ) → p ≢ page → again_at self.new p ≡ again_at self.old p) }
        ensures err { OnErr result (IsKept self.old self.new) }
        ensures owing { OwesNoMore self.old self.new }
        ensures paid { OnOk result ((n : ℕ) → dues_of n (mark_at self.new page) ≡ 0) }
        ensures others { OnOk result ((p : ℕ) → p ≢ page → mark_at self.new p ≡ mark_at self.old p) }
        ensures budget { self.new.budget ≡ self.old.budget }
    {
        self.clean.insert(page)?;
        if let Some(mark) = self.slots.mark(page) {
            self.unkept.settle(page, mark.number, false);
            self.slots.set(
                page,
                Mark {
                    dirty: false,
                    writing: false,
                    steady: false,
                    listed: false,
                    ..mark
                },
            );
        }
        Ok(())
    }

    /// Notes that a page is to be written again, from the change of a number on, since it changed while the host wrote it,
    /// or the host couldn't. `NoMemory` where memory was refused.
    fn write_again(&mut self, page: u64, number: u64) -> Result<(), NoMemory>
        requires writing { IsTrue (is_writing (state_at self.old page)) }
        requires bound { number ≤ self.old.latest }
        ensures states { OnOk result ((p : ℕ) → state_at self.new p ≡ (if p == page then answered false (state_at self.old p) else state_at self.old p)) }
        ensures bytes { (p : ℕ) → IsTrue (state_at self.old p).held → bytes_at self.new p ≡ bytes_at self.old p }
        ensures number { OnOk result (number_at self.new page ≡ number) }
        ensures numbers { OnOk result ((p : ℕ) → p ≢ page → number_at self.new p ≡ number_at self.old p) }
        ensures again { OnOk result ((p : ℕ) → again_at self.new p ≡ again_at self.old p) }
        ensures err { OnErr result (IsKept self.old self.new) }
        ensures others { OnOk result ((p : ℕ) → p ≢ page → mark_at self.new p ≡ mark_at self.old p) }
        ensures here { OnOk result ((n : ℕ) → dues_of n (mark_at self.new page) ≡ (if nat_le number n then 2 else 0)) }
        ensures latest { self.new.latest ≡ self.old.latest }
        ensures budget { self.new.budget ≡ self.old.budget }
    {
        let Some(mark) = self.slots.mark(page) else {
            return Ok(());
        };
        self.unkept.renumber(page, mark.number, number)?;
        self.clean.remove(page);
        self.slots.set(
            page,
            Mark {
                dirty: true,
                writing: false,
                steady: false,
                listed: true,
                number,
                ..mark
            },
        );
        Ok(())
    }

    /// Notes that the host's write of a page is over: it was kept, or it failed. The page is clean if it was kept as it is.
    /// Else it is to be written again: from the first change behind the one that was kept, or from the same as before.
    /// `NoMemory` where memory was refused.
    pub(crate) fn end_write(&mut self, page: u64, kept: bool) -> Result<(), NoMemory>
        requires writing { IsTrue (is_writing (state_at self.old page)) }
        ensures states { OnOk result ((p : ℕ) → state_at self.new p
            ≡ (if p == page then answered (kept && (state_at self.old p).steady) (state_at self.old p) else state_at self.old p)) }
        ensures bytes { (p : ℕ) → IsTrue (state_at self.old p).held → bytes_at self.new p ≡ bytes_at self.old p }
        ensures failed { OnOk result (IsFalse kept → number_at self.new page ≡ number_at self.old page) }
        ensures later { OnOk result (IsTrue kept → IsTrue (is_rewritten (state_at self.old page)) → number_at self.new page ≡ again_at self.old page) }
        ensures numbers { OnOk result ((p : ℕ) → p ≢ page → number_at self.new p ≡ number_at self.old p) }
        ensures again { OnOk result ((p : ℕ) → p ≢ page → again_at self.new p ≡ again_at self.old p) }
        ensures err { OnErr result (IsKept self.old self.new) }
        ensures owing { OnOk result (IsTrue kept → OwesNoMore self.old self.new) }
        ensures paid { OnOk result (IsTrue kept → (n : ℕ) → 0 < dues_of n (mark_at self.old page) → dues_of n (mark_at self.new page) < dues_of n (mark_at self.old page)) }
        ensures due { OnOk result ((n p : ℕ) → p ≢ page → dues_of n (mark_at self.new p) ≡ dues_of n (mark_at self.old p)) }
        ensures latest { self.old.latest ≤ self.new.latest }
        ensures budget { self.new.budget ≡ self.old.budget }
    {
        let Some(mark) = self.slots.mark(page) else {
            return Ok(());
        };
        if !kept {
            return self.write_again(page, mark.number);
        }
        if mark.steady {
            return self.keep(page);
        }
        self.write_again(page, mark.again)
    }
}
