//! Pages that come.

ghost use Rattle.std.specs.Prelude.{◌≡◌, ◌≢◌, ℕ, ◌<◌, ◌&&◌, true, false, None, IsTrue, IsFalse, IfSome, IfNone, OnOk, OnErr, is_some, length, if◌then◌else◌, ◌==◌};
ghost use Rattle.backed_store.specs.Marks.{is_coming, is_wanted, is_reading, has_room, loaded};
ghost use Rattle.backed_store.specs.Caches.{mark_at, state_at, bytes_at, number_at, again_at, OwesNoMore, IsKept};
ghost use Rattle.backed_store.specs.Queues.{queue_len};

use crate::cache::Cache;
use crate::mark::Mark;
use crate::numbers::PAGE_BYTES;
use crate::slot::put_aside;
use foundation::NoMemory;

impl Cache {
    /// Takes the first page out of the queue of those that the host is to be asked for. Returns true with it if it is
    /// still wanted and below `end`: the host is then asked for it. A page from `end` on isn't wanted any longer.
    fn take_wanted(&mut self, end: u64) -> Option<(u64, bool)>
        ensures wanted { IfSome result (λ taken. IsTrue taken.1 → IsTrue (is_wanted (mark_at self.old taken.0)) × ((state_at self.old taken.0).held ≡ false)) }
        ensures below { IfSome result (λ taken. IsTrue taken.1 → taken.0 < end) }
        ensures reading { IfSome result (λ taken. IsTrue taken.1 → IsTrue (is_reading (mark_at self.new taken.0))) }
        ensures none { IfNone result ((p : ℕ) → is_wanted (mark_at self.new p) ≡ false) }
        ensures len { IfSome result (λ taken. queue_len self.new.wanted < queue_len self.old.wanted) }
        ensures others { IfSome result (λ taken. (p : ℕ) → IsTrue (is_wanted (mark_at self.old p)) → (state_at self.old p).held ≡ false →
            p < end → (taken.1 && p == taken.0) ≡ false → IsTrue (is_wanted (mark_at self.new p))) }
        ensures kept { IsKept self.old self.new }
        ensures coming { (p : ℕ) → p < end → IsTrue (is_coming (mark_at self.old p)) → IsTrue (is_coming (mark_at self.new p)) }
        ensures room { (p : ℕ) → IsTrue (has_room (mark_at self.old p)) → IsTrue (has_room (mark_at self.new p)) }
        ensures budget { self.new.budget ≡ self.old.budget }
    {
        let page = self.wanted.pop()?;
        let Some(mark) = self.slots.mark(page) else {
            return Some((page, false));
        };
        if page >= end {
            self.slots.set(
                page,
                Mark {
                    wanted: false,
                    ..mark
                },
            );
            self.fail(page);
            return Some((page, false));
        }
        let now = mark.wanted && !mark.held;
        self.slots.set(
            page,
            Mark {
                wanted: false,
                reading: mark.reading || now,
                ..mark
            },
        );
        Some((page, now))
    }

    /// Returns the next page below `end` that the host is to be asked for, which it is from now on; `None` where no page is
    /// wanted.
    pub(crate) fn next_wanted(&mut self, end: u64) -> Option<u64>
        ensures wanted { IfSome result (λ page. (state_at self.old page).held ≡ false) }
        ensures below { IfSome result (λ page. page < end) }
        ensures others { IfSome result (λ page. (p : ℕ) → p ≢ page → IsTrue (is_wanted (mark_at self.old p)) →
            (state_at self.old p).held ≡ false → p < end → IsTrue (is_wanted (mark_at self.new p))) }
        ensures reading { IfSome result (λ page. IsTrue (is_reading (mark_at self.new page))) }
        ensures none { IfNone result ((p : ℕ) → is_wanted (mark_at self.new p) ≡ false) }
        ensures kept { IsKept self.old self.new }
        ensures coming { (p : ℕ) → p < end → IsTrue (is_coming (mark_at self.old p)) → IsTrue (is_coming (mark_at self.new p)) }
        ensures room { (p : ℕ) → IsTrue (has_room (mark_at self.old p)) → IsTrue (has_room (mark_at self.new p)) }
        ensures budget { self.new.budget ≡ self.old.budget }
    {
        while let Some((page, now)) = self.take_wanted(end) {
            if now {
                return Some(page);
            }
        }
        None
    }

    /// Notes that the host's answer for a page isn't awaited any more.
    pub(crate) fn forget_read(&mut self, page: u64)
        ensures kept { IsKept self.old self.new }
        ensures budget { self.new.budget ≡ self.old.budget }
    {
        if let Some(mark) = self.slots.mark(page) {
            self.slots.set(
                page,
                Mark {
                    reading: false,
                    ..mark
                },
            );
        }
    }

    /// Notes that the host can't read a page, which isn't wanted any longer. A page that is neither in memory nor about to
    /// be changed gives its slot back.
    pub(crate) fn fail(&mut self, page: u64)
        ensures kept { IsKept self.old self.new }
        ensures queue { self.new.wanted ≡ self.old.wanted }
        ensures over { is_coming (mark_at self.new page) ≡ (state_at self.old page).held }
        ensures reading { is_reading (mark_at self.new page) ≡ false }
        ensures others { (p : ℕ) → p ≢ page → mark_at self.new p ≡ mark_at self.old p }
        ensures room { (p : ℕ) → IsTrue (has_room (mark_at self.old p)) → IsTrue (has_room (mark_at self.new p)) }
        ensures budget { self.new.budget ≡ self.old.budget }
    {
        let Some(mark) = self.slots.mark(page) else {
            return;
        };
        let now = Mark {
            wanted: false,
            reading: false,
            ..mark
        };
        if now.is_nothing() && !now.listed {
            put_aside(&mut self.spare, self.slots.remove(page));
            return;
        }
        self.slots.set(page, now);
    }

    /// Puts the bytes of a page that the host read in their place. `NoMemory` where memory was refused.
    pub(crate) fn load(&mut self, page: u64, bytes: &[u8]) -> Result<(), NoMemory>
        requires some { IsTrue (is_some (mark_at self.old page)) }
        requires len { length bytes.now ≡ PAGE_BYTES }
        requires absent { (state_at self.old page).held ≡ false }
        ensures numbers { (p : ℕ) → number_at self.new p ≡ number_at self.old p }
        ensures again { (p : ℕ) → again_at self.new p ≡ again_at self.old p }
        ensures states { OnOk result ((p : ℕ) → state_at self.new p ≡ (if p == page then loaded (state_at self.old p) else state_at self.old p)) }
        ensures here { OnOk result (bytes_at self.new page ≡ bytes.now) }
        ensures others { OnOk result ((p : ℕ) → p ≢ page → IsTrue (state_at self.old p).held → bytes_at self.new p ≡ bytes_at self.old p) }
        ensures owing { OwesNoMore self.old self.new }
        ensures err { OnErr result (IsKept self.old self.new) }
        ensures coming { (p : ℕ) → IsTrue (is_coming (mark_at self.old p)) → IsTrue (is_coming (mark_at self.new p)) }
        ensures room { (p : ℕ) → IsTrue (has_room (mark_at self.old p)) → IsTrue (has_room (mark_at self.new p)) }
        ensures budget { self.new.budget ≡ self.old.budget }
    {
        self.clean.insert(page)?;
        self.slots.load(page, bytes);
        Ok(())
    }
}
