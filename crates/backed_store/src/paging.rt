//! Pages that come and go.

ghost use Rattle.std.specs.Prelude.{◌≡◌, ◌≢◌, ℕ, slice_get, filter, ◌==◌, ◌*◌, ◌/◌, ◌^◌, ◌<◌, ◌≤◌, ◌&&◌, not, true, false, length, IsTrue, IsFalse, IfOk, OnOk, OnErr, IfSome, IfNone, if◌then◌else◌};
ghost use Rattle.block_store.specs.Storage.{with_page, IsPageOf, and_then, is_lost, is_denied, Dealing as ADealing};
ghost use Rattle.backed_store.specs.Spared.{is_spared};
ghost use Rattle.backed_store.specs.Flushes.{owes};
ghost use Rattle.backed_store.specs.Stores.{contents, holds, is_coming, has_room, is_wanted, is_reading, is_writing, is_dirty, is_rewritten, may_go, number_of, again_of, dues, storage_of, ledger_of, backing_of, noted, is_noted, noted_denied, is_noted_denied, IsSame, IsHost, IsOwed, OwesNoMore};

use crate::backed::BackedStore;
use crate::dealing::{Dealing, GivenPage};
use crate::given;
use crate::numbers::{PAGE_BYTES, pages_of};
use crate::page_range::PageRange;
use foundation::NoMemory;

impl BackedStore {
    /// Returns the next page that the host is to read, and counts it as asked for; `None` where none is wanted. The page lies
    /// below the capacity. The host hands it in by [`load`](BackedStore::load).
    pub fn next_wanted(&mut self) -> Option<u64>
        ensures absent { IfSome result (λ page. holds self.old (8 * page) ≡ false) }
        ensures below { IfSome result (λ page. 8 * page < self.old.capacity) }
        ensures reading { IfSome result (λ page. IsTrue (is_reading self.new page)) }
        ensures none { IfNone result ((p : ℕ) → is_wanted self.new p ≡ false) }
        // Each other page below the capacity that is wanted is told later.
        ensures others { IfSome result (λ page. (p : ℕ) → p ≢ page → IsTrue (is_wanted self.old p) → holds self.old (8 * p) ≡ false →
            8 * p < self.old.capacity → IsTrue (is_wanted self.new p)) }
        ensures same { IsSame self.old self.new }
        ensures host { IsHost self.old self.new }
        ensures held { (b : ℕ) → holds self.new b ≡ holds self.old b }
    {
        self.cache.next_wanted(pages_of(self.capacity))
    }

    /// Takes the bytes of a page that the host was asked for. Returns true if they now stand in memory: not where the page
    /// was written over meanwhile. `NoMemory` where memory was refused; the page may be handed in again.
    pub fn load(&mut self, page: u64, bytes: &[u8]) -> Result<bool, NoMemory>
        requires len { length bytes.now ≡ PAGE_BYTES }
        // The host owes it: its storage gives back what it kept, or had at the opening.
        requires owed { IsTrue (is_reading self.old page) → holds self.old (8 * page) ≡ false → IsPageOf (backing_of self.old) page bytes.now }
        ensures same { IsSame self.old self.new }
        ensures storage { storage_of self.new ≡ storage_of self.old }
        ensures told { IfOk result (λ stands. ledger_of self.new
            ≡ (if stands then and_then (ADealing.Load page) (ledger_of self.old) else ledger_of self.old)) }
        ensures err { OnErr result (ledger_of self.new ≡ ledger_of self.old) }
        ensures owed { (p : ℕ) → IsOwed self.old self.new p }
        ensures writing { (p : ℕ) → is_writing self.new p ≡ is_writing self.old p }
        ensures owing { OwesNoMore self.old self.new }
        ensures loaded { IfOk result (λ stands. IsTrue stands → IsTrue (holds self.new (8 * page))) }
        // The host's storage can read it after all.
        ensures found { IfOk result (λ stands. IsTrue stands → is_noted self.new page ≡ false) }
        ensures held { (b : ℕ) → IsTrue (holds self.old b) → IsTrue (holds self.new b) }
    {
        let Some(mark) = self.cache.slots.mark(page) else {
            return Ok(false);
        };
        if !mark.reading {
            return Ok(false);
        }
        if mark.held {
            self.cache.forget_read(page);
            return Ok(false);
        }
        self.cache.load(page, bytes)?;
        self.lost_pages.forget(page);
        given::record(&mut self.dealings, &Dealing::Loaded(page));
        Ok(true)
    }

    /// Notes that the host can't read a page that it was asked for. Until a command asks for the page again, it isn't on its
    /// way. Returns true if a command may wait for it: the host was asked for it, and it isn't in memory. Then the caller
    /// fails each command that waits for the page. Nothing else changes.
    pub fn load_failed(&mut self, page: u64) -> bool
        ensures same { IsSame self.old self.new }
        ensures host { IsHost self.old self.new }
        ensures held { (b : ℕ) → holds self.new b ≡ holds self.old b }
        ensures failed { result ≡ (is_reading self.old page && not (holds self.old (8 * page))) }
        ensures noted { noted self.new ≡ noted self.old }
        ensures over { is_reading self.new page ≡ false }
        ensures absent { IsTrue result → is_coming self.new (8 * page) ≡ false }
        ensures others { (b : ℕ) → b / 8 ≢ page → is_coming self.new b ≡ is_coming self.old b }
        ensures room { (b : ℕ) → IsTrue (has_room self.old b) → IsTrue (has_room self.new b) }
    {
        match self.cache.slots.mark(page) {
            Some(mark) if mark.reading => {
                self.cache.fail(page);
                !mark.held
            }
            _ => false,
        }
    }

    /// Notes that the host's storage can't read a page that the host was asked for. Returns true if a command may wait for it:
    /// the host was asked for it, and it isn't in memory. Then the commands that wait for it may be tried again, and end with
    /// an error.
    pub fn lost(&mut self, page: u64) -> bool
        ensures same { IsSame self.old self.new }
        ensures held { (b : ℕ) → holds self.new b ≡ holds self.old b }
        ensures answer { result ≡ (is_reading self.old page && not (holds self.old (8 * page))) }
        ensures storage { storage_of self.new ≡ storage_of self.old }
        ensures lost { IsTrue result → ledger_of self.new ≡ and_then (ADealing.Lose page) (ledger_of self.old) }
        ensures otherwise { IsFalse result → ledger_of self.new ≡ ledger_of self.old }
        ensures owed { (p : ℕ) → IsOwed self.old self.new p }
        ensures writing { (p : ℕ) → is_writing self.new p ≡ is_writing self.old p }
        ensures owing { OwesNoMore self.old self.new }
        ensures over { is_reading self.new page ≡ false }
        ensures absent { IsTrue result → is_coming self.new (8 * page) ≡ false }
        ensures others { (b : ℕ) → b / 8 ≢ page → is_coming self.new b ≡ is_coming self.old b }
        ensures room { (b : ℕ) → IsTrue (has_room self.old b) → IsTrue (has_room self.new b) }
        // Only this page is noted.
        ensures alone { (p : ℕ) → p ≢ page → IsTrue (is_noted self.new p) → IsTrue (is_noted self.old p) }
        ensures kept { length (noted self.old) < 64 → (p : ℕ) → p ≢ page → is_noted self.new p ≡ is_noted self.old p }
        ensures unnoted { IsFalse result → noted self.new ≡ noted self.old }
    {
        if !self.load_failed(page) {
            return false;
        }
        given::record(&mut self.dealings, &Dealing::Lost(page));
        // A page that isn't noted is asked for again.
        let _noted = self.lost_pages.note(page);
        true
    }

    /// Returns the page that was noted at an index, the oldest at 0; `None` from the number of noted pages on. At most 64 are
    /// noted: one more drops the oldest.
    pub fn lost_page(&self, index: usize) -> Option<u64>
        ensures index { result ≡ slice_get (noted self.now) index }
        ensures lost { IfSome result (λ page. is_lost page (ledger_of self.now) ≡ true) }
        ensures bound { IfSome result (λ page. index < 64) }
    {
        self.lost_pages.at(index)
    }

    /// Forgets that a page is lost. Nothing else changes.
    pub fn forget_lost(&mut self, page: u64)
        ensures same { IsSame self.old self.new }
        ensures host { IsHost self.old self.new }
        ensures held { (b : ℕ) → holds self.new b ≡ holds self.old b }
        ensures coming { (b : ℕ) → is_coming self.new b ≡ is_coming self.old b }
        ensures room { (b : ℕ) → has_room self.new b ≡ has_room self.old b }
        ensures noted { noted self.new ≡ filter (λ p. not (p == page)) (noted self.old) }
    {
        self.lost_pages.forget(page);
    }

    /// Gives the host the next page that it is to write; `None` where it has each dirty page already. The host says by
    /// [`written`](BackedStore::written) what became of it. `NoMemory` where memory was refused.
    pub fn give(&mut self) -> Result<Option<GivenPage>, NoMemory>
        ensures same { IsSame self.old self.new }
        // Of one page no two writes are under way.
        ensures alone { IfOk result (λ given. IfSome given (λ g. (is_writing self.old g.page ≡ false) × IsTrue (is_writing self.new g.page))) }
        ensures others { IfOk result (λ given. IfSome given (λ g. (p : ℕ) → p ≢ g.page → is_writing self.new p ≡ is_writing self.old p)) }
        ensures still { IfOk result (λ given. IfNone given ((p : ℕ) → is_writing self.new p ≡ is_writing self.old p)) }
        ensures unchanged { OnErr result ((p : ℕ) → is_writing self.new p ≡ is_writing self.old p) }
        ensures dirty { IfOk result (λ given. IfSome given (λ g. IsTrue (is_dirty self.old g.page))) }
        ensures bytes { IfOk result (λ given. IfSome given (λ g. IsPageOf (contents self.old) g.page g.bytes.items)) }
        ensures len { IfOk result (λ given. IfSome given (λ g. length g.bytes.items ≡ PAGE_BYTES)) }
        ensures given { IfOk result (λ given. IfSome given (λ g. (b : ℕ) →
            (storage_of self.new).given b ≡ with_page g.page (contents self.old) (storage_of self.old).given b)) }
        ensures taken { IfOk result (λ given. IfSome given (λ g.
            ledger_of self.new ≡ and_then (ADealing.Give g.page g.bytes.items) (ledger_of self.old))) }
        ensures untaken { IfOk result (λ given. IfNone given (ledger_of self.new ≡ ledger_of self.old)) }
        ensures refused { OnErr result (ledger_of self.new ≡ ledger_of self.old) }
        ensures none { IfOk result (λ given. IfNone given ((p : ℕ) → IsTrue (is_dirty self.new p) → IsTrue (is_writing self.new p))) }
        ensures kept { (b : ℕ) → backing_of self.new b ≡ backing_of self.old b }
        ensures owed { (p : ℕ) → IsOwed self.old self.new p }
        ensures owing { OwesNoMore self.old self.new }
        // The host has only to keep it then.
        ensures less { IfOk result (λ given. IfSome given (λ g. (n : ℕ) → dues self.new n g.page ≤ 1)) }
        ensures idle { IfOk result (λ given. IfNone given ((n p : ℕ) → IsTrue (owes self.new n p) → IsTrue (is_writing self.new p))) }
        ensures held { (b : ℕ) → holds self.new b ≡ holds self.old b }
    {
        if self.cache.unkept.unwritten.len() == 0 {
            return Ok(None);
        }
        let room = Vec::with_capacity(self.alloc, PAGE_BYTES)?;
        let Some(page) = self.cache.next_unwritten() else {
            return Ok(None);
        };
        let bytes = self.cache.slots.copied(page, room);
        let dealing = Dealing::Given(GivenPage { page, bytes });
        given::record(&mut self.dealings, &dealing);
        match dealing {
            Dealing::Given(given) => Ok(Some(given)),
            Dealing::Kept(_)
            | Dealing::Lost(_)
            | Dealing::Denied(_)
            | Dealing::Loaded(_)
            | Dealing::Cut(_) => Ok(None),
        }
    }

    /// Returns true if the host was given a page to write, and has not answered.
    fn is_under_way(&self, page: u64) -> bool
        ensures { result ≡ is_writing self.now page }
    {
        match self.cache.slots.mark(page) {
            Some(mark) => mark.held && mark.writing,
            None => false,
        }
    }

    /// Notes that the host's write of a page is over: its storage gives the page back as it was given, after a crash too, or
    /// the write failed. A host may sync several writes at once, and then say so of each. The page is clean where it was kept
    /// and didn't change meanwhile; else it is to be written again. Returns true if the host's storage has the page as it was
    /// given: not where no write of it was under way. `NoMemory` where memory was refused: the host says it again later.
    pub fn written(&mut self, page: u64, kept: bool) -> Result<bool, NoMemory>
        ensures same { IsSame self.old self.new }
        ensures given { (b : ℕ) → (storage_of self.new).given b ≡ (storage_of self.old).given b }
        ensures kept { OnOk result ((b : ℕ) → backing_of self.new b
            ≡ (if kept && is_writing self.old page
            then with_page page (storage_of self.old).given (backing_of self.old) b else backing_of self.old b)) }
        ensures told { IfOk result (λ done. done ≡ (kept && is_writing self.old page)) }
        ensures storage { IfOk result (λ done. ledger_of self.new
            ≡ (if done then and_then (ADealing.Keep page) (ledger_of self.old) else ledger_of self.old)) }
        ensures err { OnErr result (ledger_of self.new ≡ ledger_of self.old) }
        ensures over { OnOk result (is_writing self.new page ≡ false) }
        ensures still { OnOk result ((p : ℕ) → p ≢ page → is_writing self.new p ≡ is_writing self.old p) }
        ensures unchanged { OnErr result ((p : ℕ) → is_writing self.new p ≡ is_writing self.old p) }
        // The host's storage can read what it kept, and could write it.
        ensures found { IfOk result (λ done. IsTrue done → is_noted self.new page ≡ false) }
        ensures undenied { IfOk result (λ done. IsTrue done → is_noted_denied self.new page ≡ false) }
        // What changed since the page was given is owed from the first of these changes on.
        ensures again { OnOk result (IsTrue kept → IsTrue (is_rewritten self.old page) → IsTrue (is_dirty self.new page)) }
        ensures later { OnOk result (IsTrue kept → IsTrue (is_rewritten self.old page) → number_of self.new page ≡ again_of self.old page) }
        ensures failed { IfOk result (λ done. IsFalse done → IsTrue (is_dirty self.old page) → IsTrue (is_dirty self.new page)) }
        ensures earlier { IfOk result (λ done. IsFalse done → number_of self.new page ≡ number_of self.old page) }
        ensures unkept { IfOk result (λ done. IsFalse done → IsTrue (is_writing self.old page) → IsTrue (is_dirty self.new page)) }
        ensures others { OnOk result ((p : ℕ) → p ≢ page → IsOwed self.old self.new p) }
        ensures owed { OnErr result ((p : ℕ) → IsOwed self.old self.new p) }
        ensures owing { OnOk result (IsTrue kept → OwesNoMore self.old self.new) }
        ensures paid { OnOk result (IsTrue kept → IsTrue (is_writing self.old page) → (n : ℕ) → 0 < dues self.old n page →
            dues self.new n page < dues self.old n page) }
        ensures due { OnOk result ((n p : ℕ) → p ≢ page → dues self.new n p ≡ dues self.old n p) }
        ensures unpaid { OnErr result (OwesNoMore self.old self.new) }
        ensures held { (b : ℕ) → holds self.new b ≡ holds self.old b }
    {
        if !self.is_under_way(page) {
            return Ok(false);
        }
        self.cache.end_write(page, kept)?;
        if kept {
            self.lost_pages.forget(page);
            self.denied_pages.forget(page);
            given::record(&mut self.dealings, &Dealing::Kept(page));
        }
        Ok(kept)
    }

    /// Notes that the host's storage can't write a page that the host was given. Returns true if a write of it was under way:
    /// that is over then, and the page is to be written again. The commands that wait for it may be tried again, and end with
    /// an error. `NoMemory` where memory was refused: the host says it again later.
    pub fn denied(&mut self, page: u64) -> Result<bool, NoMemory>
        ensures same { IsSame self.old self.new }
        ensures storage { storage_of self.new ≡ storage_of self.old }
        ensures answer { IfOk result (λ done. done ≡ is_writing self.old page) }
        ensures told { IfOk result (λ done. ledger_of self.new
            ≡ (if done then and_then (ADealing.Deny page) (ledger_of self.old) else ledger_of self.old)) }
        ensures err { OnErr result (ledger_of self.new ≡ ledger_of self.old) }
        ensures over { OnOk result (is_writing self.new page ≡ false) }
        ensures still { OnOk result ((p : ℕ) → p ≢ page → is_writing self.new p ≡ is_writing self.old p) }
        ensures unchanged { OnErr result ((p : ℕ) → is_writing self.new p ≡ is_writing self.old p) }
        ensures dirty { OnOk result (IsTrue (is_dirty self.old page) → IsTrue (is_dirty self.new page)) }
        ensures earlier { OnOk result (number_of self.new page ≡ number_of self.old page) }
        ensures unkept { OnOk result (IsTrue (is_writing self.old page) → IsTrue (is_dirty self.new page)) }
        ensures others { OnOk result ((p : ℕ) → p ≢ page → IsOwed self.old self.new p) }
        ensures owed { OnErr result ((p : ℕ) → IsOwed self.old self.new p) }
        ensures due { OnOk result ((n p : ℕ) → p ≢ page → dues self.new n p ≡ dues self.old n p) }
        ensures unpaid { OnErr result (OwesNoMore self.old self.new) }
        ensures held { (b : ℕ) → holds self.new b ≡ holds self.old b }
        // Only this page is noted.
        ensures alone { (p : ℕ) → p ≢ page → IsTrue (is_noted_denied self.new p) → IsTrue (is_noted_denied self.old p) }
        ensures kept { length (noted_denied self.old) < 64 → (p : ℕ) → p ≢ page → is_noted_denied self.new p ≡ is_noted_denied self.old p }
        ensures unnoted { IfOk result (λ done. IsFalse done → noted_denied self.new ≡ noted_denied self.old) }
        ensures noted { noted self.new ≡ noted self.old }
    {
        if !self.is_under_way(page) {
            return Ok(false);
        }
        self.cache.end_write(page, false)?;
        given::record(&mut self.dealings, &Dealing::Denied(page));
        // A page that isn't noted is given again.
        let _noted = self.denied_pages.note(page);
        Ok(true)
    }

    /// Returns the page that was noted as denied at an index, the oldest at 0; `None` from the number of noted pages on. At most
    /// 64 are noted: one more drops the oldest.
    pub fn denied_page(&self, index: usize) -> Option<u64>
        ensures index { result ≡ slice_get (noted_denied self.now) index }
        ensures denied { IfSome result (λ page. is_denied page (ledger_of self.now) ≡ true) }
        ensures bound { IfSome result (λ page. index < 64) }
    {
        self.denied_pages.at(index)
    }

    /// Forgets that a page is denied. Nothing else changes.
    pub fn forget_denied(&mut self, page: u64)
        ensures same { IsSame self.old self.new }
        ensures host { IsHost self.old self.new }
        ensures held { (b : ℕ) → holds self.new b ≡ holds self.old b }
        ensures coming { (b : ℕ) → is_coming self.new b ≡ is_coming self.old b }
        ensures room { (b : ℕ) → has_room self.new b ≡ has_room self.old b }
        ensures noted { noted_denied self.new ≡ filter (λ p. not (p == page)) (noted_denied self.old) }
        ensures lost { noted self.new ≡ noted self.old }
    {
        self.denied_pages.forget(page);
    }

    /// Drops a clean page from memory with which the host has nothing to do, that isn't about to be changed, and that isn't
    /// spared by one of at most 16 ranges. Returns the page; `None` where there is none. Goes round the pages as a clock
    /// does: one that was used since it was last considered is given another round, at most 64 in one call.
    pub fn evict(&mut self, spared: &[PageRange]) -> Option<u64>
        ensures same { IsSame self.old self.new }
        ensures host { IsHost self.old self.new }
        ensures was { IfSome result (λ page. IsTrue (holds self.old (8 * page)) × (is_dirty self.old page ≡ false)) }
        ensures gone { IfSome result (λ page. holds self.new (8 * page) ≡ false) }
        ensures spared { IfSome result (λ page. is_spared spared.now page ≡ false) }
        // So what the host was asked or given before comes to an end before the page is asked for again.
        ensures idle { IfSome result (λ page. (is_reading self.old page ≡ false) × (is_writing self.old page ≡ false)) }
        ensures others { IfSome result (λ page. (b : ℕ) → b / 8 ≢ page → holds self.new b ≡ holds self.old b) }
        ensures none { IfNone result ((p : ℕ) → p < 2 ^ 64 → IsTrue (may_go self.old p) → IsTrue (is_spared spared.now p)) }
        ensures otherwise { IfNone result ((b : ℕ) → holds self.new b ≡ holds self.old b) }
    {
        self.cache.evict(spared)
    }
}
