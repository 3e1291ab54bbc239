//! The pages of a disk that come and go.

ghost use Rattle.std.specs.Prelude.{◌≡◌, ℕ, ◌*◌, ◌/◌, ◌<◌, ◌==◌, not, true, length, filter, slice_get, IsTrue, IsFalse, IfOk, OnErr, IfSome, IfNone};
ghost use Rattle.std.specs.Option.{option_map};
ghost use Rattle.block_store.specs.Storage.{IsPageOf, Dealing, storage_by, is_lost, is_denied};
ghost use Rattle.block_store.specs.Inner.Hosted.{hosted_after};
ghost use Rattle.backed_store.specs.Disks.{size_of, blocks_of, holds, is_coming, has_room, hosted_of, storage_of, is_backed, noted, noted_denied};

use crate::dealing::GivenPage;
use crate::disk::Disk;
use crate::numbers::PAGE_BYTES;
use crate::page_range::PageRange;
use foundation::NoMemory;

impl Disk {
    /// Returns the next page that the host is to read, and counts it as asked for. The page lies on the disk. `None` where none
    /// is wanted; so always of a disk that isn't backed.
    pub fn next_wanted(&mut self) -> Option<u64>
        ensures blocks { (b : ℕ) → blocks_of self.new b ≡ blocks_of self.old b }
        ensures size { size_of self.new ≡ size_of self.old }
        ensures storage { hosted_of self.new ≡ hosted_of self.old }
        ensures backed { IfSome result (λ page. is_backed self.old ≡ true) }
        ensures below { IfSome result (λ page. 8 * page < size_of self.old) }
    {
        match self {
            Disk::Whole(_) => None,
            Disk::Backed(disk) => disk.store.next_wanted(),
        }
    }

    /// Takes the bytes of a page that the host was asked for, as its storage has them. Returns true if they now stand in
    /// memory. `NoMemory` where memory was refused.
    pub fn load(&mut self, page: u64, bytes: &[u8]) -> Result<bool, NoMemory>
        requires len { length bytes.now ≡ PAGE_BYTES }
        requires kept { IfSome (storage_of self.old) (λ s. IsPageOf (storage_by s).kept page bytes.now) }
        ensures blocks { (b : ℕ) → blocks_of self.new b ≡ blocks_of self.old b }
        ensures size { size_of self.new ≡ size_of self.old }
        ensures backed { IfOk result (λ done. IsTrue done → is_backed self.old ≡ true) }
        ensures loaded { IfOk result (λ done. IsTrue done →
            hosted_of self.new ≡ option_map (hosted_after (Dealing.Load page)) (hosted_of self.old)) }
        ensures otherwise { IfOk result (λ done. IsFalse done → hosted_of self.new ≡ hosted_of self.old) }
        ensures err { OnErr result (hosted_of self.new ≡ hosted_of self.old) }
    {
        match self {
            Disk::Whole(_) => Ok(false),
            Disk::Backed(disk) => disk.load(page, bytes),
        }
    }

    /// Notes that the host can't read a page that it was asked for. Returns true if a command may wait for it.
    pub fn load_failed(&mut self, page: u64) -> bool
        ensures blocks { (b : ℕ) → blocks_of self.new b ≡ blocks_of self.old b }
        ensures size { size_of self.new ≡ size_of self.old }
        ensures storage { hosted_of self.new ≡ hosted_of self.old }
    {
        match self {
            Disk::Whole(_) => false,
            Disk::Backed(disk) => disk.store.load_failed(page),
        }
    }

    /// Notes that the host's storage can't read a page that the host was asked for. Returns true if a command may wait for it:
    /// the host was asked for it, and it isn't in memory. Then the commands that wait for it may be tried again, and end with
    /// an error.
    pub fn lost(&mut self, page: u64) -> bool
        ensures blocks { (b : ℕ) → blocks_of self.new b ≡ blocks_of self.old b }
        ensures size { size_of self.new ≡ size_of self.old }
        ensures backed { IsTrue result → is_backed self.old ≡ true }
        ensures lost { IsTrue result → hosted_of self.new ≡ option_map (hosted_after (Dealing.Lose page)) (hosted_of self.old) }
        ensures otherwise { IsFalse result → hosted_of self.new ≡ hosted_of self.old }
    {
        match self {
            Disk::Whole(_) => false,
            Disk::Backed(disk) => disk.lost(page),
        }
    }

    /// Returns the page that was noted as lost at an index, the oldest at 0. `None` from the number of noted pages on, which is
    /// at most 64; so always of a disk that isn't backed. Takes no memory.
    pub fn lost_page(&self, index: usize) -> Option<u64>
        ensures index { result ≡ slice_get (noted self.now) index }
        ensures bound { IfSome result (λ page. index < 64) }
        ensures lost { IfSome result (λ page. (is_backed self.now ≡ true) × IfSome (storage_of self.now) (λ l. is_lost page l ≡ true)) }
    {
        match self {
            Disk::Whole(_) => None,
            Disk::Backed(disk) => disk.store.lost_page(index),
        }
    }

    /// Forgets that a page is lost. Nothing else changes.
    pub fn forget_lost(&mut self, page: u64)
        ensures blocks { (b : ℕ) → blocks_of self.new b ≡ blocks_of self.old b }
        ensures size { size_of self.new ≡ size_of self.old }
        ensures storage { hosted_of self.new ≡ hosted_of self.old }
        ensures held { (b : ℕ) → holds self.new b ≡ holds self.old b }
        ensures coming { (b : ℕ) → is_coming self.new b ≡ is_coming self.old b }
        ensures keeps_room { (b : ℕ) → has_room self.new b ≡ has_room self.old b }
        ensures noted { noted self.new ≡ filter (λ p. not (p == page)) (noted self.old) }
    {
        match self {
            Disk::Whole(_) => {}
            Disk::Backed(disk) => disk.store.forget_lost(page),
        }
    }

    /// Gives the host the next page that it is to write, as it is; `None` where it has each dirty page already. `NoMemory`
    /// where memory was refused.
    pub fn give(&mut self) -> Result<Option<GivenPage>, NoMemory>
        ensures blocks { (b : ℕ) → blocks_of self.new b ≡ blocks_of self.old b }
        ensures size { size_of self.new ≡ size_of self.old }
        ensures backed { IfOk result (λ given. IfSome given (λ g. is_backed self.old ≡ true)) }
        ensures bytes { IfOk result (λ given. IfSome given (λ g. IsPageOf (blocks_of self.old) g.page g.bytes.items)) }
        ensures len { IfOk result (λ given. IfSome given (λ g. length g.bytes.items ≡ PAGE_BYTES)) }
        ensures given { IfOk result (λ given. IfSome given (λ g.
            hosted_of self.new ≡ option_map (hosted_after (Dealing.Give g.page g.bytes.items)) (hosted_of self.old))) }
        ensures now { IfOk result (λ given. IfSome given (λ g. IfSome (storage_of self.new) (λ l. (b : ℕ) → b / 8 ≡ g.page →
            (storage_by l).given b ≡ blocks_of self.old b))) }
        ensures none { IfOk result (λ given. IfNone given (hosted_of self.new ≡ hosted_of self.old)) }
        ensures err { OnErr result (hosted_of self.new ≡ hosted_of self.old) }
    {
        match self {
            Disk::Whole(_) => Ok(None),
            Disk::Backed(disk) => disk.give(),
        }
    }

    /// Notes that the host's write of a page is over: its storage gives the page back as it was given, after a crash too, or
    /// the write failed. Returns true if its storage has the page so now: not where no write of it was under way. `NoMemory`
    /// where memory was refused: the host says it again later.
    pub fn written(&mut self, page: u64, kept: bool) -> Result<bool, NoMemory>
        ensures blocks { (b : ℕ) → blocks_of self.new b ≡ blocks_of self.old b }
        ensures size { size_of self.new ≡ size_of self.old }
        ensures backed { IfOk result (λ done. IsTrue done → is_backed self.old ≡ true) }
        ensures told { IfOk result (λ done. IsTrue done → IsTrue kept) }
        ensures kept { IfOk result (λ done. IsTrue done →
            hosted_of self.new ≡ option_map (hosted_after (Dealing.Keep page)) (hosted_of self.old)) }
        ensures otherwise { IfOk result (λ done. IsFalse done → hosted_of self.new ≡ hosted_of self.old) }
        ensures err { OnErr result (hosted_of self.new ≡ hosted_of self.old) }
    {
        match self {
            Disk::Whole(_) => Ok(false),
            Disk::Backed(disk) => disk.written(page, kept),
        }
    }

    /// Notes that the host's storage can't write a page that the host was given. Returns true if a write of it was under way:
    /// that is over then, and the page is to be written again. The commands that wait for it may be tried again, and end with
    /// an error. `NoMemory` where memory was refused: the host says it again later.
    pub fn denied(&mut self, page: u64) -> Result<bool, NoMemory>
        ensures blocks { (b : ℕ) → blocks_of self.new b ≡ blocks_of self.old b }
        ensures size { size_of self.new ≡ size_of self.old }
        ensures backed { IfOk result (λ done. IsTrue done → is_backed self.old ≡ true) }
        ensures denied { IfOk result (λ done. IsTrue done →
            hosted_of self.new ≡ option_map (hosted_after (Dealing.Deny page)) (hosted_of self.old)) }
        ensures otherwise { IfOk result (λ done. IsFalse done → hosted_of self.new ≡ hosted_of self.old) }
        ensures err { OnErr result (hosted_of self.new ≡ hosted_of self.old) }
    {
        match self {
            Disk::Whole(_) => Ok(false),
            Disk::Backed(disk) => disk.denied(page),
        }
    }

    /// Returns the page that was noted as denied at an index, the oldest at 0. `None` from the number of noted pages on, which is
    /// at most 64; so always of a disk that isn't backed. Takes no memory.
    pub fn denied_page(&self, index: usize) -> Option<u64>
        ensures index { result ≡ slice_get (noted_denied self.now) index }
        ensures bound { IfSome result (λ page. index < 64) }
        ensures denied { IfSome result (λ page. (is_backed self.now ≡ true) × IfSome (storage_of self.now) (λ l. is_denied page l ≡ true)) }
    {
        match self {
            Disk::Whole(_) => None,
            Disk::Backed(disk) => disk.store.denied_page(index),
        }
    }

    /// Forgets that a page is denied. Nothing else changes.
    pub fn forget_denied(&mut self, page: u64)
        ensures blocks { (b : ℕ) → blocks_of self.new b ≡ blocks_of self.old b }
        ensures size { size_of self.new ≡ size_of self.old }
        ensures storage { hosted_of self.new ≡ hosted_of self.old }
        ensures held { (b : ℕ) → holds self.new b ≡ holds self.old b }
        ensures coming { (b : ℕ) → is_coming self.new b ≡ is_coming self.old b }
        ensures keeps_room { (b : ℕ) → has_room self.new b ≡ has_room self.old b }
        ensures noted { noted_denied self.new ≡ filter (λ p. not (p == page)) (noted_denied self.old) }
    {
        match self {
            Disk::Whole(_) => {}
            Disk::Backed(disk) => disk.store.forget_denied(page),
        }
    }

    /// Drops a clean page from memory, as [`BackedStore::evict`](crate::BackedStore::evict) does. Returns true if one went; never
    /// of a disk that isn't backed.
    pub fn evict(&mut self, spared: &[PageRange]) -> bool
        ensures blocks { (b : ℕ) → blocks_of self.new b ≡ blocks_of self.old b }
        ensures size { size_of self.new ≡ size_of self.old }
        ensures storage { hosted_of self.new ≡ hosted_of self.old }
    {
        match self {
            Disk::Whole(_) => false,
            Disk::Backed(disk) => disk.store.evict(spared).is_some(),
        }
    }
}
