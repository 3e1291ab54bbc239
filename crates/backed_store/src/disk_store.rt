//! The blocks of a disk, as of any store.

use crate::disk::Disk;
use block_store::{BLOCK_BYTES, Edges, Prepared, Readiness, Store};
use foundation::NoMemory;

impl Store for Disk {
    ghost use Rattle.backed_store.specs.Disks.{size_of, blocks_of, holds, is_coming, has_room, hosted_of, length-block};

    ghost size = { size_of };

    ghost block_at = { blocks_of };

    ghost is_held = { holds };

    ghost is_coming = { is_coming };

    ghost has_room = { has_room };

    ghost storage = { hosted_of };

    ghost whole = { λ d b below. length-block d b };

    fn capacity(&self) -> u64 {
        match self {
            Disk::Whole(store) => store.capacity(),
            Disk::Backed(disk) => disk.capacity(),
        }
    }

    fn ask_to_read(&mut self, first: u64, count: u32) -> Readiness {
        match self {
            Disk::Whole(_) => Readiness::Ready,
            Disk::Backed(disk) => disk.ask_to_read(first, count),
        }
    }

    fn ask_to_write(&mut self, first: u64, count: u32) -> Readiness {
        match self {
            Disk::Whole(_) => Readiness::Ready,
            Disk::Backed(disk) => disk.ask_to_write(first, count),
        }
    }

    fn read_blocks(&self, first: u64, count: u32, into: &mut Vec<u8>) {
        match self {
            Disk::Whole(store) => store.read_blocks(first, count, into),
            Disk::Backed(disk) => disk.read_blocks(first, count, into),
        }
    }

    fn write_blocks(&mut self, first: u64, bytes: &[u8]) -> Result<(), NoMemory> {
        match self {
            Disk::Whole(store) => store.write_blocks(first, bytes),
            Disk::Backed(disk) => disk.write_blocks(first, bytes),
        }
    }

    fn fill_blocks(
        &mut self,
        first: u64,
        count: u32,
        block: &[u8; BLOCK_BYTES],
    ) -> Result<(), NoMemory> {
        match self {
            Disk::Whole(store) => store.fill_blocks(first, count, block),
            Disk::Backed(disk) => disk.fill_blocks(first, count, block),
        }
    }

    fn zero_blocks(&mut self, first: u64, count: u32) {
        match self {
            Disk::Whole(store) => store.zero_blocks(first, count),
            Disk::Backed(disk) => disk.zero_blocks(first, count),
        }
    }

    fn zero_all(&mut self) -> Result<(), NoMemory> {
        match self {
            Disk::Whole(store) => store.zero_all(),
            Disk::Backed(disk) => disk.zero_all(),
        }
    }
}

impl Disk {
    ghost use Rattle.std.specs.Prelude.{◌≡◌, ℕ, ◌+◌, ◌/◌, ◌^◌, ◌<◌, ◌≤◌, IfOk, IfSome, OnErr, IsTrue, IsFalse, false, not, nat_lt, min, if◌then◌else◌};
    ghost use Rattle.block_store.specs.Blocks.{is_within, zero_block};
    ghost use Rattle.block_store.specs.Drafts.{edges_draft, prepared_draft};
    ghost use Rattle.block_store.specs.Inner.Drafts.{IsAsCopied};
    ghost use Rattle.std.specs.Option.{option_map};
    ghost use Rattle.block_store.specs.Storage.{Dealing};
    ghost use Rattle.block_store.specs.Pages.{covered};
    ghost use Rattle.block_store.specs.Inner.Hosted.{hosted_after};
    ghost use Rattle.backed_store.specs.Disks.{size_of, blocks_of, holds, is_coming, has_room, hosted_of, storage_of, is_backed, owes, is_changed, IsBegun, IsOver, IsKeptWhole, AreKept};

    /// Returns true if it isn't backed: all its blocks are in memory, now and later, and can be written over.
    #[inline(always)]
    pub fn is_resident(&self) -> bool
        ensures kind { result ≡ not (is_backed self.now) }
        ensures held { IsTrue result → (b : ℕ) → IsTrue (holds self.now b) }
        ensures room { IsTrue result → (b : ℕ) → IsTrue (has_room self.now b) }
    {
        match self {
            Disk::Whole(_) => true,
            Disk::Backed(_) => false,
        }
    }

    /// Begins a flush of what was changed by now; the one before is forgotten. Nothing is done where it isn't backed.
    pub fn begin_flush(&mut self)
        ensures begun { IsBegun self.new }
        ensures blocks { (b : ℕ) → blocks_of self.new b ≡ blocks_of self.old b }
        ensures size { size_of self.new ≡ size_of self.old }
        ensures storage { storage_of self.new ≡ storage_of self.old }
    {
        match self {
            Disk::Whole(_) => {}
            Disk::Backed(disk) => disk.begin_flush(),
        }
    }

    /// Returns true if the latest flush has what it waits for: the host's storage has each change that was made before it began.
    /// Always where the disk isn't backed: it waits for nothing.
    pub fn is_flush_over(&self) -> bool
        ensures over { IsTrue result → IsOver self.now }
        ensures no { IsFalse result → (p : ℕ) × IsTrue (owes self.now p) }
        ensures whole { is_backed self.now ≡ false → IsTrue result }
    {
        match self {
            Disk::Whole(_) => true,
            Disk::Backed(disk) => disk.is_flush_over(),
        }
    }

    /// Returns true if the host's storage has each block as it is. Always where the disk isn't backed: it has none.
    pub fn is_kept(&self) -> bool
        ensures kept { IsTrue result → IsKeptWhole self.now }
        ensures whole { is_backed self.now ≡ false → IsTrue result }
    {
        match self {
            Disk::Whole(_) => true,
            Disk::Backed(disk) => disk.is_kept(),
        }
    }

    /// Returns true if the host's storage has each block of a range as it is. Always where the disk isn't backed: it has none. It
    /// looks at each page of the range.
    pub fn are_kept(&self, first: u64, count: u32) -> bool
        requires range { first + count ≤ size_of self.now }
        ensures kept { IsTrue result → AreKept self.now first count }
        ensures changed { IsFalse result → (b : ℕ) × IsTrue (is_within first count b) × IsTrue (is_changed self.now (b / 8)) }
        ensures whole { is_backed self.now ≡ false → IsTrue result }
    {
        match self {
            Disk::Whole(_) => true,
            Disk::Backed(disk) => disk.are_kept(first, count),
        }
    }

    /// Notes that a block was read in place, so that its page is given another round before it goes. Nothing else changes.
    #[inline(always)]
    pub fn note_use(&mut self, block: u64)
        ensures blocks { (b : ℕ) → blocks_of self.new b ≡ blocks_of self.old b }
        ensures size { size_of self.new ≡ size_of self.old }
        ensures held { (b : ℕ) → holds self.new b ≡ holds self.old b }
        ensures coming { (b : ℕ) → is_coming self.new b ≡ is_coming self.old b }
        ensures keeps_room { (b : ℕ) → has_room self.new b ≡ has_room self.old b }
        ensures storage { hosted_of self.new ≡ hosted_of self.old }
    {
        match self {
            Disk::Whole(_) => {}
            Disk::Backed(disk) => disk.store.note_use(block),
        }
    }

    /// Copies the pages that a range covers in part, at most two, so that a write of the range can be prepared away
    /// from the disk. `None` where its pages may go: such a write isn't prepared. `NoMemory` where memory was refused.
    pub fn edges(&self, first: u64, count: u32) -> Result<Option<Edges>, NoMemory>
        requires range { first + count ≤ size_of self.now }
        ensures first { IfOk result (λ found. IfSome found (λ edges. (edges_draft edges).first ≡ first)) }
        ensures count { IfOk result (λ found. IfSome found (λ edges. (edges_draft edges).count ≡ count)) }
        ensures copied { IfOk result (λ found. IfSome found (λ edges. IsAsCopied (edges_draft edges) (blocks_of self.now))) }
    {
        match self {
            Disk::Whole(store) => Ok(Some(store.edges(first, count)?)),
            Disk::Backed(_) => Ok(None),
        }
    }

    /// Puts the new pages over the blocks of their range, where the blocks beside it, in these pages, are as they were
    /// copied. Answers true with the pages that stood there, or false with the new pages and nothing changed: so always
    /// where its pages may go. `NoMemory` where memory was refused; nothing is changed then.
    pub fn install(&mut self, prepared: Prepared) -> Result<(bool, Prepared), NoMemory>
        requires range { (prepared_draft prepared).first + (prepared_draft prepared).count ≤ size_of self.old }
        ensures ok { IfOk result (λ answer. (b : ℕ) → blocks_of self.new b
            ≡ (if answer.0 then covered (blocks_of self.old)
            (prepared_draft prepared).blocks (prepared_draft prepared).first (prepared_draft prepared).count b
            else blocks_of self.old b)) }
        ensures first { IfOk result (λ answer. (prepared_draft answer.1).first ≡ (prepared_draft prepared).first) }
        ensures count { IfOk result (λ answer. (prepared_draft answer.1).count ≡ (prepared_draft prepared).count) }
        ensures err { OnErr result ((b : ℕ) → blocks_of self.new b ≡ blocks_of self.old b) }
        ensures size { size_of self.new ≡ size_of self.old }
        ensures held { (b : ℕ) → IsTrue (holds self.old b) → IsTrue (holds self.new b) }
        ensures keeps_room { (b : ℕ) → IsTrue (has_room self.old b) → IsTrue (has_room self.new b) }
        ensures storage { hosted_of self.new ≡ hosted_of self.old }
    {
        match self {
            Disk::Whole(store) => store.install(prepared),
            Disk::Backed(_) => Ok((false, prepared)),
        }
    }

    /// Has so many blocks from now on. Those at or above the new capacity are lost: where it grows again, they are
    /// zeros. The host of a backed disk reads and writes no page of it meanwhile, and cuts its storage off at the lesser
    /// capacity. Takes no memory.
    pub fn resize(&mut self, blocks: u64)
        requires { blocks < 2 ^ 63 }
        ensures size { size_of self.new ≡ blocks }
        ensures blocks { (b : ℕ) → blocks_of self.new b
            ≡ (if nat_lt b (min (size_of self.old) blocks) then blocks_of self.old b else zero_block) }
        ensures storage { hosted_of self.new
            ≡ option_map (hosted_after (Dealing.Cut (min (size_of self.old) blocks))) (hosted_of self.old) }
    {
        match self {
            Disk::Whole(store) => store.resize(blocks),
            Disk::Backed(disk) => disk.resize(blocks),
        }
    }
}
