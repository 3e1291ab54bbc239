//! The trait of a store of blocks.

ghost use Rattle.std.specs.Prelude.{◌≡◌, ◌≢◌, ℕ, ◌+◌, ◌*◌, ◌%◌, ◌<◌, ◌≤◌, ◌++◌, Bool, IsTrue, List, length, vec_len, vec_capacity, OnOk, OnErr, Option, is_some, false};
ghost use Rattle.block_store.specs.Blocks.{block_count, overwritten, filled, zeroed, run, is_within, zero_block};
ghost use Rattle.block_store.specs.Inner.Hosted.{Hosted};
ghost use Rattle.block_store.specs.Inner.Pages.{is_beside};
ghost use Rattle.block_store.specs.declared.readiness.Readiness.TheVariants.{Ready, Full};

use crate::Readiness;
use foundation::NoMemory;

/// The bytes of a block.
pub const BLOCK_BYTES: usize = 512;

/// The blocks of a disk, by number from 0 to below the capacity (SBC-3 §4.5).
///
/// The range that a call names lies below the capacity, which its caller sees to; an empty range may
/// stand at the capacity.
///
/// The pages of a store may come and go, while each block keeps its bytes. So a caller sees to it, too, that each block
/// that it reads is in memory. Where it writes over a range, each page of the range has room, and the blocks beside the
/// range in these pages are in memory. `ask_to_read` and `ask_to_write` answer `Ready` where that is so.
pub trait Store {
    // The capacity, in blocks.
    ghost size: { Self → ℕ };

    // The bytes of each block.
    ghost block_at: { Self → ℕ → List ℕ };

    // True if a block is in memory.
    ghost is_held: { Self → ℕ → Bool };

    // True if a block is in memory, or the host is asked for its page.
    ghost is_coming: { Self → ℕ → Bool };

    // True if a block can be written over without more memory for its page.
    ghost has_room: { Self → ℕ → Bool };

    // What the host's storage has of them, and how far the latest flush is, where their pages may go; none where all are in
    // memory, now and later.
    ghost storage: { Self → Option Hosted };

    /// Returns how many blocks there are.
    fn capacity(&self) -> u64
        ensures { result ≡ size self.now };

    /// Asks the host for the pages of a range that aren't in memory, so that its blocks can be read.
    fn ask_to_read(&mut self, first: u64, count: u32) -> Readiness
        requires range { first + count ≤ size self.old }
        ensures ready { result ≡ Ready → (b : ℕ) → IsTrue (is_within first count b) → IsTrue (is_held self.new b) }
        ensures asked { result ≢ Full → (b : ℕ) → IsTrue (is_within first count b) → IsTrue (is_coming self.new b) }
        ensures whole { is_some (storage self.old) ≡ false → result ≡ Ready }
        ensures blocks { (b : ℕ) → block_at self.new b ≡ block_at self.old b }
        ensures held { (b : ℕ) → IsTrue (is_held self.old b) → IsTrue (is_held self.new b) }
        ensures coming { (b : ℕ) → IsTrue (is_coming self.old b) → IsTrue (is_coming self.new b) }
        ensures keeps_room { (b : ℕ) → IsTrue (has_room self.old b) → IsTrue (has_room self.new b) }
        ensures storage { storage self.new ≡ storage self.old }
        ensures size { size self.new ≡ size self.old };

    /// Makes room for the pages of a range, so that its blocks can be written over, and asks the host for those that it
    /// covers in part and that aren't in memory.
    fn ask_to_write(&mut self, first: u64, count: u32) -> Readiness
        requires range { first + count ≤ size self.old }
        ensures room { result ≢ Full → (b : ℕ) → IsTrue (is_within first count b) → IsTrue (has_room self.new b) }
        ensures ready { result ≡ Ready → (b : ℕ) → IsTrue (is_beside first count b) → IsTrue (is_held self.new b) }
        ensures asked { result ≢ Full → (b : ℕ) → IsTrue (is_beside first count b) → IsTrue (is_coming self.new b) }
        ensures whole { is_some (storage self.old) ≡ false → result ≡ Ready }
        ensures blocks { (b : ℕ) → block_at self.new b ≡ block_at self.old b }
        ensures held { (b : ℕ) → IsTrue (is_held self.old b) → IsTrue (is_held self.new b) }
        ensures coming { (b : ℕ) → IsTrue (is_coming self.old b) → IsTrue (is_coming self.new b) }
        ensures keeps_room { (b : ℕ) → IsTrue (has_room self.old b) → IsTrue (has_room self.new b) }
        ensures storage { storage self.new ≡ storage self.old }
        ensures size { size self.new ≡ size self.old };

    /// Appends the bytes of `count` blocks from `first` on to a list that has room for them.
    /// Takes no memory.
    fn read_blocks(&self, first: u64, count: u32, into: &mut Vec<u8>)
        requires range { first + count ≤ size self.now }
        requires held { (b : ℕ) → IsTrue (is_within first count b) → IsTrue (is_held self.now b) }
        requires room { vec_len into.old + BLOCK_BYTES * count ≤ vec_capacity into.old }
        ensures bytes { into.new.items ≡ into.old.items ++ run (block_at self.now) first count }
        ensures len { vec_len into.new ≡ vec_len into.old + BLOCK_BYTES * count }
        ensures keeps_room { vec_capacity into.old ≤ vec_capacity into.new };

    /// Puts the bytes, 512 for each block, over the blocks from `first` on.
    ///
    /// A store that keeps its blocks in pages may want memory: where that is refused, nothing is
    /// changed.
    fn write_blocks(&mut self, first: u64, bytes: &[u8]) -> Result<(), NoMemory>
        requires whole { length bytes.now % BLOCK_BYTES ≡ 0 }
        requires range { first + block_count bytes.now ≤ size self.old }
        requires room { (b : ℕ) → IsTrue (is_within first (block_count bytes.now) b) → IsTrue (has_room self.old b) }
        requires beside { (b : ℕ) → IsTrue (is_beside first (block_count bytes.now) b) → IsTrue (is_held self.old b) }
        ensures ok { OnOk result ((b : ℕ) → block_at self.new b ≡ overwritten (block_at self.old) first bytes.now b) }
        ensures err { OnErr result ((b : ℕ) → block_at self.new b ≡ block_at self.old b) }
        ensures held { (b : ℕ) → IsTrue (is_held self.old b) → IsTrue (is_held self.new b) }
        ensures keeps_room { (b : ℕ) → IsTrue (has_room self.old b) → IsTrue (has_room self.new b) }
        ensures storage { storage self.new ≡ storage self.old }
        ensures size { size self.new ≡ size self.old };

    /// Puts the same 512 bytes into each of `count` blocks from `first` on. May want memory, as
    /// `write_blocks`.
    fn fill_blocks(
        &mut self,
        first: u64,
        count: u32,
        block: &[u8; BLOCK_BYTES],
    ) -> Result<(), NoMemory>
        requires range { first + count ≤ size self.old }
        requires room { (b : ℕ) → IsTrue (is_within first count b) → IsTrue (has_room self.old b) }
        requires beside { (b : ℕ) → IsTrue (is_beside first count b) → IsTrue (is_held self.old b) }
        ensures ok { OnOk result ((b : ℕ) → block_at self.new b ≡ filled (block_at self.old) first count block.now b) }
        ensures err { OnErr result ((b : ℕ) → block_at self.new b ≡ block_at self.old b) }
        ensures held { (b : ℕ) → IsTrue (is_held self.old b) → IsTrue (is_held self.new b) }
        ensures keeps_room { (b : ℕ) → IsTrue (has_room self.old b) → IsTrue (has_room self.new b) }
        ensures storage { storage self.new ≡ storage self.old }
        ensures size { size self.new ≡ size self.old };

    /// Puts zeros into each of `count` blocks from `first` on. Takes no memory.
    fn zero_blocks(&mut self, first: u64, count: u32)
        requires range { first + count ≤ size self.old }
        requires room { (b : ℕ) → IsTrue (is_within first count b) → IsTrue (has_room self.old b) }
        requires beside { (b : ℕ) → IsTrue (is_beside first count b) → IsTrue (is_held self.old b) }
        ensures blocks { (b : ℕ) → block_at self.new b ≡ zeroed (block_at self.old) first count b }
        ensures held { (b : ℕ) → IsTrue (is_held self.old b) → IsTrue (is_held self.new b) }
        ensures keeps_room { (b : ℕ) → IsTrue (has_room self.old b) → IsTrue (has_room self.new b) }
        ensures storage { storage self.new ≡ storage self.old }
        ensures size { size self.new ≡ size self.old };

    /// Puts zeros into every block, at once: it takes longer the more was written, and not the more blocks there are. A store
    /// that can't do so refuses, and nothing is changed. Takes no memory.
    fn zero_all(&mut self) -> Result<(), NoMemory>
        ensures ok { OnOk result ((b : ℕ) → block_at self.new b ≡ zero_block) }
        ensures err { OnErr result ((b : ℕ) → block_at self.new b ≡ block_at self.old b) }
        ensures storage { storage self.new ≡ storage self.old }
        ensures size { size self.new ≡ size self.old };

    // A block has 512 bytes.
    ghost whole: { (s : Self) (b : ℕ) → b < size s → length (block_at s b) ≡ 512 };
}
