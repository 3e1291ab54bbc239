//! A store whose pages come and go.

ghost use Rattle.std.specs.Prelude.{◌≡◌, ℕ, ◌/◌, ◌%◌, ◌^◌, ◌<◌, IsTrue, map};
ghost use Rattle.block_store.specs.Blocks.{nth_block};
ghost use Rattle.backed_store.specs.Marks.{is_clean, is_steady};
ghost use Rattle.backed_store.specs.Caches.{state_at, bytes_at};
ghost use Rattle.block_store.specs.Storage.{opening, is_lost, is_denied};
ghost use Rattle.backed_store.specs.Backing.{plain, after_all};
ghost use Rattle.backed_store.specs.Noted.{is_noted};

use crate::cache::Cache;
use crate::dealing::Dealing;
use crate::given;
use crate::noted_pages::NotedPages;
use crate::numbers::pages_of;
use foundation::Record;
use std::alloc::Global;

/// Keeps blocks in pages of 8, of which a bounded number are in memory. The host's storage has the others.
#[derive(Drop)]
pub struct BackedStore {
    pub(crate) alloc: Global,
    pub(crate) capacity: u64,
    pub(crate) cache: Cache,
    // How many reads in place were noted, from 0 again behind the largest number.
    pub(crate) reads: u32,
    // The latest pages that the host said it can't read.
    pub(crate) lost_pages: NotedPages,
    // The latest pages that the host said it can't write.
    pub(crate) denied_pages: NotedPages,
    // The bytes that the storage had at the opening.
    pub(crate) content: Record<u8>,
    // What the host was given since, and kept.
    pub(crate) dealings: Record<Dealing>,
    ghost counted: { capacity < 2 ^ 63 },
    ghost clean: { (b : ℕ) → IsTrue (is_clean (state_at cache (b / 8)))
        → (after_all dealings.items (opening content.items)).kept b ≡ nth_block (bytes_at cache (b / 8)) (b % 8) },
    ghost steady: { (b : ℕ) → IsTrue (is_steady (state_at cache (b / 8)))
        → (after_all dealings.items (opening content.items)).given b ≡ nth_block (bytes_at cache (b / 8)) (b % 8) },
    ghost lost: { (p : ℕ) → IsTrue (is_noted lost_pages p)
        → IsTrue (is_lost p (record { content = content.items; dealings = map plain dealings.items })) },
    ghost denied: { (p : ℕ) → IsTrue (is_noted denied_pages p)
        → IsTrue (is_denied p (record { content = content.items; dealings = map plain dealings.items })) },
}

impl BackedStore {
    ghost use Rattle.std.specs.Prelude.{◌*◌, ◌&&◌, nat_lt, false, min, [], None, if◌then◌else◌};
    ghost use Rattle.block_store.specs.Pages.{blocks_in};
    ghost use Rattle.backed_store.specs.Caches.{mark_at};
    ghost use Rattle.backed_store.specs.Stores.{contents, backing_of, storage_of, ledger_of, holds, is_noted as notes, is_noted_denied, OwesNoMore};
    ghost use Rattle.block_store.specs.Storage.{cut, and_then, Dealing as ADealing};

    /// Makes a store of so many blocks, of which the host's storage has this content. No page is in memory. At most
    /// `budget` pages will be. Takes no memory.
    pub fn new(alloc: Global, blocks: u64, budget: usize, content: Record<u8>) -> BackedStore
        requires { blocks < 2 ^ 63 }
        ensures capacity { result.capacity ≡ blocks }
        ensures blocks { (b : ℕ) → contents result b ≡ blocks_in content.items b }
        ensures backing { (b : ℕ) → backing_of result b ≡ blocks_in content.items b }
        ensures ledger { ledger_of result ≡ record { content = content.items; dealings = [] } }
        ensures absent { (b : ℕ) → holds result b ≡ false }
        ensures noted { (p : ℕ) → notes result p ≡ false }
        ensures noted_denied { (p : ℕ) → is_noted_denied result p ≡ false }
        ensures budget { result.cache.budget ≡ budget }
    {
        BackedStore {
            alloc,
            capacity: blocks,
            cache: Cache::new(alloc, budget),
            reads: 0,
            lost_pages: NotedPages::new(alloc),
            denied_pages: NotedPages::new(alloc),
            content,
            dealings: Record::new(),
        }
    }

    /// Has so many blocks from now on. Those at or above the new capacity are lost: where it grows again, they are zeros.
    /// The host reads and writes no page meanwhile, and cuts its storage off at the lesser capacity. Takes no memory.
    pub fn resize(&mut self, blocks: u64)
        requires { blocks < 2 ^ 63 }
        ensures size { self.new.capacity ≡ blocks }
        ensures blocks { (b : ℕ) → contents self.new b ≡ cut (min self.old.capacity blocks) (contents self.old) b }
        ensures backing { (b : ℕ) → backing_of self.new b ≡ cut (min self.old.capacity blocks) (backing_of self.old) b }
        ensures storage { ledger_of self.new ≡ and_then (ADealing.Cut (min self.old.capacity blocks)) (ledger_of self.old) }
        ensures held { (b : ℕ) → b < min self.old.capacity blocks → holds self.new b ≡ holds self.old b }
        // The host's storage can read the zeros, and has none to write.
        ensures noted { (p : ℕ) → notes self.new p ≡ (nat_lt (8 * p) (min self.old.capacity blocks) && notes self.old p) }
        ensures noted_denied { (p : ℕ) → is_noted_denied self.new p
            ≡ (nat_lt (8 * p) (min self.old.capacity blocks) && is_noted_denied self.old p) }
        ensures marks { (p : ℕ) → mark_at self.new.cache p
            ≡ (if nat_lt (8 * p) (min self.old.capacity blocks) then mark_at self.old.cache p else None) }
        ensures given { (b : ℕ) → (storage_of self.new).given b ≡ cut (min self.old.capacity blocks) (storage_of self.old).given b }
        ensures owing { OwesNoMore self.old self.new }
    {
        let left = self.capacity.min(blocks);
        self.cache.cut(left);
        let end = pages_of(left);
        self.lost_pages.cut(end);
        self.denied_pages.cut(end);
        given::record(&mut self.dealings, &Dealing::Cut(left));
        self.capacity = blocks;
    }
}
