//! Pages that are prepared away from a store.

ghost use Rattle.std.specs.Prelude.{◌+◌, ◌^◌, ◌<◌};

use crate::numbers::{page_of, position_of};
use crate::page::Page;
use crate::row;
use foundation::NoMemory;
use std::alloc::Global;

/// A range of blocks, and copies of the pages that it covers in part. Clauses see it as a draft, whose
/// blocks beside the range are those of the store.
#[derive(Drop)]
pub struct Edges {
    pub(crate) alloc: Global,
    pub(crate) first: u64,
    pub(crate) count: u32,
    pub(crate) head: Page,
    pub(crate) tail: Page,
    ghost fits: { first + count < 2 ^ 64 },
}

/// A range of blocks, and the pages of the range. Clauses see it as a draft.
#[derive(Drop)]
pub struct Prepared {
    pub(crate) first: u64,
    pub(crate) count: u32,
    pub(crate) row: Vec<Page>,
    ghost fits: { first + count < 2 ^ 64 },
}

impl Edges {
    ghost use Rattle.std.specs.Prelude.{◌≡◌, ℕ, ◌*◌, length, IfOk};
    ghost use Rattle.block_store.specs.Blocks.{overwritten};
    ghost use Rattle.block_store.specs.Drafts.{edges_draft, prepared_draft};

    /// Makes the new pages of the range, with these bytes, 512 for each block, over its blocks. A page that the range
    /// covers whole takes the memory of a spare page, while there is one, and nothing of its blocks. Spare pages that
    /// are left are freed. Called with no lock held, since it needs no store. `NoMemory` where memory was refused.
    pub fn prepare(self, bytes: &[u8], spare: Option<Prepared>) -> Result<Prepared, NoMemory>
        requires { length bytes.now ≡ 512 * (edges_draft self).count }
        ensures first { IfOk result (λ prepared. (prepared_draft prepared).first ≡ (edges_draft self).first) }
        ensures count { IfOk result (λ prepared. (prepared_draft prepared).count ≡ (edges_draft self).count) }
        ensures blocks { IfOk result (λ prepared. (b : ℕ) → (prepared_draft prepared).blocks b
            ≡ overwritten (edges_draft self).blocks (edges_draft self).first bytes.now b) }
    {
        let Edges {
            alloc,
            first,
            count,
            head,
            tail,
        } = self;
        let last = page_of(first + u64::from(count)) - page_of(first);
        let mut row = row::between(alloc, head, last as usize, tail)?;
        let from = position_of(first) as u64;
        let mut spare = match spare {
            Some(Prepared { row, .. }) => row,
            None => Vec::new(alloc),
        };
        row::set(&mut row, alloc, from, bytes, &mut spare)?;
        Ok(Prepared { first, count, row })
    }
}

impl Prepared {
    ghost use Rattle.std.specs.Prelude.{◌≡◌};
    ghost use Rattle.block_store.specs.Drafts.{prepared_draft};

    /// Returns the first block of the range.
    pub fn first(&self) -> u64
        ensures { result ≡ (prepared_draft self.now).first }
    {
        self.first
    }

    /// Returns how many blocks the range has.
    pub fn count(&self) -> u32
        ensures { result ≡ (prepared_draft self.now).count }
    {
        self.count
    }
}
