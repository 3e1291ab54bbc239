//! Writing bytes over a chain's parts in many goes.

ghost use Rattle.std.specs.Prelude.{◌≡◌, ◌+◌, ◌≤◌, length};
ghost use Rattle.ring_core.specs.Parts.{PartsFit, writable_total};
ghost use Rattle.ring_core.specs.Writes.{Wrote, scatter_writes, stores_of};

use crate::bytes::fill_part;
use crate::chain::Chain;
use crate::descriptor::Part;
use guest_mem::WritableMemory;
use std::marker::Model;

/// A position in the writable parts of a chain, from which bytes are written: so those of many goes follow one another, and
/// no go looks at the parts before it.
#[derive(Drop)]
pub struct Cursor<'a> {
    parts: &'a [Part],
    // The part of the position, and how many bytes of it lie before the position. They may be all.
    index: usize,
    skip: u64,
    // How many writable bytes lie before the position.
    at: u64,
}

impl<'a> Model for Cursor<'a> {
    ghost use Rattle.std.specs.Prelude.{◌≡◌, ◌+◌, take};
    ghost use Rattle.ring_core.specs.Parts.{writable_total};
    ghost use Rattle.ring_core.specs.Inner.Cursor.{PlainCursor};

    ghost Value = { PlainCursor };

    ghost view = { λ c. record { parts = c.parts.now; at = c.at } };

    ghost invariant = { λ c. c.at ≡ writable_total (take c.index c.parts.now) + c.skip };
}

impl<'a> Cursor<'a> {
    /// Makes one at the first writable byte of a chain.
    #[inline(always)]
    pub fn new(chain: &'a Chain) -> Cursor<'a>
        ensures parts { result.parts ≡ chain.now.parts }
        ensures start { result.at ≡ 0 }
    {
        Cursor {
            parts: chain.parts(),
            index: 0,
            skip: 0,
            at: 0,
        }
    }

    /// Writes `bytes` over the writable parts in order, from the position on, and moves it behind them. Where parts
    /// overlap the later write wins. It takes no memory. Called before `Ring::complete`, with a memory of the size that
    /// the chain's had, and with the bytes within the writable parts.
    pub fn write<M: WritableMemory>(&mut self, memory: &mut M, bytes: &[u8])
        requires fits { PartsFit (M.extent memory.old) self.old.parts }
        requires room { self.old.at + length bytes.now ≤ writable_total self.old.parts }
        ensures memory { Wrote (M.may_be memory.old) (M.may_be memory.new) (scatter_writes self.old.parts self.old.at bytes.now) }
        ensures stores { M.stored memory.new
            ≡ M.storing (M.stored memory.old) (stores_of (scatter_writes self.old.parts self.old.at bytes.now)) }
        ensures size { M.extent memory.new ≡ M.extent memory.old }
        ensures parts { self.new.parts ≡ self.old.parts }
        ensures at { self.new.at ≡ self.old.at + length bytes.now }
    {
        let parts = self.parts;
        let mut index = self.index;
        let mut skip = self.skip;
        let mut rest = bytes;
        while !rest.is_empty() {
            let part = &parts[index];
            let len = part.len as u64;
            if part.writable && skip < len {
                let here = fill_part(memory, part, skip, rest);
                rest = &rest[here..];
                skip += here as u64;
            } else {
                if part.writable {
                    skip -= len;
                }
                index += 1;
            }
        }
        self.index = index;
        self.skip = skip;
        self.at += bytes.len() as u64;
    }
}
