//! The outstanding chain under each head or id, found by index or by key.

ghost use Rattle.std.specs.Prelude.{◌≡◌, ◌<◌, ◌≤◌, ℕ, length, replicate, get_or, slice_set, None, Some, IfOk, OnOk, OnErr};
ghost use Rattle.ring_core.specs.Table.{tabulated, found_under};
ghost use Rattle.ring_core.specs.Inner.Table.{IsLeastBelow, lesser_of};

use crate::by_id::ChainsById;
use std::alloc::{AllocError, Global};
use std::marker::Model;

/// An outstanding chain, as its queue remembers it.
#[derive(Clone, Copy, PartialEq, Eq)]
pub struct OutstandingChain {
    /// The number of its ticket.
    pub number: u64,
    /// The number of slots of the ring that it takes.
    pub slots: u16,
}

/// The ways in which the chains are kept.
#[derive(Drop)]
pub enum Entries {
    /// An entry for each head, made once: a split queue's heads are below its size.
    ByHead(Vec<Option<OutstandingChain>>),
    /// An entry for each outstanding chain: a packed queue's ids are any of 65,536, of which at
    /// most as many as its size are outstanding.
    ById(ChainsById),
}

/// Returns the chain under an id below a bound, if any.
#[inline(always)]
fn chain_at(chains: &ChainsById, ids: usize, id: u16) -> Option<OutstandingChain>
    ensures { result ≡ get_or (tabulated (found_under chains.now) ids) id None }
{
    if (id as usize) < ids {
        chains.get(id)
    } else {
        None
    }
}

/// Puts a chain under an id.
#[inline(always)]
fn put_chain(chains: &mut ChainsById, id: u16, chain: OutstandingChain) -> Result<(), AllocError>
    ensures ok { OnOk result ((ids : ℕ) → id < ids
        → tabulated (found_under chains.new) ids ≡ slice_set (tabulated (found_under chains.old) ids) id (Some chain)) }
    ensures err { OnErr result ((ids : ℕ) → tabulated (found_under chains.new) ids ≡ tabulated (found_under chains.old) ids) }
{
    chains.put(id, chain)
}

/// Takes the chain from under an id.
#[inline(always)]
fn remove_chain(chains: &mut ChainsById, id: u16)
    ensures { (ids : ℕ) → id < ids
        → tabulated (found_under chains.new) ids ≡ slice_set (tabulated (found_under chains.old) ids) id None }
{
    chains.remove(id);
}

/// Returns the lesser of a number and that of a chain, where there are such.
fn lesser(least: Option<u64>, chain: Option<OutstandingChain>) -> Option<u64>
    ensures { result ≡ lesser_of least chain }
{
    match (least, chain) {
        (least, None) => least,
        (None, Some(chain)) => Some(chain.number),
        (Some(number), Some(chain)) => Some(number.min(chain.number)),
    }
}

/// Returns the least number of the chains under their heads.
fn least_by_head(entries: &[Option<OutstandingChain>]) -> Option<u64>
    ensures { IsLeastBelow entries.now (length entries.now) result }
{
    let mut least = None;
    for entry in entries {
        least = lesser(least, *entry);
    }
    least
}

/// Returns the least number of the chains under the ids below a bound.
fn least_by_id(chains: &ChainsById, ids: usize) -> Option<u64>
    requires { ids ≤ 65536 }
    ensures { IsLeastBelow (tabulated (found_under chains.now) ids) ids result }
{
    let mut least = None;
    for id in 0..ids {
        least = lesser(least, chain_at(chains, ids, id as u16));
    }
    least
}

/// The outstanding chain under each head or id below a bound, seen as a list.
#[derive(Drop)]
pub struct OutstandingTable {
    entries: Entries,
    ids: usize,
}

impl Model for OutstandingTable {
    ghost use Rattle.std.specs.Prelude.{◌≤◌, List, Option};
    ghost use Rattle.ring_core.specs.declared.outstanding.OutstandingChain.{OutstandingChain};

    ghost Value = { List (Option OutstandingChain) };

    ghost use Rattle.ring_core.specs.Table.{entries_listed};

    ghost view = { λ t. entries_listed t.entries t.ids };

    ghost invariant = { λ t. t.ids ≤ 65536 };
}

impl OutstandingTable {
    /// Makes a table with none outstanding under the heads below `ids`, with an entry for each.
    pub(crate) fn by_head(alloc: Global, ids: usize) -> Result<OutstandingTable, AllocError>
        requires { ids ≤ 65536 }
        ensures { IfOk result (λ table. table ≡ replicate ids None) }
    {
        let mut entries = Vec::new(alloc);
        entries.resize(ids, None)?;
        Ok(OutstandingTable {
            entries: Entries::ByHead(entries),
            ids,
        })
    }

    /// Makes a table with none outstanding under the ids below `ids`. It takes no memory.
    pub(crate) fn by_id(alloc: Global, ids: usize) -> OutstandingTable
        requires { ids ≤ 65536 }
        ensures { result ≡ replicate ids None }
    {
        OutstandingTable {
            entries: Entries::ById(ChainsById::new(alloc)),
            ids,
        }
    }

    /// Returns the chain under a head or id, if any.
    #[inline(always)]
    pub(crate) fn get(&self, id: u16) -> Option<OutstandingChain>
        ensures { result ≡ get_or self.now id None }
    {
        match &self.entries {
            Entries::ByHead(entries) => entries.get(id as usize).copied().flatten(),
            Entries::ById(chains) => chain_at(chains, self.ids, id),
        }
    }

    /// Returns the least number of a chain under a head or id, if there is one.
    pub(crate) fn least(&self) -> Option<u64>
        ensures { IsLeastBelow self.now (length self.now) result }
    {
        match &self.entries {
            Entries::ByHead(entries) => least_by_head(entries),
            Entries::ById(chains) => least_by_id(chains, self.ids),
        }
    }

    /// Puts a chain under a head or id.
    #[inline(always)]
    pub(crate) fn put(&mut self, id: u16, chain: OutstandingChain) -> Result<(), AllocError>
        requires { id < length self.old }
        ensures ok { OnOk result (self.new ≡ slice_set self.old id (Some chain)) }
        ensures err { OnErr result (self.new ≡ self.old) }
    {
        match &mut self.entries {
            Entries::ByHead(entries) => {
                entries[id as usize] = Some(chain);
                return Ok(());
            }
            Entries::ById(chains) => {
                return put_chain(chains, id, chain);
            }
        }
    }

    /// Takes the chain from under a head or id. It takes no memory.
    #[inline(always)]
    pub(crate) fn remove(&mut self, id: u16)
        requires { id < length self.old }
        ensures { self.new ≡ slice_set self.old id None }
    {
        match &mut self.entries {
            Entries::ByHead(entries) => {
                entries[id as usize] = None;
                return;
            }
            Entries::ById(chains) => {
                remove_chain(chains, id);
                return;
            }
        }
    }
}
