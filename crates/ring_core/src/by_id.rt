//! The outstanding chains of a packed queue, found by their ids.

ghost use Rattle.std.specs.Prelude.{◌≡◌, ◌≢◌, ℕ, None, Some, OnOk, OnErr};
ghost use Rattle.std.specs.Ordering.{nat_cmp};
ghost use Rattle.std.specs.BTreeMap.{get};
ghost use Rattle.ring_core.specs.Table.{found_under};
ghost use Rattle.ring_core.specs.Inner.Table.{is_under};

use crate::outstanding::OutstandingChain;
use std::alloc::{AllocError, Global};
use std::collections::BTreeMap;

/// A chain, with its id.
#[derive(Clone, Copy)]
pub struct IdAndChain {
    pub(crate) id: u16,
    pub(crate) chain: OutstandingChain,
}

/// The outstanding chains under their ids, which are any of 65,536.
#[derive(Drop)]
pub struct ChainsById {
    // One that found this entry free. Where each chain is used before the next is taken, the map is never touched.
    pub(crate) first: Option<IdAndChain>,
    // The others.
    pub(crate) others: BTreeMap<u16, OutstandingChain>,
}

/// Returns true if a chain has this id.
#[inline(always)]
fn is_under(one: &Option<IdAndChain>, id: u16) -> bool
    ensures { result ≡ is_under one.now id }
{
    match one {
        Some(one) => one.id == id,
        None => false,
    }
}

/// Puts a chain under an id of a map.
#[inline(never)]
fn put_into(
    chains: &mut BTreeMap<u16, OutstandingChain>,
    id: u16,
    chain: OutstandingChain,
) -> Result<(), AllocError>
    ensures here { OnOk result (get nat_cmp chains.new id ≡ Some chain) }
    ensures others { OnOk result ((other : ℕ) → other ≢ id → get nat_cmp chains.new other ≡ get nat_cmp chains.old other) }
    ensures err { OnErr result ((any : ℕ) → get nat_cmp chains.new any ≡ get nat_cmp chains.old any) }
{
    match chains.insert(id, chain) {
        Ok(_) => Ok(()),
        Err(_) => Err(AllocError),
    }
}

/// Takes the chain from under an id of a map.
#[inline(never)]
fn remove_from(chains: &mut BTreeMap<u16, OutstandingChain>, id: u16)
    ensures here { get nat_cmp chains.new id ≡ None }
    ensures others { (other : ℕ) → other ≢ id → get nat_cmp chains.new other ≡ get nat_cmp chains.old other }
{
    let _ = chains.remove(&id);
}

impl ChainsById {
    /// Makes one with no chain. It takes no memory.
    pub(crate) fn new(alloc: Global) -> ChainsById
        ensures { (id : ℕ) → found_under result id ≡ None }
    {
        ChainsById {
            first: None,
            others: BTreeMap::new(alloc),
        }
    }

    /// Returns the chain under an id, if any.
    #[inline(always)]
    pub(crate) fn get(&self, id: u16) -> Option<OutstandingChain>
        ensures { result ≡ found_under self.now id }
    {
        if let Some(first) = &self.first {
            if first.id == id {
                return Some(first.chain);
            }
        }
        if self.others.is_empty() {
            return None;
        }
        self.others.get(&id).copied()
    }

    /// Puts a chain under an id. Refused where the map can't grow.
    #[inline(always)]
    pub(crate) fn put(&mut self, id: u16, chain: OutstandingChain) -> Result<(), AllocError>
        ensures here { OnOk result (found_under self.new id ≡ Some chain) }
        ensures others { OnOk result ((other : ℕ) → other ≢ id → found_under self.new other ≡ found_under self.old other) }
        ensures err { OnErr result ((any : ℕ) → found_under self.new any ≡ found_under self.old any) }
    {
        if self.first.is_none() || is_under(&self.first, id) {
            self.first = Some(IdAndChain { id, chain });
            return Ok(());
        }
        put_into(&mut self.others, id, chain)
    }

    /// Takes the chain from under an id. It takes no memory.
    #[inline(always)]
    pub(crate) fn remove(&mut self, id: u16)
        ensures here { found_under self.new id ≡ None }
        ensures others { (other : ℕ) → other ≢ id → found_under self.new other ≡ found_under self.old other }
    {
        if is_under(&self.first, id) {
            self.first = None;
        }
        if !self.others.is_empty() {
            remove_from(&mut self.others, id);
        }
    }
}
