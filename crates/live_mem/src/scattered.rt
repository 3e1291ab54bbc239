//! Bytes that a phase read in many short reads, found by their addresses.

ghost use Rattle.std.specs.Prelude.{ℕ, ◌≡◌, ◌≢◌, ◌+◌, ◌-◌, ◌*◌, ◌/◌, ◌<◌, ◌≤◌, ◌^◌, length, cond, get_or, None, Some, OnOk, IsSome, IsTrue};
ghost use Rattle.std.specs.Ordering.{nat_cmp};
ghost use Rattle.std.specs.BTreeMap.{get};
ghost use Rattle.live_mem.specs.Access.{spans};
ghost use Rattle.live_mem.specs.Scattered.{byte_or, in_granule, scattered_at};

use std::alloc::{AllocError, Global};
use std::collections::BTreeMap;

/// The bytes of a granule.
const GRANULE: u64 = 16;

/// The bytes that were read, by granules of 16: granule `key` has the bytes from address 16 * `key` on, where they were read.
#[derive(Drop)]
pub(crate) struct Scattered {
    granules: BTreeMap<u64, [Option<u8>; 16]>,
}

/// Keeps at an index of a granule the one of the bytes from `addr` on that stands there, if any.
#[inline(always)]
fn fill_place(granule: &mut [Option<u8>; 16], index: usize, at: u64, addr: u64, out: &[u8])
    requires small { addr + length out.now ≤ 2 ^ 52 }
    requires index { index < 16 }
    ensures here { get_or granule.new index None
        ≡ cond (spans addr (length out.now) at) (Some (get_or out.now (at - addr) 0)) (get_or granule.old index None) }
    ensures others { (other : ℕ) → other ≢ index → get_or granule.new other None ≡ get_or granule.old other None }
{
    if addr <= at && at < addr + out.len() as u64 {
        granule[index] = Some(out[(at - addr) as usize]);
    }
}

/// Keeps in a granule those of the bytes from `addr` on that lie in it.
fn fill(granule: &mut [Option<u8>; 16], key: u64, addr: u64, out: &[u8])
    requires small { addr + length out.now ≤ 2 ^ 52 }
    requires key { key ≤ 2 ^ 52 }
    ensures { (j : ℕ) → j < 16 → get_or granule.new j None
        ≡ cond (spans addr (length out.now) (16 * key + j)) (Some (get_or out.now (16 * key + j - addr) 0)) (get_or granule.old j None) }
{
    for index in 0..16 {
        fill_place(granule, index, GRANULE * key + index as u64, addr, out);
    }
}

/// Puts what is kept for address `at` over `out`, which has the bytes from `addr` on.
#[inline(always)]
fn put_place(kept: Option<u8>, at: u64, addr: u64, out: &mut [u8])
    requires small { addr + length out.old ≤ 2 ^ 52 }
    ensures len { length out.new ≡ length out.old }
    ensures here { (i : ℕ) → i < length out.old → addr + i ≡ at → get_or out.new i 0 ≡ byte_or kept (get_or out.old i 0) }
    ensures others { (i : ℕ) → addr + i ≢ at → get_or out.new i 0 ≡ get_or out.old i 0 }
{
    if addr <= at && at < addr + out.len() as u64 {
        if let Some(byte) = kept {
            out[(at - addr) as usize] = byte;
        }
    }
}

/// Puts those of a granule's bytes that lie in the range from `addr` on over `out`.
fn put(granule: &[Option<u8>; 16], key: u64, addr: u64, out: &mut [u8])
    requires small { addr + length out.old ≤ 2 ^ 52 }
    requires key { key ≤ 2 ^ 52 }
    ensures len { length out.new ≡ length out.old }
    ensures over { (i : ℕ) → i < length out.old → get_or out.new i 0
        ≡ cond (spans (16 * key) 16 (addr + i)) (byte_or (get_or granule.now (addr + i - 16 * key) None) (get_or out.old i 0)) (get_or out.old i 0) }
{
    for index in 0..16 {
        put_place(granule[index], GRANULE * key + index as u64, addr, out);
    }
}

/// Puts what is kept under a key over `out`, which has the bytes from `addr` on.
#[inline(always)]
fn put_under(granules: &BTreeMap<u64, [Option<u8>; 16]>, key: u64, addr: u64, out: &mut [u8])
    requires small { addr + length out.old ≤ 2 ^ 52 }
    requires key { key ≤ 2 ^ 52 }
    ensures len { length out.new ≡ length out.old }
    ensures over { (i : ℕ) → i < length out.old → get_or out.new i 0
        ≡ cond (spans (16 * key) 16 (addr + i)) (in_granule (get nat_cmp granules.now key) (addr + i - 16 * key) (get_or out.old i 0)) (get_or out.old i 0) }
{
    if let Some(granule) = granules.get(&key) {
        put(granule, key, addr, out);
    }
}

/// Keeps under a key those of the bytes from `addr` on that lie in its granule.
fn fill_under(granules: &mut BTreeMap<u64, [Option<u8>; 16]>, key: u64, addr: u64, out: &[u8])
    requires small { addr + length out.now ≤ 2 ^ 52 }
    requires key { key ≤ 2 ^ 52 }
    requires room { IsSome (get nat_cmp granules.old key) }
    ensures here { (j d : ℕ) → j < 16 → in_granule (get nat_cmp granules.new key) j d
        ≡ cond (spans addr (length out.now) (16 * key + j)) (get_or out.now (16 * key + j - addr) 0) (in_granule (get nat_cmp granules.old key) j d) }
    ensures others { (other : ℕ) → other ≢ key → get nat_cmp granules.new other ≡ get nat_cmp granules.old other }
{
    if let Some(granule) = granules.get_mut(&key) {
        fill(granule, key, addr, out);
    }
}

/// Makes room under a key.
fn make_under(granules: &mut BTreeMap<u64, [Option<u8>; 16]>, key: u64) -> Result<(), AllocError>
    ensures same { (other j d : ℕ) → in_granule (get nat_cmp granules.new other) j d ≡ in_granule (get nat_cmp granules.old other) j d }
    ensures made { OnOk result (IsSome (get nat_cmp granules.new key)) }
    ensures stays { (other : ℕ) → IsSome (get nat_cmp granules.old other) → IsSome (get nat_cmp granules.new other) }
{
    if granules.contains_key(&key) {
        return Ok(());
    }
    match granules.insert(key, [None; 16]) {
        Ok(_) => Ok(()),
        Err(_) => Err(AllocError),
    }
}

impl Scattered {
    ghost use Rattle.live_mem.specs.Inner.Places.{HasPlaces};

    /// Keeps nothing. It takes no memory.
    pub(crate) fn new(alloc: Global) -> Scattered
        ensures { (p d : ℕ) → scattered_at result p d ≡ d }
    {
        Scattered {
            granules: BTreeMap::new(alloc),
        }
    }

    /// Returns true if nothing is kept.
    #[inline(always)]
    pub(crate) fn is_bare(&self) -> bool
        ensures { IsTrue result → (p d : ℕ) → scattered_at self.now p d ≡ d }
    {
        self.granules.is_empty()
    }

    /// Forgets everything.
    pub(crate) fn clear(&mut self)
        ensures { (p d : ℕ) → scattered_at self.new p d ≡ d }
    {
        if !self.granules.is_empty() {
            self.granules.clear();
        }
    }

    /// Makes room to keep `len` bytes from `addr` on, and changes nothing that is kept.
    #[inline(never)]
    pub(crate) fn make_room(&mut self, addr: u64, len: usize) -> Result<(), AllocError>
        requires { addr + len ≤ 2 ^ 52 }
        ensures same { (p d : ℕ) → scattered_at self.new p d ≡ scattered_at self.old p d }
        ensures made { OnOk result (HasPlaces self.new addr len) }
    {
        for key in addr / GRANULE..(addr + len as u64 + 15) / GRANULE {
            make_under(&mut self.granules, key)?;
        }
        Ok(())
    }

    /// Puts what is kept over `out`, which has the bytes from `addr` on.
    #[inline(always)]
    pub(crate) fn put_over(&self, addr: u64, out: &mut [u8])
        requires { addr + length out.old ≤ 2 ^ 52 }
        ensures len { length out.new ≡ length out.old }
        ensures over { (i : ℕ) → i < length out.old → get_or out.new i 0 ≡ scattered_at self.now (addr + i) (get_or out.old i 0) }
    {
        if self.granules.is_empty() {
            return;
        }
        self.put_granules_over(addr, out);
    }

    /// Does the same by a look at each granule.
    #[inline(never)]
    fn put_granules_over(&self, addr: u64, out: &mut [u8])
        requires { addr + length out.old ≤ 2 ^ 52 }
        ensures len { length out.new ≡ length out.old }
        ensures over { (i : ℕ) → i < length out.old → get_or out.new i 0 ≡ scattered_at self.now (addr + i) (get_or out.old i 0) }
    {
        for key in addr / GRANULE..(addr + out.len() as u64 + 15) / GRANULE {
            put_under(&self.granules, key, addr, out);
        }
    }

    /// Keeps bytes that were read from `addr` on, for which there is room.
    #[inline(never)]
    pub(crate) fn keep(&mut self, addr: u64, out: &[u8])
        requires small { addr + length out.now ≤ 2 ^ 52 }
        requires room { HasPlaces self.old addr (length out.now) }
        ensures { (p d : ℕ) → scattered_at self.new p d
            ≡ cond (spans addr (length out.now) p) (get_or out.now (p - addr) 0) (scattered_at self.old p d) }
    {
        for key in addr / GRANULE..(addr + out.len() as u64 + 15) / GRANULE {
            fill_under(&mut self.granules, key, addr, out);
        }
    }
}
