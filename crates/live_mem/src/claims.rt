//! The runs that a phase claims, to read each of them once and to keep none.

ghost use Rattle.std.specs.Prelude.{ℕ, ◌≡◌, ◌<◌, ◌≤◌, ◌+◌, ◌^◌, ◌++◌, ◌∷◌, [], length, get_or};
ghost use Rattle.std.specs.Prelude.{true, false, IsTrue, IsFalse, IsOk, OnOk, OnErr};
ghost use Rattle.live_mem.specs.Access.{spans};
ghost use Rattle.live_mem.specs.Claims.{AreApart, LieIn, claims_at};

use std::alloc::{AllocError, Global};

/// A run of bytes: `len` of them from the guest's address `addr` on.
#[derive(Clone, Copy)]
pub struct Claim {
    pub addr: u64,
    pub len: usize,
}

/// The most runs that a phase claims. One that lies neither before all others nor behind them is compared with each.
const MOST_CLAIMS: usize = 128;

/// The runs that a phase claimed, in the order in which they are read, and how many of them were. No two have an address in
/// common. All lie from `low` up to `high`.
#[derive(Drop)]
pub(crate) struct Claims {
    runs: Vec<Claim>,
    read: usize,
    low: u64,
    high: u64,
    ghost inside: { read ≤ length runs.items },
    ghost apart: { AreApart runs.items },
    ghost between: { LieIn runs.items low high },
}

/// Returns true if the run has an address from `addr` up to `end`, or is empty and lies between.
#[inline(always)]
fn meets(run: &Claim, addr: u64, end: u64) -> bool
    ensures { IsFalse result → (p : ℕ) → spans run.now.addr run.now.len p ≡ true → addr ≤ p → p < end → ⊥ }
{
    run.addr < end && addr < run.addr.saturating_add(run.len as u64)
}

/// Returns true if none of the runs has an address from `addr` up to `end`.
fn miss(runs: &[Claim], addr: u64, end: u64) -> bool
    ensures { IsTrue result → (k p : ℕ) (e : Claim) → k < length runs.now → claims_at runs.now k e p ≡ true
        → addr ≤ p → p < end → ⊥ }
{
    for run in runs {
        if meets(run, addr, end) {
            return false;
        }
    }
    true
}

impl Claims {
    /// Claims nothing. It takes no memory.
    pub(crate) fn new(alloc: Global) -> Claims
        ensures runs { result.runs.items ≡ [] }
    {
        Claims {
            runs: Vec::new(alloc),
            read: 0,
            low: u64::MAX,
            high: 0,
        }
    }

    /// Forgets all runs, and keeps their room.
    #[inline(always)]
    pub(crate) fn clear(&mut self)
        ensures runs { self.new.runs.items ≡ [] }
    {
        self.runs.clear();
        self.read = 0;
        self.low = u64::MAX;
        self.high = 0;
    }

    /// Forgets all runs, so that what isn't claimed may be read. An error, with nothing changed, where one of them was read.
    #[inline(always)]
    pub(crate) fn give_up(&mut self) -> Result<(), AllocError>
        ensures runs { OnOk result (self.new.runs.items ≡ []) }
        ensures unread { OnOk result (self.old.read ≡ 0) }
        ensures same { OnErr result (self.new ≡ self.old) }
        ensures succeeds { self.old.runs.items ≡ [] → IsOk result }
    {
        if self.runs.is_empty() {
            return Ok(());
        }
        if self.read > 0 {
            return Err(AllocError);
        }
        self.clear();
        Ok(())
    }

    /// Returns true if no run has an address from `addr` up to `end`.
    #[inline(always)]
    fn leave_free(&self, addr: u64, end: u64) -> bool
        ensures { IsTrue result → (k p : ℕ) (e : Claim) → k < length self.now.runs.items
            → claims_at self.now.runs.items k e p ≡ true → addr ≤ p → p < end → ⊥ }
    {
        addr >= self.high || end <= self.low || miss(self.runs.as_slice(), addr, end)
    }

    /// Claims a run behind the others, if it has no address in common with them and none of them was read. Returns true if it
    /// was claimed.
    #[inline(always)]
    pub(crate) fn add(&mut self, addr: u64, len: usize) -> bool
        requires { addr + len ≤ 2 ^ 52 }
        ensures added { IsTrue result
            → self.new.runs.items ≡ self.old.runs.items ++ record { addr = addr; len = len } ∷ [] }
        ensures unread { IsTrue result → (self.old.read ≡ 0) × (self.new.read ≡ 0) }
        ensures same { IsFalse result → self.new.runs.items ≡ self.old.runs.items }
        ensures none { IsFalse result → self.new.read ≡ self.old.read }
    {
        let end = addr + len as u64;
        if self.read > 0 || self.runs.len() >= MOST_CLAIMS || !self.leave_free(addr, end) {
            return false;
        }
        if self.runs.reserve(1).is_err() {
            return false;
        }
        self.runs.push_reserved(Claim { addr, len });
        self.low = self.low.min(addr);
        self.high = self.high.max(end);
        true
    }

    /// Returns true if the run to be read next has `len` bytes from `addr` on.
    #[inline(always)]
    pub(crate) fn has_next(&self, addr: u64, len: usize) -> bool
        ensures some { IsTrue result → self.now.read < length self.now.runs.items }
        ensures next { IsTrue result → (e : Claim) → get_or self.now.runs.items self.now.read e ≡ record { addr = addr; len = len } }
    {
        if self.read >= self.runs.len() {
            return false;
        }
        let next = self.runs[self.read];
        next.addr == addr && next.len == len
    }

    /// Notes that the next run was read.
    #[inline(always)]
    pub(crate) fn pass(&mut self)
        requires { self.old.read < length self.old.runs.items }
        ensures runs { self.new.runs ≡ self.old.runs }
        ensures read { self.new.read ≡ self.old.read + 1 }
    {
        self.read += 1;
    }
}
