//! What a phase read, so that it reads no byte twice.

ghost use Rattle.std.specs.Prelude.{ℕ, ◌≡◌, ◌↔◌, ◌+◌, ◌<◌, ◌≤◌, ◌^◌, [], List, length, cond, get_or, false, IfOk, IsOk, IsTrue};
ghost use Rattle.guest_mem.specs.Memory.{bytes_at, with_bytes};
ghost use Rattle.live_mem.specs.Access.{spans};
ghost use Rattle.live_mem.specs.Kept.{source, covers, byte_of, valued, AreKept, IsFree};
ghost use Rattle.live_mem.specs.Inner.Kept.{Keeps};
ghost use Rattle.std.specs.Vec.{vec_capacity};

use crate::bus::Bus;
use crate::long_runs::LongRuns;
use crate::recorded::RecordedBus;
use crate::span::{SHORT, Span};
use std::alloc::{AllocError, Global};

/// The spans that a phase read, with their bytes. No span has an address below `low`, none from `high` on, and none from
/// `free_from` up to `free_to`. A read in one of these ranges looks at no span.
#[derive(Drop)]
pub(crate) struct Kept {
    spans: Vec<Span>,
    long: LongRuns,
    low: u64,
    high: u64,
    free_from: u64,
    free_to: u64,
    ghost all: { AreKept spans.items long.bytes },
    ghost below: { IsFree spans.items long.bytes 0 low },
    ghost above: { IsFree spans.items long.bytes high (2 ^ 64) },
    ghost free: { IsFree spans.items long.bytes free_from free_to },
    ghost inside: { free_to ≤ high },
    ghost ordered: { 0 < high → low ≤ high },
    ghost unread: { high ≡ 0 → 0 < low → low + 1 ≡ 2 ^ 64 },
    ghost on_one_side: { free_from < low → free_to ≤ low },
    ghost roomy: { 64 ≤ vec_capacity spans },
}

/// The number of spans for which there always is room.
const LEAST_ROOM: usize = 64;

/// The least range between two reads that is worth to be noted: a walk along a ring leaves smaller ones.
const GAP: u64 = 256;

/// Returns `len` bytes from index `start` on.
fn part(bytes: &[u8], start: usize, len: usize) -> &[u8]
    requires { start + len ≤ length bytes.now }
    ensures bytes { result.now ≡ bytes_at bytes.now start len }
    ensures len { length result.now ≡ len }
{
    &bytes[start..start + len]
}

/// Puts bytes at an index.
fn put_at(out: &mut [u8], at: usize, bytes: &[u8])
    requires { at + length bytes.now ≤ length out.old }
    ensures bytes { out.new ≡ with_bytes out.old at bytes.now }
    ensures len { length out.new ≡ length out.old }
{
    out[at..at + bytes.len()].copy_from_slice(bytes);
}

/// Returns a short run in the room for one.
#[tactic(auto, using(crate::proofs::Over::with_in))]
#[inline(always)]
fn short_of(bytes: &[u8]) -> [u8; SHORT]
    requires { length bytes.now ≤ 16 }
    ensures bytes { (i : ℕ) → i < length bytes.now → get_or result i 0 ≡ get_or bytes.now i 0 }
    ensures len { length result ≡ 16 }
{
    let mut short = [0; SHORT];
    match bytes {
        [first, second] => {
            short[0] = *first;
            short[1] = *second;
        }
        _ => put_at(&mut short, 0, bytes),
    }
    short
}

/// Returns where the bytes of a span are kept.
#[inline(always)]
fn source_of<'a>(span: &'a Span, bytes: &'a [u8]) -> &'a [u8]
    ensures { result.now ≡ source span.now bytes.now }
{
    if span.len <= SHORT {
        &span.short
    } else {
        bytes
    }
}

/// Puts what is kept of a span over `out`, which has the bytes from `addr` on.
#[inline(always)]
fn put_over(span: &Span, bytes: &[u8], addr: u64, out: &mut [u8])
    requires kept { span.now.start + span.now.len ≤ length (source span.now bytes.now) }
    requires small { addr + length out.old ≤ 2 ^ 52 }
    ensures len { length out.new ≡ length out.old }
    ensures over { (i : ℕ) → i < length out.old → get_or out.new i 0
        ≡ cond (covers span.now (addr + i)) (byte_of span.now bytes.now (addr + i)) (get_or out.old i 0) }
{
    let end = addr + out.len() as u64;
    if span.addr >= end || (span.len as u64) <= addr.saturating_sub(span.addr) {
        return;
    }
    let skip = addr.saturating_sub(span.addr) as usize;
    let at = span.addr.saturating_sub(addr) as usize;
    let len = (span.len - skip).min(out.len() - at);
    put_at(
        out,
        at,
        part(source_of(span, bytes), span.start + skip, len),
    );
}

/// Returns a range of addresses from `end` on that no span has: from the first result up to the second.
fn free_behind(spans: &[Span], end: u64) -> (u64, u64)
    ensures from { end ≤ result.0 }
    ensures free { (bytes : List ℕ) → IsFree spans.now bytes result.0 result.1 }
{
    let mut from = end;
    let mut to = u64::MAX;
    for span in spans {
        if span.addr >= end {
            to = to.min(span.addr);
        } else {
            from = from.max(span.addr.saturating_add(span.len as u64));
        }
    }
    (from, to)
}

impl Kept {
    ghost use Rattle.std.specs.Prelude.{OnOk, vec_len};
    ghost use Rattle.live_mem.specs.Room.{Holds};
    ghost use Rattle.live_mem.specs.Inner.Room.{Takes};
    ghost use Rattle.live_mem.specs.Inner.Appends.{Appends};
    ghost use Rattle.live_mem.specs.Heard.{heard};

    /// Keeps nothing, with room for 64 short reads. An error where that memory is refused.
    pub(crate) fn new(alloc: Global) -> Result<Kept, AllocError>
        ensures spans { IfOk result (λ kept. kept.spans.items ≡ []) }
        ensures bytes { IfOk result (λ kept. kept.long.bytes ≡ []) }
        ensures room { IfOk result (λ kept. Holds kept 64) }
    {
        let spans = Vec::with_capacity(alloc, LEAST_ROOM)?;
        Ok(Kept {
            spans,
            long: LongRuns::new(alloc),
            low: u64::MAX,
            high: 0,
            free_from: 0,
            free_to: 0,
        })
    }

    /// Forgets everything, and keeps the room.
    pub(crate) fn clear(&mut self)
        ensures spans { self.new.spans.items ≡ [] }
        ensures bytes { self.new.long.bytes ≡ [] }
        ensures room { Holds self.new 64 }
    {
        self.spans.clear();
        self.long.clear();
        self.low = u64::MAX;
        self.high = 0;
        self.free_from = 0;
        self.free_to = 0;
    }

    /// Returns true if one more short read can be kept with no memory taken.
    #[inline(always)]
    pub(crate) fn has_room(&self) -> bool
        ensures { IsTrue result ↔ Holds self.now 1 }
    {
        self.spans.len() < self.spans.capacity()
    }

    /// Makes room for one more read of `len` bytes. It takes no memory for a short one where there is room, and changes
    /// nothing else.
    pub(crate) fn make_room(&mut self, len: usize) -> Result<(), AllocError>
        ensures spans { self.new.spans.items ≡ self.old.spans.items }
        ensures bytes { self.new.long.bytes ≡ self.old.long.bytes }
        ensures made { OnOk result (Takes self.new len) }
        ensures succeeds { Holds self.old 1 → len ≤ 16 → IsOk result }
    {
        self.spans.reserve(1)?;
        if len <= SHORT {
            return Ok(());
        }
        self.long.make_room(len)
    }

    /// Takes the bytes from `addr` up to `end` out of the ranges that no span has. Returns false, with nothing changed, where
    /// they lie in none of these.
    #[tactic(auto, using(crate::proofs::Keeping::narrower, crate::proofs::Spans::before, crate::proofs::Spans::behind))]
    #[inline(always)]
    pub(crate) fn takes_free(&mut self, addr: u64, end: u64) -> bool
        requires { addr ≤ end }
        ensures spans { self.new.spans ≡ self.old.spans }
        ensures bytes { self.new.long ≡ self.old.long }
        ensures free { IsTrue result → IsFree self.old.spans.items self.old.long.bytes addr end }
        ensures below { IsTrue result → self.new.low ≤ addr }
        ensures above { IsTrue result → end ≤ self.new.high }
        ensures apart { IsTrue result → (p n : ℕ) → self.new.free_from ≤ p → p < self.new.free_to → end ≡ addr + n
            → spans addr n p ≡ false }
    {
        if addr >= self.high {
            if addr - self.high >= GAP {
                self.free_from = self.high;
                self.free_to = addr;
            }
            self.low = self.low.min(addr);
            self.high = end;
            return true;
        }
        if end <= self.low {
            self.free_from = end;
            self.free_to = self.low;
            self.low = addr;
            return true;
        }
        if self.free_from <= addr && end <= self.free_to {
            self.free_from = end;
            return true;
        }
        false
    }

    /// Returns true if the bytes from `addr` up to `end` lie in a range that no span has.
    #[tactic(auto, using(crate::proofs::Keeping::narrower))]
    #[inline(always)]
    pub(crate) fn is_free(&self, addr: u64, end: u64) -> bool
        requires { addr ≤ end }
        ensures { IsTrue result → IsFree self.now.spans.items self.now.long.bytes addr end }
    {
        addr >= self.high || end <= self.low || self.free_from <= addr && end <= self.free_to
    }

    /// Returns true if the latest span has all bytes from `addr` on, as many as `out` holds, and puts them there then.
    pub(crate) fn gives(&self, addr: u64, out: &mut [u8]) -> bool
        requires small { addr + length out.old ≤ 2 ^ 52 }
        ensures len { length out.new ≡ length out.old }
        ensures gives { IsTrue result → (i d : ℕ) → i < length out.old
            → valued self.now.spans.items self.now.long.bytes (addr + i) d ≡ get_or out.new i 0 }
    {
        let count = self.spans.len();
        if count == 0 {
            return false;
        }
        let span = &self.spans[count - 1];
        if addr < span.addr
            || span.len < out.len()
            || addr - span.addr > (span.len - out.len()) as u64
        {
            return false;
        }
        put_over(span, self.long.as_slice(), addr, out);
        true
    }

    /// Puts what is kept over `out`, which has the bytes from `addr` on, by a look at each span. Takes these out of the ranges
    /// that no span has, and takes note of such a range behind them.
    #[tactic(auto, using(crate::proofs::Keeping::narrower, crate::proofs::Spans::behind))]
    pub(crate) fn put_over(&mut self, addr: u64, out: &mut [u8])
        requires small { addr + length out.old ≤ 2 ^ 52 }
        ensures len { length out.new ≡ length out.old }
        ensures over { (i : ℕ) → i < length out.old → get_or out.new i 0
            ≡ valued self.old.spans.items self.old.long.bytes (addr + i) (get_or out.old i 0) }
        ensures spans { self.new.spans ≡ self.old.spans }
        ensures bytes { self.new.long ≡ self.old.long }
        ensures below { self.new.low ≤ addr }
        ensures above { addr + length out.new ≤ self.new.high }
        ensures apart { (p : ℕ) → self.new.free_from ≤ p → p < self.new.free_to → spans addr (length out.new) p ≡ false }
    {
        let end = addr + out.len() as u64;
        self.put_spans_over(addr, out);
        let (from, to) = free_behind(&self.spans, end);
        self.free_from = from;
        self.free_to = to.min(self.high);
        self.low = self.low.min(addr);
        self.high = self.high.max(end);
    }

    /// Puts each span over `out`, which has the bytes from `addr` on.
    pub(crate) fn put_spans_over(&self, addr: u64, out: &mut [u8])
        requires small { addr + length out.old ≤ 2 ^ 52 }
        ensures len { length out.new ≡ length out.old }
        ensures over { (i : ℕ) → i < length out.old → get_or out.new i 0
            ≡ valued self.now.spans.items self.now.long.bytes (addr + i) (get_or out.old i 0) }
    {
        for span in &self.spans {
            put_over(span, self.long.as_slice(), addr, out);
        }
    }

    /// Keeps a short run that was read from `addr` on, for which there is room.
    #[inline(always)]
    fn keep_short(&mut self, addr: u64, out: &[u8])
        requires small { addr + length out.now ≤ 2 ^ 52 }
        requires short { length out.now ≤ 16 }
        requires room { Holds self.old 1 }
        requires below { self.old.low ≤ addr }
        requires above { addr + length out.now ≤ self.old.high }
        requires apart { (p : ℕ) → self.old.free_from ≤ p → p < self.old.free_to → spans addr (length out.now) p ≡ false }
        ensures kept { Keeps self.old.spans.items self.old.long.bytes addr out.now self.new.spans.items self.new.long.bytes }
        ensures room { (n : ℕ) → Holds self.old (n + 1) → Holds self.new n }
    {
        let span = Span {
            addr,
            start: 0,
            len: out.len(),
            short: short_of(out),
        };
        self.spans.push_reserved(span);
    }

    /// Keeps a longer run that was read from `addr` on, for which there is room.
    #[inline(always)]
    fn keep_long(&mut self, addr: u64, out: &[u8])
        requires small { addr + length out.now ≤ 2 ^ 52 }
        requires long { 16 < length out.now }
        requires room { Takes self.old (length out.now) }
        requires below { self.old.low ≤ addr }
        requires above { addr + length out.now ≤ self.old.high }
        requires apart { (p : ℕ) → self.old.free_from ≤ p → p < self.old.free_to → spans addr (length out.now) p ≡ false }
        ensures kept { Keeps self.old.spans.items self.old.long.bytes addr out.now self.new.spans.items self.new.long.bytes }
        ensures room { (n : ℕ) → Holds self.old (n + 1) → Holds self.new n }
    {
        let span = Span {
            addr,
            start: self.long.len(),
            len: out.len(),
            short: short_of(&[]),
        };
        self.long.keep(out);
        self.spans.push_reserved(span);
    }

    /// Loads a longer run from `addr` on, keeps it, and appends it to `out`. There is room for it in both.
    #[inline(always)]
    pub(crate) fn append<B: Bus>(
        &mut self,
        bus: &mut RecordedBus<B>,
        addr: u64,
        len: usize,
        out: &mut Vec<u8>,
    )
        requires small { addr + len ≤ 2 ^ 52 }
        requires long { 16 < len }
        requires room { Takes self.old len }
        requires below { self.old.low ≤ addr }
        requires above { addr + len ≤ self.old.high }
        requires apart { (p : ℕ) → self.old.free_from ≤ p → p < self.old.free_to → spans addr len p ≡ false }
        requires fits { vec_len out.old + len ≤ vec_capacity out.old }
        ensures appends { Appends (heard bus.old) (heard bus.new) self.old self.new addr len out.old.items out.new.items }
        ensures room { (n : ℕ) → Holds self.old (n + 1) → Holds self.new n }
    {
        let start = self.long.len();
        self.long.load(bus, addr, len);
        let _ = out.extend_from_slice(part(self.long.as_slice(), start, len));
        let span = Span {
            addr,
            start,
            len,
            short: short_of(&[]),
        };
        self.spans.push_reserved(span);
    }

    /// Keeps bytes that were read from `addr` on, for which there is room.
    #[inline(always)]
    pub(crate) fn keep(&mut self, addr: u64, out: &[u8])
        requires small { addr + length out.now ≤ 2 ^ 52 }
        requires room { Takes self.old (length out.now) }
        requires below { self.old.low ≤ addr }
        requires above { addr + length out.now ≤ self.old.high }
        requires apart { (p : ℕ) → self.old.free_from ≤ p → p < self.old.free_to → spans addr (length out.now) p ≡ false }
        ensures kept { Keeps self.old.spans.items self.old.long.bytes addr out.now self.new.spans.items self.new.long.bytes }
        ensures room { (n : ℕ) → Holds self.old (n + 1) → Holds self.new n }
    {
        if out.len() <= SHORT {
            self.keep_short(addr, out);
        } else {
            self.keep_long(addr, out);
        }
    }
}
