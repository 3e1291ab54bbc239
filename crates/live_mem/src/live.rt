//! The memory of a guest that runs.

ghost use Rattle.std.specs.Prelude.{ℕ, ◌≡◌, ◌+◌, ◌<◌, ◌≤◌, ◌^◌, ◌++◌, ◌∷◌, [], List, length, true, false, IsOk, IfOk, OnOk, OnErr, IsTrue, IsFalse};
ghost use Rattle.guest_mem.specs.Memory.{bytes_at, with_bytes, LiesIn};
ghost use Rattle.guest_mem.specs.Stores.{Store, stores_at};
ghost use Rattle.live_mem.specs.Access.{Access, loaded, stored, all_stores, AreBytes, Asks, MayBe, StoredNothing};
ghost use Rattle.live_mem.specs.Inner.Access.{ReadsThere};
ghost use Rattle.live_mem.specs.Heard.{heard};
ghost use Rattle.live_mem.specs.Kept.{valued};
ghost use Rattle.live_mem.specs.Scattered.{scattered_at};
ghost use Rattle.live_mem.specs.Claims.{AreUnread};
ghost use Rattle.std.proofs.Common.{append-nil, append_assoc, arith};
ghost use Rattle.std.proofs.lemmas.Bool.{true≢false};

use crate::bus::Bus;
use crate::claims::Claims;
use crate::kept::Kept;
use crate::recorded::RecordedBus;
use crate::scattered::Scattered;
use crate::span::SHORT;
use guest_mem::{Memory, WritableMemory};
use std::alloc::{AllocError, Global};

/// The most bytes of a read that is kept by its addresses. A request has few longer ones, and many of these may be in a list.
const MOST_SCATTERED: usize = 256;

/// A memory that is read and written where it stands, while the guest runs. A phase reads no byte twice: it keeps what it
/// read, but for runs that it claimed first. Each of these is read once, straight to where it goes, and behind the first of
/// them the phase reads nothing else. So all that it reads is of one list of bytes, whatever the guest writes meanwhile, and each
/// byte of the list that was read is the first that the bus gave of it. What a phase writes it stores at once. There always is
/// memory to keep the first 64 short reads of a phase that claims nothing. Where memory to keep another is refused, the bus isn't
/// asked, and the read is an error.
#[derive(Drop)]
pub struct LiveMem<B> {
    bus: RecordedBus<B>,
    size: u64,
    kept: Kept,
    scattered: Scattered,
    claims: Claims,
    ghost small: { size ≤ 2 ^ 52 },
    ghost faithful: { claims.read ≡ 0 → (p d : ℕ)
        → valued kept.spans.items kept.long.bytes p (scattered_at scattered p d) ≡ loaded (heard bus) p d },
    ghost unread: { AreUnread (heard bus) claims.runs.items claims.read },
    ghost bytes_loaded: { (p d : ℕ) → d < 256 → loaded (heard bus) p d < 256 },
    ghost stays_sized: { (m : List ℕ) → length m ≡ size → length (stored (heard bus) m) ≡ size },
    ghost bytes_stored: { (m : List ℕ) → length m ≡ size → AreBytes m → AreBytes (stored (heard bus) m) },
}

impl<B: Bus> LiveMem<B> {
    ghost use Rattle.live_mem.specs.Room.{HasRoom, ClaimsNothing};
    ghost use Rattle.live_mem.specs.Inner.Places.{HasPlaces};
    ghost use Rattle.live_mem.specs.Inner.Room.{Takes};
    ghost use Rattle.live_mem.specs.Live.{MayBeLive, bus_of};

    /// Opens the memory of `size` bytes behind a bus, with room for 64 short reads. Returns an error where the memory for
    /// that room is refused.
    pub fn new(alloc: Global, bus: B, size: u64) -> Result<LiveMem<B>, AllocError>
        requires { size ≤ 2 ^ 52 }
        ensures bus { IfOk result (λ memory. bus_of memory ≡ bus) }
        ensures size { IfOk result (λ memory. memory.size ≡ size) }
        ensures room { IfOk result (λ memory. HasRoom memory 64) }
    {
        let kept = Kept::new(alloc)?;
        Ok(LiveMem {
            bus: RecordedBus::new(bus),
            size,
            kept,
            scattered: Scattered::new(alloc),
            claims: Claims::new(alloc),
        })
    }

    /// Reads what is kept, and loads where nothing is kept. It keeps what it loaded in the list of spans, which has room.
    #[inline(always)]
    fn read_listed(&mut self, addr: u64, out: &mut [u8])
        requires inside { addr + length out.old ≤ self.old.size }
        requires room { Takes self.old.kept (length out.old) }
        requires idle { ClaimsNothing self.old }
        ensures idle { ClaimsNothing self.new }
        ensures len { length out.new ≡ length out.old }
        ensures loads { ReadsThere (heard self.old.bus) (heard self.new.bus) addr out.new }
        ensures stores { all_stores (heard self.new.bus) ≡ all_stores (heard self.old.bus) }
        ensures size { self.new.size ≡ self.old.size }
        ensures room { (n : ℕ) → HasRoom self.old (n + 1) → HasRoom self.new n }
    {
        if !self.scattered.is_bare() {
            self.read_again(addr, out);
            return;
        }
        let free = self.kept.takes_free(addr, addr + out.len() as u64);
        if !free {
            self.read_again(addr, out);
            return;
        }
        self.bus.load(addr, out);
        self.kept.keep(addr, out);
    }

    /// Does the same where some of the bytes may be kept, apart so that a read of what wasn't read passes it by.
    #[cold]
    #[inline(never)]
    fn read_again(&mut self, addr: u64, out: &mut [u8])
        requires inside { addr + length out.old ≤ self.old.size }
        requires room { Takes self.old.kept (length out.old) }
        requires idle { ClaimsNothing self.old }
        ensures idle { ClaimsNothing self.new }
        ensures len { length out.new ≡ length out.old }
        ensures loads { ReadsThere (heard self.old.bus) (heard self.new.bus) addr out.new }
        ensures stores { all_stores (heard self.new.bus) ≡ all_stores (heard self.old.bus) }
        ensures size { self.new.size ≡ self.old.size }
        ensures room { (n : ℕ) → HasRoom self.old (n + 1) → HasRoom self.new n }
    {
        if self.kept.gives(addr, out) {
            return;
        }
        self.bus.load(addr, out);
        self.scattered.put_over(addr, out);
        self.kept.put_over(addr, out);
        self.kept.keep(addr, out);
    }

    /// Does the same, and keeps what it loaded by its addresses, where there is room.
    #[inline(never)]
    fn read_scattered(&mut self, addr: u64, out: &mut [u8])
        requires inside { addr + length out.old ≤ self.old.size }
        requires room { HasPlaces self.old.scattered addr (length out.old) }
        requires idle { ClaimsNothing self.old }
        ensures idle { ClaimsNothing self.new }
        ensures len { length out.new ≡ length out.old }
        ensures loads { ReadsThere (heard self.old.bus) (heard self.new.bus) addr out.new }
        ensures stores { all_stores (heard self.new.bus) ≡ all_stores (heard self.old.bus) }
        ensures size { self.new.size ≡ self.old.size }
        ensures room { (n : ℕ) → HasRoom self.old (n + 1) → HasRoom self.new n }
    {
        self.bus.load(addr, out);
        self.scattered.put_over(addr, out);
        self.kept.put_spans_over(addr, out);
        self.scattered.keep(addr, out);
    }

    /// Reads, and keeps what it loaded in the list of spans where `listed` is true, and else by its addresses.
    #[inline(always)]
    fn read_there(&mut self, listed: bool, addr: u64, out: &mut [u8])
        requires inside { addr + length out.old ≤ self.old.size }
        requires listed { IsTrue listed → Takes self.old.kept (length out.old) }
        requires scattered { IsFalse listed → HasPlaces self.old.scattered addr (length out.old) }
        requires idle { ClaimsNothing self.old }
        ensures idle { ClaimsNothing self.new }
        ensures len { length out.new ≡ length out.old }
        ensures loads { ReadsThere (heard self.old.bus) (heard self.new.bus) addr out.new }
        ensures stores { all_stores (heard self.new.bus) ≡ all_stores (heard self.old.bus) }
        ensures size { self.new.size ≡ self.old.size }
        ensures room { (n : ℕ) → HasRoom self.old (n + 1) → HasRoom self.new n }
    {
        if listed {
            self.read_listed(addr, out);
        } else {
            self.read_scattered(addr, out);
        }
    }

    /// Makes room to keep a read of `len` bytes from `addr` on: in the list of spans where the result is true, and else by its
    /// addresses. It asks the bus for nothing.
    #[inline(always)]
    fn make_room(&mut self, addr: u64, len: usize) -> Result<bool, AllocError>
        requires inside { addr + len ≤ self.old.size }
        requires idle { ClaimsNothing self.old }
        ensures idle { ClaimsNothing self.new }
        ensures size { self.new.size ≡ self.old.size }
        ensures bus { heard self.new.bus ≡ heard self.old.bus }
        ensures listed { IfOk result (λ listed. IsTrue listed → Takes self.new.kept len) }
        ensures scattered { IfOk result (λ listed. IsFalse listed → HasPlaces self.new.scattered addr len) }
        ensures succeeds { HasRoom self.old 1 → len ≤ 16 → IsOk result }
    {
        if len <= MOST_SCATTERED && !self.kept.has_room() {
            self.scattered.make_room(addr, len)?;
            return Ok(false);
        }
        self.kept.make_room(len)?;
        Ok(true)
    }
}

impl<B: Bus> LiveMem<B> {
    ghost use Rattle.live_mem.specs.Live.{MayBeLive, stored_live};
    ghost use Rattle.live_mem.specs.Room.{HasRoom, ClaimsNothing};
    ghost use Rattle.live_mem.specs.Inner.Room.{Takes};
    ghost use Rattle.live_mem.specs.Access.{spans};
    ghost use Rattle.live_mem.specs.Kept.{IsFree};
    ghost use Rattle.std.specs.Prelude.{vec_len};
    ghost use Rattle.std.specs.Vec.{vec_capacity};

    /// Makes room to keep a longer run that is read from `addr` on, where no span has some of it. Returns false where it may
    /// not be read as one.
    #[inline(always)]
    fn takes_long(&mut self, addr: u64, len: usize) -> Result<bool, AllocError>
        requires inside { addr + len ≤ self.old.size }
        requires idle { ClaimsNothing self.old }
        ensures idle { ClaimsNothing self.new }
        ensures size { self.new.size ≡ self.old.size }
        ensures bus { heard self.new.bus ≡ heard self.old.bus }
        ensures bare { IfOk result (λ long. IsTrue long → (p d : ℕ) → scattered_at self.new.scattered p d ≡ d) }
        ensures made { IfOk result (λ long. IsTrue long → Takes self.new.kept len) }
        ensures free { IfOk result (λ long. IsTrue long → IsFree self.new.kept.spans.items self.new.kept.long.bytes addr (addr + len)) }
        ensures below { IfOk result (λ long. IsTrue long → self.new.kept.low ≤ addr) }
        ensures above { IfOk result (λ long. IsTrue long → addr + len ≤ self.new.kept.high) }
        ensures apart { IfOk result (λ long. IsTrue long
            → (p : ℕ) → self.new.kept.free_from ≤ p → p < self.new.kept.free_to → spans addr len p ≡ false) }
    {
        let is_listed = len > MOST_SCATTERED || self.kept.has_room();
        if is_listed && self.scattered.is_bare() {
            self.kept.make_room(len)?;
            return Ok(self.kept.takes_free(addr, addr + len as u64));
        }
        Ok(false)
    }

    /// Appends a longer run, for which there is room, and of which nothing is kept.
    #[inline(always)]
    fn append_long(&mut self, addr: u64, len: usize, out: &mut Vec<u8>)
        requires inside { addr + len ≤ self.old.size }
        requires long { 16 < len }
        requires room { Takes self.old.kept len }
        requires below { self.old.kept.low ≤ addr }
        requires above { addr + len ≤ self.old.kept.high }
        requires apart { (p : ℕ) → self.old.kept.free_from ≤ p → p < self.old.kept.free_to → spans addr len p ≡ false }
        requires free { IsFree self.old.kept.spans.items self.old.kept.long.bytes addr (addr + len) }
        requires bare { (p d : ℕ) → scattered_at self.old.scattered p d ≡ d }
        requires fits { vec_len out.old + len ≤ vec_capacity out.old }
        requires reading { StoredNothing (heard self.old.bus) }
        requires idle { ClaimsNothing self.old }
        ensures reading { StoredNothing (heard self.new.bus) }
        ensures size { self.new.size ≡ self.old.size }
        ensures stays { (m : List ℕ) → MayBeLive self.new m → MayBeLive self.old m }
        ensures stores { stored_live self.new ≡ stored_live self.old }
        ensures len { length out.new.items ≡ length out.old.items + len }
        ensures read { (m : List ℕ) → MayBeLive self.new m → out.new.items ≡ out.old.items ++ bytes_at m addr len }
        ensures asks { Asks (heard self.old.bus) (heard self.new.bus) addr len }
    {
        self.kept.append(&mut self.bus, addr, len, out);
    }

    /// Appends what it reads into room in `out` that was filled before.
    #[inline(never)]
    fn append_copied(&mut self, addr: u64, len: usize, out: &mut Vec<u8>) -> Result<(), AllocError>
        requires reading { StoredNothing (heard self.old.bus) }
        requires inside { LiesIn self.old.size addr len }
        ensures reading { StoredNothing (heard self.new.bus) }
        ensures size { self.new.size ≡ self.old.size }
        ensures stays { (m : List ℕ) → MayBeLive self.new m → MayBeLive self.old m }
        ensures stores { stored_live self.new ≡ stored_live self.old }
        ensures len { OnOk result (length out.new.items ≡ length out.old.items + len) }
        ensures read { OnOk result ((m : List ℕ) → MayBeLive self.new m → out.new.items ≡ out.old.items ++ bytes_at m addr len) }
        ensures asks { OnOk result (Asks (heard self.old.bus) (heard self.new.bus) addr len) }
        ensures asks_nothing { OnErr result (heard self.new.bus ≡ heard self.old.bus) }
    {
        let from = out.len();
        out.resize(from + len, 0)?;
        self.try_read(addr, &mut out[from..])?;
        Ok(())
    }
}

impl<B: Bus> Memory for LiveMem<B> {
    ghost use Rattle.live_mem.specs.Live.{MayBeLive, stored_live};
    ghost use Rattle.live_mem.specs.Room.{HasRoom, ClaimsNothing};

    ghost may_be = { λ x m. MayBe x.size (heard x.bus) m };

    ghost extent = { λ x. x.size };

    ghost is_open = { λ x. StoredNothing (heard x.bus) };

    ghost begins = { λ x y. heard y.bus ≡ Access.Begins ∷ heard x.bus };

    ghost has_room = { HasRoom };

    ghost shared = { true };

    ghost Stores = { List Store };

    ghost stored = { λ x. all_stores (heard x.bus) };

    ghost storing = { λ ss more. ss ++ more };

    fn begin(&mut self)
        ensures size { self.new.size ≡ self.old.size }
        ensures reading { StoredNothing (heard self.new.bus) }
        ensures stores { stored_live self.new ≡ stored_live self.old }
        ensures begun { heard self.new.bus ≡ Access.Begins ∷ heard self.old.bus }
        ensures room { HasRoom self.new 64 }
    {
        self.bus.begin();
        self.kept.clear();
        self.scattered.clear();
        self.claims.clear();
    }

    #[inline(always)]
    fn size(&self) -> u64 {
        self.size
    }

    #[inline(always)]
    fn read(&mut self, addr: u64, out: &mut [u8])
        requires reading { StoredNothing (heard self.old.bus) }
        requires inside { LiesIn self.old.size addr (length out.old) }
        requires short { length out.old ≤ 16 }
        requires room { HasRoom self.old 1 }
        ensures reading { StoredNothing (heard self.new.bus) }
        ensures size { self.new.size ≡ self.old.size }
        ensures stays { (m : List ℕ) → MayBeLive self.new m → MayBeLive self.old m }
        ensures stores { stored_live self.new ≡ stored_live self.old }
        ensures room { (n : ℕ) → HasRoom self.old (n + 1) → HasRoom self.new n }
        ensures read { (m : List ℕ) → MayBeLive self.new m → out.new ≡ bytes_at m addr (length out.old) }
        ensures asks { Asks (heard self.old.bus) (heard self.new.bus) addr (length out.old) }
    {
        self.read_there(true, addr, out);
    }

    #[inline(always)]
    fn try_read(&mut self, addr: u64, out: &mut [u8]) -> Result<(), AllocError>
        requires reading { StoredNothing (heard self.old.bus) }
        requires inside { LiesIn self.old.size addr (length out.old) }
        ensures reading { StoredNothing (heard self.new.bus) }
        ensures size { self.new.size ≡ self.old.size }
        ensures stays { (m : List ℕ) → MayBeLive self.new m → MayBeLive self.old m }
        ensures stores { stored_live self.new ≡ stored_live self.old }
        ensures read { OnOk result ((m : List ℕ) → MayBeLive self.new m → out.new ≡ bytes_at m addr (length out.old)) }
        ensures asks { OnOk result (Asks (heard self.old.bus) (heard self.new.bus) addr (length out.old)) }
        ensures asks_nothing { OnErr result (heard self.new.bus ≡ heard self.old.bus) }
        ensures succeeds { HasRoom self.old 1 → length out.old ≤ 16 → IsOk result }
    {
        self.claims.give_up()?;
        let listed = self.make_room(addr, out.len())?;
        self.read_there(listed, addr, out);
        Ok(())
    }

    #[inline(always)]
    fn append(&mut self, addr: u64, len: usize, out: &mut Vec<u8>) -> Result<(), AllocError>
        requires reading { StoredNothing (heard self.old.bus) }
        requires inside { LiesIn self.old.size addr len }
        ensures reading { StoredNothing (heard self.new.bus) }
        ensures size { self.new.size ≡ self.old.size }
        ensures stays { (m : List ℕ) → MayBeLive self.new m → MayBeLive self.old m }
        ensures stores { stored_live self.new ≡ stored_live self.old }
        ensures len { OnOk result (length out.new.items ≡ length out.old.items + len) }
        ensures read { OnOk result ((m : List ℕ) → MayBeLive self.new m → out.new.items ≡ out.old.items ++ bytes_at m addr len) }
        ensures asks { OnOk result (Asks (heard self.old.bus) (heard self.new.bus) addr len) }
        ensures asks_nothing { OnErr result (heard self.new.bus ≡ heard self.old.bus) }
    {
        if len <= SHORT {
            return self.append_copied(addr, len, out);
        }
        self.claims.give_up()?;
        out.reserve(len)?;
        if self.takes_long(addr, len)? {
            self.append_long(addr, len, out);
            return Ok(());
        }
        self.append_copied(addr, len, out)
    }

    // A run of which something may be kept isn't claimed.
    #[inline(always)]
    fn claim(&mut self, addr: u64, len: usize) -> bool
        requires reading { StoredNothing (heard self.old.bus) }
        requires inside { LiesIn self.old.size addr len }
        ensures reading { StoredNothing (heard self.new.bus) }
        ensures size { self.new.size ≡ self.old.size }
        ensures bus { heard self.new.bus ≡ heard self.old.bus }
    {
        if self.scattered.is_bare() && self.kept.is_free(addr, addr + len as u64) {
            return self.claims.add(addr, len);
        }
        false
    }

    #[inline(always)]
    fn read_claimed(&mut self, addr: u64, out: &mut [u8]) -> Result<(), AllocError>
        requires reading { StoredNothing (heard self.old.bus) }
        requires inside { LiesIn self.old.size addr (length out.old) }
        ensures reading { StoredNothing (heard self.new.bus) }
        ensures size { self.new.size ≡ self.old.size }
        ensures stays { (m : List ℕ) → MayBeLive self.new m → MayBeLive self.old m }
        ensures stores { stored_live self.new ≡ stored_live self.old }
        ensures len { length out.new ≡ length out.old }
        ensures read { OnOk result ((m : List ℕ) → MayBeLive self.new m → out.new ≡ bytes_at m addr (length out.old)) }
        ensures asks { OnOk result (heard self.new.bus ≡ Access.Loads addr out.new ∷ heard self.old.bus) }
        ensures asks_nothing { OnErr result (heard self.new.bus ≡ heard self.old.bus) }
    {
        if !self.claims.has_next(addr, out.len()) {
            return Err(AllocError);
        }
        self.bus.load(addr, out);
        self.claims.pass();
        Ok(())
    }

    ghost fewer = { λ x m n le room. (Prim.omega (arith, le, room.0), room.1) };

    ghost sized = { λ x m b. b.3 };

    ghost own = { λ x y m alone begun b. absurd (true≢false alone) };

    ghost one = { λ x m n alone a b. absurd (true≢false alone) };

    ghost none = { append-nil };

    ghost both = { append_assoc };
}

impl<B: Bus> WritableMemory for LiveMem<B> {
    ghost use Rattle.live_mem.specs.Live.{MayBeLive, stored_live};

    fn write(&mut self, addr: u64, bytes: &[u8])
        requires inside { LiesIn self.old.size addr (length bytes.now) }
        ensures size { self.new.size ≡ self.old.size }
        ensures written { (m : List ℕ) → MayBeLive self.new m
            → (before : List ℕ) × MayBeLive self.old before × (m ≡ with_bytes before addr bytes.now) }
        ensures adds { stored_live self.new ≡ stored_live self.old ++ stores_at addr bytes.now }
        ensures stores { heard self.new.bus ≡ Access.Stores addr bytes.now ∷ heard self.old.bus }
    {
        self.bus.store(addr, bytes);
    }
}
