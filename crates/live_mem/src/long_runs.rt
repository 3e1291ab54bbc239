//! The bytes of longer runs, in a list that keeps its length as they are forgotten, so that none is filled before it is loaded.

ghost use Rattle.std.specs.Prelude.{◌≡◌, ◌+◌, ◌∷◌, ◌++◌, ◌≤◌, [], List, ℕ, length, OnOk};
ghost use Rattle.live_mem.specs.Access.{Access, AreBytes};
ghost use Rattle.live_mem.specs.Heard.{heard};
ghost use Rattle.std.specs.Prelude.{vec_len};
ghost use Rattle.std.specs.Vec.{vec_capacity};

use crate::bus::Bus;
use crate::recorded::RecordedBus;
use std::alloc::{AllocError, Global};
use std::marker::Model;

/// The bytes of the longer runs that a phase read, side by side: those before an index of a list. Those behind it are room for more.
#[derive(Drop)]
pub(crate) struct LongRuns {
    room: Vec<u8>,
    used: usize,
    ghost inside: { used ≤ length room.items },
}

impl Model for LongRuns {
    ghost use Rattle.std.specs.Prelude.{ℕ, ◌-◌, take, length};
    ghost use Rattle.live_mem.specs.LongRuns.{PlainLongRuns};

    ghost Value = { PlainLongRuns };

    ghost view = { λ r. record { bytes = take r.used r.room.items; spare = length r.room.items - r.used } };
}

impl LongRuns {
    /// Keeps nothing. It takes no memory.
    pub(crate) fn new(alloc: Global) -> LongRuns
        ensures { result.bytes ≡ [] }
    {
        LongRuns {
            room: Vec::new(alloc),
            used: 0,
        }
    }

    /// Forgets everything, and keeps the room.
    #[inline(always)]
    pub(crate) fn clear(&mut self)
        ensures { self.new.bytes ≡ [] }
    {
        self.used = 0;
    }

    /// Returns how many bytes are kept.
    #[inline(always)]
    pub(crate) fn len(&self) -> usize
        ensures { result ≡ length self.now.bytes }
    {
        self.used
    }

    /// Returns the bytes that are kept.
    #[inline(always)]
    pub(crate) fn as_slice(&self) -> &[u8]
        ensures { result.now ≡ self.now.bytes }
    {
        &self.room[..self.used]
    }

    /// Makes room for `len` bytes more.
    #[inline(always)]
    pub(crate) fn make_room(&mut self, len: usize) -> Result<(), AllocError>
        ensures bytes { self.new.bytes ≡ self.old.bytes }
        ensures made { OnOk result (len ≤ self.new.spare) }
    {
        if len <= self.room.len() - self.used {
            return Ok(());
        }
        self.lengthen(len)
    }

    /// Does so by a longer list.
    #[inline(never)]
    fn lengthen(&mut self, len: usize) -> Result<(), AllocError>
        ensures bytes { self.new.bytes ≡ self.old.bytes }
        ensures made { OnOk result (len ≤ self.new.spare) }
    {
        let Some(end) = self.used.checked_add(len) else {
            return Err(AllocError);
        };
        self.room.resize(end, 0)
    }

    /// Keeps bytes, for which there is room, behind those that are kept.
    pub(crate) fn keep(&mut self, bytes: &[u8])
        requires { length bytes.now ≤ self.old.spare }
        ensures { self.new.bytes ≡ self.old.bytes ++ bytes.now }
    {
        let end = self.used + bytes.len();
        self.room[self.used..end].copy_from_slice(bytes);
        self.used = end;
    }

    /// Loads `len` bytes from `addr` on, for which there is room, and keeps them behind those that are kept.
    #[inline(always)]
    pub(crate) fn load<B: Bus>(&mut self, bus: &mut RecordedBus<B>, addr: u64, len: usize)
        requires { len ≤ self.old.spare }
        ensures { (fresh : List ℕ) × (length fresh ≡ len) × AreBytes fresh × (self.new.bytes ≡ self.old.bytes ++ fresh)
            × (heard bus.new ≡ Access.Loads addr fresh ∷ heard bus.old) }
    {
        let end = self.used + len;
        bus.load(addr, &mut self.room[self.used..end]);
        self.used = end;
    }
}
