//! The bus of a host in C: an access of the guest's memory is a call of `read` or of `write`, which the library for C renames to
//! two functions of its own.
//!
//! # Proved
//!
//! It keeps `Bus`, of which no clause says which bytes a load gives, or what it does.
#![tactic(auto)]

ghost use Rattle.std.specs.Prelude.{◌≡◌};
ghost use Rattle.host_bus.specs.Map.{map_of};

use live_mem::Bus;

/// The operation that says where the bytes of the next one stand: what was mapped, and an address.
const PLACE: i32 = 1 << 30;

/// The operation that reads or writes bytes at the place that was said last.
const BYTES: i32 = PLACE + 1;

/// The operation that reads more than 16 bytes, from the place that stands in the first 16 of the room for them.
const LONG: i32 = PLACE + 2;

/// The operation that reads so many bytes more than none, at most 16, from the place that stands in the room.
const SHORT: i32 = PLACE + 16;

/// The operation that writes a place, and behind it 2 or 8 bytes that go there. It stands with their number.
const PUT: i32 = PLACE + 64;

/// The bytes of a place.
const PLACE_BYTES: usize = 16;

/// A bus over the memory that a host in C mapped.
#[derive(Drop)]
pub struct HostBus {
    // The table of regions in C, as an address of its own. Only C looks at it.
    map: u64,
}

/// Returns the bytes of a place.
#[inline(always)]
fn place(map: u64, addr: u64) -> [u8; PLACE_BYTES] {
    let mut bytes = [0; PLACE_BYTES];
    bytes[..8].copy_from_slice(&map.to_le_bytes());
    bytes[8..].copy_from_slice(&addr.to_le_bytes());
    bytes
}

/// Reads at most 16 bytes into the room for their place.
#[inline]
fn short_at(what: i32, map: u64, addr: u64) -> [u8; PLACE_BYTES] {
    let mut room = place(map, addr);
    io::read_full(what, &mut room);
    room
}

/// Writes bytes by two operations.
#[inline(always)]
fn put_long(map: u64, addr: u64, bytes: &[u8]) {
    io::write_all(PLACE, &place(map, addr));
    io::write_all(BYTES, bytes);
}

impl HostBus {
    /// Makes the bus over what was mapped, by the number that C gave it. The library for C calls it once for each map.
    pub fn new(map: u64) -> HostBus
        ensures { map_of result ≡ map }
    {
        HostBus { map }
    }
}

impl Bus for HostBus {
    // Each store of 2, 4 or 8 bytes ends with a full barrier, but one of 8 where one of 2 comes behind it first. In a round of
    // serving none stands behind what uses a chain: C looks at its end once more which drivers want to be notified.
    #[inline(always)]
    fn begin(&mut self) {}

    #[inline(always)]
    fn load(&mut self, addr: u64, out: &mut [u8]) {
        let len = out.len();
        if len > PLACE_BYTES {
            out[..PLACE_BYTES].copy_from_slice(&place(self.map, addr));
            io::read_full(LONG, out);
        } else {
            let room = short_at(SHORT + len as i32, self.map, addr);
            out.copy_from_slice(&room[..len]);
        }
    }

    // The first test leaves the others out of a long store.
    #[inline(always)]
    fn store(&mut self, addr: u64, bytes: &[u8]) {
        let len = bytes.len();
        if len > 8 {
            put_long(self.map, addr, bytes);
        } else if len == 8 {
            let mut room = [0; 24];
            room[..8].copy_from_slice(&self.map.to_le_bytes());
            room[8..16].copy_from_slice(&addr.to_le_bytes());
            room[16..].copy_from_slice(bytes);
            io::write_all(PUT + 8, &room);
        } else if len == 2 {
            let mut room = [0; 18];
            room[..8].copy_from_slice(&self.map.to_le_bytes());
            room[8..16].copy_from_slice(&addr.to_le_bytes());
            room[16..].copy_from_slice(bytes);
            io::write_all(PUT + 2, &room);
        } else {
            put_long(self.map, addr, bytes);
        }
    }
}
