//! Available buffer notifications, as a device asks its driver for them (VIRTIO 1.2, 2.7.10 and 2.8.10).

ghost use Rattle.std.specs.Prelude.{◌≡◌, ◌++◌};
ghost use Rattle.byteorder.specs.Endian.{little_bytes};

use byteorder::{ByteOrder, LittleEndian};
use std::marker::Model;

/// Available buffer notifications, as a device asks its driver for them (VIRTIO 1.2, 2.7.10 and 2.8.10). The driver
/// looks at this once it made a chain available.
#[derive(Clone, Copy, Debug, PartialEq, Eq)]
pub enum Notify {
    /// A notification of the next chain that the device didn't accept yet.
    Next,
    /// None. In a split queue with event indices that holds for the next 65,535 chains. A device that accepts more while
    /// it polls asks again.
    Never,
}

/// The bytes that ask a driver for notifications, and their address in guest memory. A ring makes them; the device
/// writes them at once.
#[derive(Drop)]
pub struct Asking {
    addr: u64,
    bytes: [u8; 4],
    count: usize,
}

impl Model for Asking {
    ghost use Rattle.std.specs.Prelude.{◌≤◌, take};
    ghost use Rattle.ring_core.specs.Writes.{Write};

    ghost Value = { Write };

    ghost view = { λ a. record { addr = a.addr; bytes = take a.count a.bytes } };

    ghost invariant = { λ a. a.count ≤ 4 };
}

impl Asking {
    /// Makes those of one number, in two bytes. For rings.
    pub fn one(addr: u64, number: u16) -> Asking
        ensures { result ≡ record { addr = addr; bytes = little_bytes 2 number } }
    {
        let mut bytes = [0; 4];
        LittleEndian::write_u16(&mut bytes, number);
        Asking {
            addr,
            bytes,
            count: 2,
        }
    }

    /// Makes those of two numbers, in two bytes each. For rings.
    pub fn two(addr: u64, first: u16, second: u16) -> Asking
        ensures { result ≡ record { addr = addr; bytes = little_bytes 2 first ++ little_bytes 2 second } }
    {
        let mut bytes = [0; 4];
        LittleEndian::write_u16(&mut bytes, first);
        LittleEndian::write_u16(&mut bytes[2..], second);
        Asking {
            addr,
            bytes,
            count: 4,
        }
    }

    /// Returns the address of the first byte.
    pub fn addr(&self) -> u64
        ensures { result ≡ self.now.addr }
    {
        self.addr
    }

    /// Returns the bytes.
    pub fn bytes(&self) -> &[u8]
        ensures { result.now ≡ self.now.bytes }
    {
        &self.bytes[..self.count]
    }
}
