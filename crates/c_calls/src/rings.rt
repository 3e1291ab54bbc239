//! The rings of a device on live memory, and which of them are mapped.

ghost use Rattle.std.specs.Prelude.{◌≡◌, ◌≤◌, ◌<◌, ◌^◌, ◌↔◌, IsTrue, bit_and, length};
ghost use Rattle.device_steps.specs.Settling.{asks};
ghost use Rattle.c_calls.specs.Mapped.{driver_bytes as bytes_of_driver, device_bytes as bytes_of_device, IsMapped, AreMarked, opening_rings, MapsRings};

use crate::live_wanted::are_packed;
use crate::region::{Region, are_mapped};
use std::marker::Model;
use world::{Config, Layout};

/// Returns how many bytes the driver area of a queue has.
fn driver_bytes(packed: bool, size: u16) -> u64
    ensures { result ≡ bytes_of_driver packed size }
{
    if packed { 4 } else { 6 + 2 * size as u64 }
}

/// Returns how many bytes the device area of a queue has.
fn device_bytes(packed: bool, size: u16) -> u64
    ensures { result ≡ bytes_of_device packed size }
{
    if packed { 4 } else { 6 + 8 * size as u64 }
}

/// Returns true if each byte of a queue is mapped.
fn is_mapped(regions: &[Region], packed: bool, layout: &Layout) -> bool
    ensures { IsTrue result ↔ IsMapped regions.now packed layout.now }
{
    are_mapped(regions, layout.desc, 16 * layout.size as u64)
        && are_mapped(regions, layout.driver, driver_bytes(packed, layout.size))
        && are_mapped(regions, layout.device, device_bytes(packed, layout.size))
}

/// Returns which queues are mapped, a bit each.
fn marks(regions: &[Region], packed: bool, layouts: &[Layout]) -> u32
    requires { length layouts.now ≤ 18 }
    ensures marks { AreMarked regions.now packed layouts.now result }
    ensures below { result < 2 ^ length layouts.now }
{
    let [layout, others @ ..] = layouts else {
        return 0;
    };
    let mapped = is_mapped(regions, packed, layout);
    2 * marks(regions, packed, others) + mapped as u32
}

/// Returns true if the bit of a queue is set.
fn is_marked(bits: u32, queue: u16) -> bool
    ensures { result ≡ asks bits queue }
{
    if queue >= 32 {
        return false;
    }
    bits >> queue & 1 == 1
}

/// The rings of a device, and which of them are mapped.
#[derive(Drop)]
pub struct Rings {
    layouts: Vec<Layout>,
    packed: bool,
    mapped: u32,
}

impl Model for Rings {
    ghost use Rattle.std.specs.Prelude.{◌≤◌, length};
    ghost use Rattle.c_calls.specs.Mapped.{PlainRings};

    ghost Value = { PlainRings };

    ghost view = { λ r. record { layouts = r.layouts.items; packed = r.packed; mapped = r.mapped } };

    ghost invariant = { λ r. length r.layouts.items ≤ 18 };
}

impl Rings {
    /// Takes the rings of a configuration, of which none is mapped yet.
    pub(crate) fn of(config: Config) -> Rings
        requires few { length config.queues.items ≤ 18 }
        ensures { result ≡ opening_rings config }
    {
        let packed = are_packed(config.features);
        Rings {
            layouts: config.queues,
            packed,
            mapped: 0,
        }
    }

    /// Notes which of them lie in these regions.
    pub(crate) fn map(&mut self, regions: &[Region])
        ensures { MapsRings regions.now self.old self.new }
    {
        self.mapped = marks(regions, self.packed, &self.layouts);
    }

    /// Returns those of some queues that are mapped.
    #[inline(always)]
    pub(crate) fn among(&self, queues: u32) -> u32
        ensures { result ≡ bit_and queues self.now.mapped }
    {
        queues & self.mapped
    }

    /// Returns true if a queue is mapped.
    pub(crate) fn has(&self, queue: u16) -> bool
        ensures { result ≡ asks self.now.mapped queue }
    {
        is_marked(self.mapped, queue)
    }
}
