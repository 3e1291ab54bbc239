//! The device on live memory that C wants.

ghost use Rattle.std.specs.Prelude.{◌≡◌, map, IfOk};
ghost use Rattle.config.specs.Config.{has_bit};
ghost use Rattle.c_calls.specs.LiveWanted.{ring_layout, AsksLive};
ghost use Rattle.c_calls.specs.Wanted.{spec_of};

use crate::wanted::{HANDOFF, WORKERS, WantedUnit, specs_of};
use ring_core::RingIndex;
use std::alloc::{AllocError, Global};
use world::{Config, Layout, RING_PACKED};

/// Where a device goes on in a queue: the header's `struct vscsi_position`.
#[repr(C)]
#[derive(Clone, Copy)]
pub struct RingPosition {
    pub available: u16,
    pub used: u16,
    /// 0: the wrap counter is 1, as that of a queue that no device served before.
    pub available_wrapped: u8,
    pub used_wrapped: u8,
}

/// Where a queue lies, and where the device begins in it: the header's `struct vscsi_ring`.
#[repr(C)]
#[derive(Clone, Copy)]
pub struct WantedRing {
    pub desc: u64,
    pub driver: u64,
    pub device: u64,
    pub size: u16,
    pub first: RingPosition,
}

impl WantedRing {
    /// Returns it as a layout.
    fn layout(&self) -> Layout
        ensures { result ≡ ring_layout self.now }
    {
        let first = self.first;
        Layout {
            size: self.size,
            desc: self.desc,
            driver: self.driver,
            device: self.device,
            first_available: RingIndex {
                index: first.available,
                wrap: first.available_wrapped == 0,
            },
            first_used: RingIndex {
                index: first.used,
                wrap: first.used_wrapped == 0,
            },
        }
    }
}

/// Returns true if features choose packed queues.
pub(crate) fn are_packed(features: u64) -> bool
    ensures { result ≡ has_bit features 34 }
{
    features & RING_PACKED == RING_PACKED
}

/// Returns the layouts of queues.
fn layouts_of(alloc: Global, rings: &[WantedRing]) -> Result<Vec<Layout>, AllocError>
    ensures { IfOk result (λ layouts. layouts.items ≡ map ring_layout rings.now) }
{
    rings.iter().map(|ring| ring.layout()).collect(alloc)
}

/// Returns the configuration that is asked for. A device on live memory doesn't look at its pages.
pub(crate) fn live_config_of(
    alloc: Global,
    features: u64,
    rings: &[WantedRing],
    units: &[WantedUnit],
) -> Result<Config, AllocError>
    ensures { IfOk result (λ c. AsksLive features rings.now units.now c) }
{
    let layouts = layouts_of(alloc, rings)?;
    let specs = specs_of(alloc, units)?;
    Ok(Config {
        pages: 0,
        features,
        queues: layouts,
        workers: WORKERS,
        handoff: HANDOFF,
        units: specs,
    })
}
