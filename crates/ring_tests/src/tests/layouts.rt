//! Layouts that are taken and those that are refused, and the queue that owns a chain.

use super::split::PLACE;
use super::{Made, none_is};
use guest_mem::{GuestMem, StillMem};
use packed_ring::PackedRing;
use ring_core::{Fetched, Layout, LayoutFault, RingIndex};
use split_ring::SplitRing;
use std::alloc::Global;
use std::test::Fail;

/// A layout in a memory of four pages, which ends at 16,384: size, descriptor area, driver area, device area, and why
/// it is refused, if it is.
type Placed = (u16, u64, u64, u64, Option<LayoutFault>);

/// The layouts of split queues, and what is made of each.
static SPLIT: [Placed; 12] = [
    (8, 16256, 16362, 8192, None),
    (0, 16256, 16362, 8192, Some(LayoutFault::BadSize)),
    (6, 16256, 16362, 8192, Some(LayoutFault::BadSize)),
    (32769, 16256, 16362, 8192, Some(LayoutFault::BadSize)),
    (65535, 1, 16362, 8192, Some(LayoutFault::BadSize)),
    (8, 16392, 16362, 8192, Some(LayoutFault::BadAlignment)),
    (8, 16256, 1, 8192, Some(LayoutFault::BadAlignment)),
    (8, 16256, 16362, 2, Some(LayoutFault::BadAlignment)),
    (8, 16272, 16362, 8192, Some(LayoutFault::Outside)),
    (8, 16256, 16364, 8192, Some(LayoutFault::Outside)),
    (8, 16256, 16362, 16316, Some(LayoutFault::Outside)),
    (
        8,
        0xffff_ffff_ffff_fff0,
        16362,
        8192,
        Some(LayoutFault::Outside),
    ),
];

/// The same of packed queues.
static PACKED: [Placed; 9] = [
    (7, 16272, 16380, 16380, None),
    (0, 16272, 16380, 16380, Some(LayoutFault::BadSize)),
    (32769, 16272, 16380, 16380, Some(LayoutFault::BadSize)),
    (7, 16392, 16380, 16380, Some(LayoutFault::BadAlignment)),
    (7, 16272, 2, 16380, Some(LayoutFault::BadAlignment)),
    (7, 16272, 16380, 2, Some(LayoutFault::BadAlignment)),
    (7, 16288, 16380, 16380, Some(LayoutFault::Outside)),
    (7, 16272, 16384, 16380, Some(LayoutFault::Outside)),
    (7, 16272, 16380, 16384, Some(LayoutFault::Outside)),
];

/// The first indices of packed queues of seven slots, available and used, and why they are refused, if they are.
type Begun = (u16, u16, Option<LayoutFault>);

static BEGUN: [Begun; 4] = [
    (6, 6, None),
    (0, 6, None),
    (7, 0, Some(LayoutFault::BadStart)),
    (0, 7, Some(LayoutFault::BadStart)),
];

/// Returns the number of the first row of `BEGUN` that isn't taken or refused as it says, from 0.
fn first_wrong_start<R: Made>(memory: &GuestMem, alloc: Global) -> Option<usize> {
    for number in 0..BEGUN.len() {
        let (available, used, wanted) = BEGUN[number];
        let layout = Layout {
            first_available: RingIndex {
                index: available,
                wrap: false,
            },
            first_used: RingIndex {
                index: used,
                wrap: true,
            },
            ..Layout::fresh(7, 0, 4096, 8192)
        };
        if R::made(alloc, 2, layout, 0, memory).err() != wanted {
            return Some(number);
        }
    }
    None
}

/// Returns why a layout is refused, if it is.
fn refusal<R: Made>(memory: &GuestMem, alloc: Global, placed: &Placed) -> Option<LayoutFault> {
    let (size, desc, driver, device, _) = *placed;
    let layout = Layout::fresh(size, desc, driver, device);
    match R::made(alloc, 2, layout, 0, memory) {
        Ok(_) => None,
        Err(fault) => Some(fault),
    }
}

/// Returns the number of the first layout that isn't taken or refused as its row says, from 0.
fn first_wrong<R: Made>(memory: &GuestMem, alloc: Global, rows: &[Placed]) -> Option<usize> {
    for number in 0..rows.len() {
        if refusal::<R>(memory, alloc, &rows[number]) != rows[number].4 {
            return Some(number);
        }
    }
    None
}

#[test]
fn layouts(rt: HostRuntime) -> Result<(), Fail> {
    let memory = GuestMem::new(rt.alloc(), 4)?;
    none_is(&rt, first_wrong::<SplitRing>(&memory, rt.alloc(), &SPLIT));
    none_is(&rt, first_wrong::<PackedRing>(&memory, rt.alloc(), &PACKED));
    none_is(&rt, first_wrong_start::<PackedRing>(&memory, rt.alloc()));
    Ok(())
}

/// Returns true if the queue that a chain is fetched from owns it, and another doesn't.
fn is_owned_there<R: Made>(ring: &mut R, other: &R, memory: &GuestMem) -> bool {
    if !ring.fits(memory) {
        return false;
    }
    let mut still = StillMem::of(memory);
    match ring.fetch(&mut still) {
        Ok(Some(Fetched { chain, .. })) => ring.owns(&chain) && !other.owns(&chain),
        _ => false,
    }
}

/// Returns true if that is so of two queues in one memory.
fn own_apart<R: Made>(memory: &GuestMem, alloc: Global) -> Result<bool, LayoutFault> {
    let mut ring = R::made(alloc, 2, PLACE, 0, memory)?;
    let other = R::made(alloc, 3, PLACE, 0, memory)?;
    Ok(is_owned_there(&mut ring, &other, memory))
}

/// Returns true if a queue fits a memory that is larger than its own.
fn fits_larger<R: Made>(
    memory: &GuestMem,
    larger: &GuestMem,
    alloc: Global,
) -> Result<bool, LayoutFault> {
    let ring = R::made(alloc, 2, PLACE, 0, memory)?;
    Ok(ring.fits(larger))
}

#[test]
fn a_queue_owns_what_is_outstanding_of_it(rt: HostRuntime) -> Result<(), Fail> {
    let mut memory = GuestMem::new(rt.alloc(), 16)?;
    memory.write(4098, &[1, 0])?;
    let larger = GuestMem::new(rt.alloc(), 17)?;
    let is_wrong = !own_apart::<SplitRing>(&memory, rt.alloc())?;
    let fits = fits_larger::<SplitRing>(&memory, &larger, rt.alloc())?;
    none_is(&rt, if is_wrong || fits { Some(0) } else { None });
    Ok(())
}
