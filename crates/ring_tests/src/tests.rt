mod layouts;
mod packed;
mod split;
mod texts;

use crate::bench::Bench;
use crate::moves::Row;
use guest_mem::GuestMem;
use packed_ring::PackedRing;
use ring_core::{Layout, LayoutFault, Ring};
use split_ring::SplitRing;
use std::alloc::Global;
use std::process::Abort;
use std::test::Fail;

/// A queue that tests make. Its `made` has no contract, so that what `new` promises is read once.
trait Made: Ring + Drop {
    /// Makes a queue of this number and layout, for which these features were agreed.
    fn made(
        alloc: Global,
        number: u16,
        layout: Layout,
        features: u64,
        memory: &GuestMem,
    ) -> Result<Self, LayoutFault>;
}

impl Made for SplitRing {
    fn made(
        alloc: Global,
        number: u16,
        layout: Layout,
        features: u64,
        memory: &GuestMem,
    ) -> Result<SplitRing, LayoutFault> {
        SplitRing::new(alloc, number, layout, features, memory)
    }
}

impl Made for PackedRing {
    fn made(
        alloc: Global,
        number: u16,
        layout: Layout,
        features: u64,
        memory: &GuestMem,
    ) -> Result<PackedRing, LayoutFault> {
        PackedRing::new(alloc, number, layout, features, memory)
    }
}

/// Makes a queue of this layout in fresh memory, for which these features were agreed.
fn bench<R: Made>(
    alloc: Global,
    pages: u32,
    layout: Layout,
    features: u64,
) -> Result<Bench<R>, Fail> {
    if pages > 65536 {
        return Err(Fail::from("too many pages"));
    }
    let memory = GuestMem::new(alloc, pages)?;
    let ring = R::made(alloc, 2, layout, features, &memory)?;
    Ok(Bench::of(alloc, ring, memory))
}

/// Returns the number of the first move of a row that doesn't go as it says, from 0.
fn first_wrong<R: Made>(alloc: Global, row: &Row) -> Result<Option<usize>, Fail> {
    let mut bench = bench::<R>(alloc, row.pages, row.layout, row.features)?;
    Ok(bench.first_wrong(row.moves))
}

/// Returns the number of the first row that doesn't go as it says, from 0.
fn first_wrong_row<R: Made>(alloc: Global, rows: &[Row]) -> Result<Option<usize>, Fail> {
    for number in 0..rows.len() {
        if first_wrong::<R>(alloc, &rows[number])?.is_some() {
            return Ok(Some(number));
        }
    }
    Ok(None)
}

/// Asserts that none was wrong.
fn none_is(rt: &impl Abort, wrong: Option<usize>) {
    assert_eq!(rt; wrong, None);
}

#[test]
fn plays_rows(rt: HostRuntime) -> Result<(), Fail> {
    none_is(
        &rt,
        first_wrong_row::<SplitRing>(rt.alloc(), &split::rows::ROWS)?,
    );
    none_is(
        &rt,
        first_wrong_row::<SplitRing>(rt.alloc(), &split::faults::FAULTS)?,
    );
    none_is(
        &rt,
        first_wrong_row::<SplitRing>(rt.alloc(), &split::tables::TABLES)?,
    );
    none_is(
        &rt,
        first_wrong_row::<SplitRing>(rt.alloc(), &split::begins::BEGINS)?,
    );
    none_is(
        &rt,
        first_wrong_row::<PackedRing>(rt.alloc(), &packed::rows::ROWS)?,
    );
    none_is(
        &rt,
        first_wrong_row::<PackedRing>(rt.alloc(), &packed::begins::BEGINS)?,
    );
    none_is(
        &rt,
        first_wrong_row::<PackedRing>(rt.alloc(), &packed::tables::TABLES)?,
    );
    none_is(
        &rt,
        first_wrong_row::<PackedRing>(rt.alloc(), &packed::notices::NOTICES)?,
    );
    Ok(())
}
