//! Completions that a driver of a split queue wants to be told of.

use super::super::{Made, bench, none_is};
use super::wrapping::{TWO, serving};
use crate::moves::{EVENT_IDX, Move};
use split_ring::SplitRing;
use std::alloc::Global;
use std::test::Fail;

/// The address at which the driver of a queue of two descriptors names a used index.
const USED_EVENT: u64 = 4104;

/// Serves 65,536 chains, one after the other, whose driver wants no notice but of one completion. Returns the first
/// that isn't served or told as it should.
fn first_wrong<R: Made>(alloc: Global, told: u16) -> Result<Option<usize>, Fail> {
    let mut bench = bench::<R>(alloc, 16, TWO, EVENT_IDX)?;
    // The flag that asks for no notice counts for nothing.
    let asked = [
        Move::Number(USED_EVENT, told),
        Move::Number(4096, 1),
        Move::Notice(false),
    ];
    if bench.first_wrong(asked.as_slice()).is_some() {
        return Ok(Some(0));
    }
    for number in 0..65_536 {
        let notice = [Move::Notice(number == u32::from(told))];
        if bench.first_wrong(serving(number).as_slice()).is_some()
            || bench.first_wrong(notice.as_slice()).is_some()
        {
            return Ok(Some(number as usize));
        }
    }
    Ok(None)
}

#[test]
fn tells_of_one_completion(rt: HostRuntime) -> Result<(), Fail> {
    for told in [0, 3, 65535u16] {
        none_is(&rt, first_wrong::<SplitRing>(rt.alloc(), told)?);
    }
    Ok(())
}
