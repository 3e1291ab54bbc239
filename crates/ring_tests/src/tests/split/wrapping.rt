//! Indices run round at 65,536.

use super::super::{Made, bench, none_is};
use super::PLACE;
use crate::moves::Move;
use ring_core::Layout;
use split_ring::SplitRing;
use std::alloc::Global;
use std::test::Fail;

/// A queue of two descriptors.
pub(super) const TWO: Layout = Layout { size: 2, ..PLACE };

/// Returns the moves that make the chain of this number available, whose head is its slot, and serve it.
pub(super) fn serving(number: u32) -> [Move; 5] {
    let seen = (number % 65536) as u16;
    let head = seen % 2;
    [
        Move::Number(4100 + 2 * u64::from(head), head),
        Move::Number(4098, seen.wrapping_add(1)),
        Move::Found(u64::from(number), head, 1),
        Move::Complete(number, u64::from(number)),
        Move::Nothing,
    ]
}

/// The bytes in memory then: the index is 1 again, and the last element is that of chain 65,536, in slot 0.
static USED: [Move; 1] = [Move::Has(
    8194,
    &[1, 0, 0, 0, 0, 0, 0, 0, 1, 0, 1, 0, 0, 0, 255, 255, 0, 0],
)];

/// Serves 65,537 chains, one after the other. The first that isn't served as it should, or the one behind them where
/// memory isn't as it should be then.
fn first_unserved<R: Made>(alloc: Global) -> Result<Option<usize>, Fail> {
    let mut bench = bench::<R>(alloc, 16, TWO, 0)?;
    for number in 0..65_537 {
        if bench.first_wrong(serving(number).as_slice()).is_some() {
            return Ok(Some(number as usize));
        }
    }
    if bench.first_wrong(&USED).is_some() {
        return Ok(Some(65_537));
    }
    Ok(None)
}

#[test]
fn wraps_its_indices(rt: HostRuntime) -> Result<(), Fail> {
    none_is(&rt, first_unserved::<SplitRing>(rt.alloc())?);
    Ok(())
}
