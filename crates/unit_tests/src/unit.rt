//! A logical unit, over its public calls.

mod aborts;
mod orders;
mod receipts;
mod refusals;

use crate::acts::Row;
use crate::bench::first_wrong;
use std::alloc::Global;
use std::process::Abort;
use std::test::Fail;

/// Plays a row. Where memory is refused on the way, its acts end there: what was refused changed no more than it
/// may, and the units serve on.
fn play(rt: &impl Abort, alloc: Global, row: &Row) -> Result<(), Fail> {
    let shows = row.shows;
    let wrong = first_wrong(alloc, row)?;
    assert_eq!(rt; wrong, None, "wrong act of {shows}");
    Ok(())
}

/// Plays all rows.
fn play_all(rt: &impl Abort, alloc: Global, rows: &[Row]) -> Result<(), Fail> {
    for row in rows {
        play(rt, alloc, row)?;
    }
    Ok(())
}

#[test]
fn runs_tasks_by_their_attributes(rt: HostRuntime) -> Result<(), Fail> {
    play_all(&rt, rt.alloc(), &orders::ROWS)
}

#[test]
fn aborts_and_resets_tasks(rt: HostRuntime) -> Result<(), Fail> {
    play_all(&rt, rt.alloc(), &aborts::ROWS)
}

#[test]
fn refuses_what_is_not_its_own(rt: HostRuntime) -> Result<(), Fail> {
    play_all(&rt, rt.alloc(), &refusals::ROWS)
}

#[test]
fn confirms_its_receipts_alone(rt: HostRuntime) -> Result<(), Fail> {
    play_all(&rt, rt.alloc(), &receipts::ROWS)
}
