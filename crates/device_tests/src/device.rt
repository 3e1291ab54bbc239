//! The device, over its public calls: what a script can't show.

mod configurations;
mod events;
mod portions;
mod service;
mod views;

use crate::disks::{HandedOn, hand_on};
use crate::steps::{Row, first_wrong};
use std::alloc::Global;
use std::fmt::Display;
use std::process::Abort;
use std::test::Fail;

/// Plays rows.
fn play_all(rt: &impl Abort, alloc: Global, rows: &[Row]) -> Result<(), Fail> {
    for row in rows {
        let shows = row.shows;
        let wrong = first_wrong(alloc, row)?;
        assert_eq!(rt; wrong, None, "wrong step of {shows}");
    }
    Ok(())
}

/// Asserts that each value is called as its row says.
pub(crate) fn are_called<D: Display>(
    rt: &impl Abort,
    alloc: Global,
    rows: &[(D, &str)],
) -> Result<(), Fail> {
    for (value, text) in rows {
        assert_eq!(rt; format!(in alloc; "{value}")?.as_str(), *text);
    }
    Ok(())
}

#[test]
fn refuses_bad_configurations(rt: HostRuntime) -> Result<(), Fail> {
    play_all(&rt, rt.alloc(), &configurations::ROWS)
}

#[test]
fn serves_what_is_sent(rt: HostRuntime) -> Result<(), Fail> {
    play_all(&rt, rt.alloc(), &service::ROWS)
}

#[test]
fn serves_in_portions(rt: HostRuntime) -> Result<(), Fail> {
    play_all(&rt, rt.alloc(), &portions::ROWS)
}

#[test]
fn takes_events_that_apply(rt: HostRuntime) -> Result<(), Fail> {
    play_all(&rt, rt.alloc(), &events::ROWS)
}

#[test]
fn tells_of_its_units(rt: HostRuntime) -> Result<(), Fail> {
    play_all(&rt, rt.alloc(), &views::ROWS)
}

#[test]
fn disks_outlive_their_device(rt: HostRuntime) -> Result<(), Fail> {
    let kept = HandedOn {
        left: (1, Some(6)),
        refused: (true, 1),
        taken: 0,
        byte: Some(0xab),
    };
    assert!(rt; hand_on(rt.alloc())? == Some(kept));
    Ok(())
}
