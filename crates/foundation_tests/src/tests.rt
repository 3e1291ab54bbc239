mod attentions;
mod commands;
mod controls;
mod live;
mod memory;
mod named_blocks;
mod opcodes;
mod records;
mod requests;
mod senses;
mod stores;
mod texts;
mod units;

use std::process::Abort;

/// A row of a table: what is asked for, and what comes of it.
trait Row {
    /// Returns true if that comes of it.
    fn holds(&self) -> bool;
}

/// Returns the number of the first row that doesn't hold, from 0.
fn first_wrong<R: Row>(rows: &[R]) -> Option<usize> {
    for number in 0..rows.len() {
        if !rows[number].holds() {
            return Some(number);
        }
    }
    None
}

/// Asserts that none was wrong.
fn none_is(rt: &impl Abort, wrong: Option<usize>) {
    assert_eq!(rt; wrong, None);
}

/// Asserts that all rows hold.
fn all_hold<R: Row>(rt: &impl Abort, rows: &[R]) {
    none_is(rt, first_wrong(rows));
}
