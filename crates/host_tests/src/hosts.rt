//! Hosts from start to close.

use crate::crossing::{Crossed, cross};
use crate::resetting::{Told, reset};
use crate::runs::{Left, is_refused, serve, serve_nothing};
use crate::together::{Together, contend, meet, serve_together};

/// The receipts and notes of two requests that ran, and of one that needed no unit.
const ALL: Left = Left {
    receipts: 2,
    notes: 1,
};

#[test]
fn no_workers_and_more_than_eight_are_refused(rt: HostRuntime) {
    assert!(rt; is_refused(rt, rt.alloc(), 0) == Some(true));
    assert!(rt; is_refused(rt, rt.alloc(), 9) == Some(true));
}

#[test]
fn requests_are_served_by_any_number_of_workers(rt: HostRuntime) {
    for workers in [1, 2, 3, 8] {
        assert!(rt; serve(rt, rt.alloc(), workers) == Some((true, Some(ALL))));
    }
}

#[test]
fn a_host_is_closed_of_which_nothing_was_asked(rt: HostRuntime) {
    let nothing = Left {
        receipts: 0,
        notes: 0,
    };
    assert!(rt; serve_nothing(rt, rt.alloc(), 2) == Some(nothing));
}

#[test]
fn the_operator_resets_a_unit(rt: HostRuntime) {
    // Events were missed, of no unit (VIRTIO 1.2 §5.6.6.3).
    let mut event = [0; 16];
    event[3] = 0x80;
    // CHECK CONDITION, unit attention: power on or reset (SPC-4 §4.5.3).
    let mut answer = [0; 26];
    answer[0] = 18;
    answer[10] = 2;
    answer[12] = 0x70;
    answer[14] = 6;
    answer[19] = 10;
    answer[24] = 0x29;
    let one = Left {
        receipts: 1,
        notes: 0,
    };
    let told = Told { event, answer };
    assert!(rt; reset(rt, rt.alloc(), 2) == Some((told, Some(one))));
}

#[test]
fn workers_serve_at_once(rt: HostRuntime) {
    let five = Together {
        missed: Some(0),
        answered: true,
        left: Left {
            receipts: 5,
            notes: 0,
        },
        commits: (3, 2),
        written: true,
    };
    for workers in [2, 8] {
        assert!(rt; serve_together(rt, rt.alloc(), workers) == Some(five));
    }
}

#[test]
fn two_units_are_held_at_once(rt: HostRuntime) {
    let two = Together {
        missed: Some(0),
        answered: true,
        left: Left {
            receipts: 2,
            notes: 0,
        },
        commits: (1, 1),
        written: false,
    };
    for workers in [2, 8] {
        assert!(rt; meet(rt, rt.alloc(), workers) == Some(two));
    }
}

#[test]
fn one_unit_is_held_by_one_worker(rt: HostRuntime) {
    let two = Together {
        missed: Some(1),
        answered: true,
        left: Left {
            receipts: 2,
            notes: 0,
        },
        commits: (2, 0),
        written: false,
    };
    for workers in [2, 8] {
        assert!(rt; contend(rt, rt.alloc(), workers) == Some(two));
    }
}

#[test]
fn pages_that_are_made_at_once_lose_no_block(rt: HostRuntime) {
    let both = Crossed {
        missed: 0,
        prepared: (1, 1),
        answered: true,
        blocks: [Some(0xab), Some(0xcd), Some(0)],
    };
    for workers in [2, 8] {
        assert!(rt; cross(rt, rt.alloc(), workers) == Some(both));
    }
}
