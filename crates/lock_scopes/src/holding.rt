//! Taking a lock that is held briefly.

use std::hint::spin_loop;
use std::sync::{Mutex, MutexGuard, Wait};

/// The tries for a lock in a row.
const TRIES: u32 = 100;

/// The tries behind these, each after a rest, before the thread sleeps until the lock is free. All of them take longer
/// than the copy of a long answer.
const TRIES_APART: u32 = 100;

/// The spins of a rest, in which the thread that holds the lock isn't disturbed.
const SPINS: u32 = 30;

/// Takes a lock that is held for a phase. It tries for a while before it sleeps: to sleep and to be woken takes longer
/// than a phase, and where one thread sleeps all that come behind it do. It never yields: beside one other thread that
/// runs, a yield gives the core away for milliseconds.
pub fn hold<'a, T, R: Wait>(rt: &R, lock: &'a Mutex<T>) -> MutexGuard<'a, T> {
    for _ in 0..TRIES {
        if let Some(guard) = lock.try_lock() {
            return guard;
        }
        spin_loop();
    }
    for _ in 0..TRIES_APART {
        if let Some(guard) = lock.try_lock() {
            return guard;
        }
        rest();
    }
    lock.lock(rt)
}

/// Spins for a moment.
fn rest() {
    for _ in 0..SPINS {
        spin_loop();
    }
}
