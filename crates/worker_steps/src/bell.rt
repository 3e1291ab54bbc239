//! A bell that wakes workers which found nothing to do.

use std::sync::atomic::{AtomicU64, Ordering};
use std::sync::{Condvar, Mutex, Wait};

/// Wakes the workers that sleep. A thread that makes something to do rings it once that is there. A worker that is to
/// sleep announces it, looks once more at all that it serves, and only then sleeps. So it sees what was made before it
/// announced, and what is made later rings.
#[derive(Drop)]
pub struct Bell {
    rings: Mutex<u64>,
    rung: Condvar,
    // The number of workers that announced that they are to sleep.
    sleepers: AtomicU64,
}

impl Bell {
    /// Makes a bell that nobody rang. Called once for a host.
    pub fn new() -> Bell {
        Bell {
            rings: Mutex::new(0),
            rung: Condvar::new(),
            sleepers: AtomicU64::new(0),
        }
    }

    /// Wakes all workers that sleep or are about to. It costs one load if none is. A thread that made something to do
    /// calls.
    pub fn ring<R: Wait>(&self, rt: &R) {
        if self.sleepers.load(Ordering::SeqCst) == 0 {
            return;
        }
        let mut rings = self.rings.lock(rt);
        *rings = rings.wrapping_add(1);
        self.rung.notify_all();
    }

    /// Announces that the worker is to sleep, and returns the rings so far. A worker calls, one round before it sleeps.
    pub fn announce<R: Wait>(&self, rt: &R) -> u64 {
        self.sleepers.fetch_add(1, Ordering::SeqCst);
        *self.rings.lock(rt)
    }

    /// Takes the announcement back: the worker is awake. Called once for each announcement.
    pub fn withdraw(&self) {
        self.sleepers.fetch_sub(1, Ordering::SeqCst);
    }

    /// Sleeps until it was rung since these rings. A worker calls with those that its announcement returned.
    pub fn sleep<R: Wait>(&self, rt: &R, seen: u64) {
        let _rings = self
            .rung
            .wait_while(rt, self.rings.lock(rt), |rings| *rings == seen);
    }
}
