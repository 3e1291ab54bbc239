//! A device of one thread, as a session has it.

use config::Config;
use foundation::NoMemory;
use guest_driver::GuestMemory;
use ring_core::QueueLog;
use script_semantics::Device;
use script_syntax::{HostLine, Race, Stop};
use std::alloc::Global;
use world::{Event, Notify, Served};

/// A device of one thread with its guest's memory, which the guest's driver writes and reads between two lines.
pub trait Machine: GuestMemory + Device + Drop {
    /// Opens the device of a configuration. A unit has its disk on a storage of its host where `caches` says at its index how
    /// many pages are in memory at most. `BadConfig` where it isn't taken.
    fn open(alloc: Global, config: &Config, caches: &[Option<usize>]) -> Result<Self, Stop>;

    /// Takes down a change of memory that the next line of the device brings. `OutOfPlace` where memory doesn't change
    /// between two reads.
    fn race(&mut self, alloc: Global, race: &Race) -> Result<(), Stop>;

    /// Begins a line of the device. `step`, `serve`, `settle`, `serve_and_ask` and `ask` are
    /// called within one.
    fn begin(&mut self);

    /// Ends the line.
    fn end(&mut self);

    /// Takes down which pages the host is asked for since it was looked last.
    fn note_wanted(&mut self) -> Result<(), NoMemory>;

    /// Does what a line of the host says with the disk of the unit at an index.
    fn host(&mut self, unit_index: u16, line: HostLine) -> Result<(), NoMemory>;

    /// Takes an event; false where it changes nothing.
    fn step(&mut self, event: Event) -> Result<bool, NoMemory>;

    /// Serves all queues, in so many steps at most.
    fn serve(&mut self, most: u64) -> Result<Served, NoMemory>;

    /// Runs the device until nothing is left to do.
    fn settle(&mut self) -> Result<u64, NoMemory>;

    /// Serves all queues, in so many steps at most, and asks each driver for a notification of its next chain once nothing is
    /// left, until nothing came in between.
    fn serve_and_ask(&mut self, most: u64) -> Result<Served, NoMemory>;

    /// Asks the driver of a queue for a notification, or for none; false where nothing is written.
    fn ask(&mut self, queue: u16, notify: Notify) -> bool;

    /// Returns the log of a queue; `None` where there is no such queue.
    fn log(&self, queue: u16) -> Option<&QueueLog>;

    /// Returns how many requests wait for their disks, or are to be tried again.
    fn waiting(&self) -> usize;

    /// Returns true if a fault broke the queue.
    fn is_broken(&self, queue: u16) -> bool;
}
