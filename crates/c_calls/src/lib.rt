//! The calls of `vscsi.h`, each on a device or a disk that C keeps.
//!
//! # Proved
//!
//! Each call does what the device's own call does, on the device that it is handed. If it answers anything but that it
//! was done, device, room and numbers are as they were. Two things may differ: what was served before memory was
//! refused, and the fault of a refused configuration.
//!
//! The pointer that C keeps owns the device or the disk. Only `destroy`, `destroy_disk` and `close` let go of it.
//! `create_with` opens over exactly the disks that it is handed, or leaves each where it was. `close` puts those
//! that the histories left into slots where none is, or changes nothing.
#![tactic(auto)]

mod answer;
pub mod backed;
pub mod calls;
mod changes;
mod counts;
mod device;
mod disk;
pub mod disks;
pub mod handing;
mod keeping;
pub mod live_calls;
mod live_device;
pub mod live_handing;
mod live_opening;
mod live_served;
mod live_storage;
mod live_wanted;
mod loose;
mod owner;
mod positions;
mod ranges;
mod region;
mod rings;
mod served;
pub mod storage_calls;
mod wanted;

pub use answer::Answer;
pub use counts::UnitCounts;
pub use device::Device;
pub use disk::Disk;
pub use live_device::LiveDevice;
pub use live_served::LiveServed;
pub use live_wanted::{RingPosition, WantedRing};
pub use owner::Owner;
pub use ranges::{BlockRange, Told};
pub use region::Region;
pub use rings::Rings;
pub use served::Served;
pub use wanted::{Fault, WantedQueue, WantedUnit};
