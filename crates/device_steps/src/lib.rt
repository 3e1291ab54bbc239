//! The device apart from its memory: its virtqueues, its units and its seats, and its steps in any memory.
//!
//! # Proved
//!
//! An event is taken exactly where it applies, and does what the model's event does, for every list of bytes that the
//! memory may be. A turn takes the first event that applies. A job whose command waits for its disk, or whose reply is
//! withheld, is put aside, and tried again in its turn once it is woken. `World` and `LiveWorld` are made of these
//! steps, and crate `world` says what is promised of them.
#![tactic(auto)]

mod aside;
mod asking;
mod bay;
mod cursor;
mod device;
mod handed_off;
mod opening;
mod paging;
mod pending;
mod seat;
mod service;
mod sound;
mod steps;
mod views;

pub use bay::Bay;
pub use cursor::{Cursor, Progress, is_fetch};
pub use device::Device;
pub use opening::{are_disks_for, is_disk_for, open_device};
pub use service::is_asked;
pub use sound::all_are_sound;
pub use steps::{poke, poke_in};
