//! A device of one thread, and a host that keeps the storages of its disks in memory: what [`World::load`](world::World::load)
//! asks of a host can be had.
//!
//! # Proved
//!
//! It opens over disks of zeros as its configuration has them, with a storage of zeros exactly for each disk that is to have one.
//! Each page that is handed in is as the host's storage keeps it, whatever the guest, the operator and the host did before. So
//! the premise of the promise of disks whose pages come and go holds of this device, and it has none. Its calls do what those of
//! `World` do.
#![tactic(auto)]

mod hosted;
mod laws;
mod opening;
mod paging;
mod resizing;
mod serving;
mod stored;

pub use hosted::HostedDisk;
pub use laws::serving_deals_nothing;
pub use stored::StoredWorld;
