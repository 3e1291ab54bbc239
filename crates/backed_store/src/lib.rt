//! A store whose pages come and go: a bounded cache of pages, over a storage that the host keeps.
//!
//! # Proved
//!
//! Each block is what the store holds of it, else what the host last said that it kept, whatever comes and goes. A page
//! that isn't kept as it stands is never evicted. One that changed while it was written isn't clean. A load changes
//! nothing that is held. A page that the host can't read isn't on its way until it is asked for again. At most as many
//! pages are held as the budget allows. The memory of a page that went is kept for one that comes, and counts too. An eviction
//! finds a page that may go and isn't spared, if there is one. Where no change up to a number is unkept, the storage has each
//! block that didn't change later. A page stays dirty from its oldest change on until that is kept. [`BlocksInPlace`] gives the
//! bytes of each block once, in order.
//!
//! The host is asked only for pages below the capacity. Each page that is noted as lost is one of which the host said that it
//! can't read it. At most 64 are noted: one more drops the oldest. A page that is loaded, kept or cut off isn't noted any longer.
//! As many are noted as denied: of each the host said that it can't write it. It is to be written again. A page that is kept or cut
//! off isn't noted as denied any longer.
//!
//! A flush waits for the changes that were made before it. No call makes it wait for more, unless a write of the host failed;
//! each page that the host is given and keeps makes it wait for less (`what_is_owed_is_due`). Where no page is left to give,
//! each that is owed is being written. [`BackedDisk`] keeps how far the latest flush is by what the host was given and kept since
//! it began: once none of these changes is owed, the storage keeps each page as it was then, or later. Whatever the host was given
//! of a page that isn't dirty, and didn't say that it kept, is as the storage keeps it.
#![tactic(auto)]

mod backed;
mod backed_disk;
mod cache;
mod change_set;
mod cutting;
mod dealing;
mod disk;
mod disk_paging;
mod disk_store;
mod evicting;
mod fencing;
mod fetching;
mod given;
mod in_place;
mod laws;
mod mark;
mod noted_pages;
mod noting;
mod numbers;
mod page_range;
mod page_set;
mod paging;
mod parts;
mod queue;
mod ranges;
mod slot;
mod slots;
mod unkept;
mod writing_back;

pub use backed::BackedStore;
pub use backed_disk::BackedDisk;
pub use dealing::{Dealing, GivenPage};
pub use disk::Disk;
pub use in_place::BlocksInPlace;
pub use laws::what_is_owed_is_due;
pub use numbers::{PAGE_BLOCKS, PAGE_BYTES};
pub use page_range::PageRange;
