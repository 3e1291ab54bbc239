//! The blocks of a disk: a map from a logical block address to 512 bytes, as a trait with laws. Two stores have it: one
//! keeps the blocks in one run of bytes, the other in pages.
//!
//! # Proved
//!
//! Each store is a map from block number to 512 bytes. A write that is refused memory changes no block; to open and
//! to zero take none. Pages made away from the store are installed exactly where the blocks beside the range are as
//! they were copied. Then all is as after the write (`installed_is_written`).
#![tactic(auto)]

mod bytes;
mod cutting;
mod edges;
mod exchange;
mod flat;
mod laws;
mod numbers;
mod page;
mod paged;
mod pages;
mod readiness;
mod row;
mod store;
mod table;

pub use bytes::{blocks_at, put_blocks, put_copies, put_zeros};
pub use edges::{Edges, Prepared};
pub use flat::FlatStore;
pub use laws::{
    filled_has_the_block, installed_is_written, later_write_wins, nothing_written_changes_nothing,
    others_stay, read_gives_512_bytes_a_block, read_in_two_parts, the_latest_word_of_a_page_counts,
    written_is_read_back, zeroed_reads_as_zeros,
};
pub use paged::PagedStore;
pub use readiness::Readiness;
pub use store::{BLOCK_BYTES, Store};
