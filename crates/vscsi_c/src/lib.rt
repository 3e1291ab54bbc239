//! The device for C: what `include/vscsi.h` declares, each a call of `c_calls` and its answer's number.
#![tactic(auto)]

mod exports;
mod live_exports;

pub use exports::{
    vscsi_raw_blocks, vscsi_raw_broken, vscsi_raw_capacity, vscsi_raw_changed, vscsi_raw_close,
    vscsi_raw_counts, vscsi_raw_create, vscsi_raw_create_with, vscsi_raw_destroy,
    vscsi_raw_disk_blocks, vscsi_raw_disk_create, vscsi_raw_disk_create_backed,
    vscsi_raw_disk_destroy, vscsi_raw_disk_is_backed, vscsi_raw_disk_load, vscsi_raw_disk_save,
    vscsi_raw_owed, vscsi_raw_peek, vscsi_raw_poke, vscsi_raw_position, vscsi_raw_progress,
    vscsi_raw_reset, vscsi_raw_resize, vscsi_raw_serve, vscsi_raw_settle, vscsi_raw_status,
};
pub use live_exports::{
    vscsi_raw_live_ask, vscsi_raw_live_blocks, vscsi_raw_live_broken, vscsi_raw_live_capacity,
    vscsi_raw_live_changed, vscsi_raw_live_close, vscsi_raw_live_counts, vscsi_raw_live_create,
    vscsi_raw_live_create_with, vscsi_raw_live_denied, vscsi_raw_live_destroy, vscsi_raw_live_give,
    vscsi_raw_live_is_there, vscsi_raw_live_load, vscsi_raw_live_load_failed, vscsi_raw_live_lost,
    vscsi_raw_live_map, vscsi_raw_live_owed, vscsi_raw_live_position, vscsi_raw_live_reset,
    vscsi_raw_live_resize, vscsi_raw_live_serve, vscsi_raw_live_serve_and_ask,
    vscsi_raw_live_status, vscsi_raw_live_wake, vscsi_raw_live_wanted, vscsi_raw_live_written,
};
