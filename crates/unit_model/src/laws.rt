//! Laws that follow from the definitions alone.

mod base;
mod cases;
mod contents;
mod failing;
mod flushing;
mod handing;
mod keeping;
mod marks;
mod owing;
mod receipts;
mod releasing;
mod tasks;

pub use base::{few_steps_are_kept, folded_and_kept_are_the_history};
pub use cases::{
    abort_of_a_committed_task, abort_of_a_parked_task, abort_of_a_taken_task, either_may_be_first,
    ordered_stands_between, what_was_written_is_read,
};
pub use contents::{
    attention_is_taken_by_its_taker, commits_alone_change_blocks, resets_raise,
    resizes_keep_the_blocks_below,
};
pub use failing::{a_unit_fails_as_its_host_said, what_cant_be_read_changes_nothing};
pub use flushing::a_flush_leaves_what_was_written;
pub use handing::{
    a_leave_hands_out_what_was_parked, an_enter_parks_what_is_blocked, fewer_are_parked_than_alive,
    marks_hand_out_what_was_parked, other_steps_hand_out_nothing,
};
pub use keeping::{
    a_commit_or_busy_finishes, a_leave_frees, an_abort_or_reset_marks, an_enter_appends,
    what_is_kept_is_alive,
};
pub use marks::{
    first_mark_stays, marked_commands_never_run, places_are_clear_when_all_have_left,
    places_are_clear_where_no_earlier_task_is_met, what_left_undone_was_marked,
};
pub use owing::{at_most_128_are_owed, each_step_is_owed};
pub use receipts::{
    receipts_are_confirmed, receipts_of_another_reply_are_not, receipts_of_no_commit_are_not,
};
pub use releasing::{
    a_leave_hands_out_what_it_frees, marks_hand_out_what_they_mark, what_is_handed_out_was_parked,
};
pub use tasks::{
    alive_tasks_are_distinct, each_happens_once, enabled_stays_enabled,
    full_alone_where_64_are_alive, leaves_once_ended, some_task_is_free,
    unblocked_is_enabled_at_once,
};
