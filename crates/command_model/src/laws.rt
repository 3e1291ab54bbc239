//! Laws that follow from the definitions alone.

ghost use Rattle.std.specs.Prelude.{◌≡◌, true};
ghost use Rattle.command_model.specs.Identity.{is_identity, plain_identity};
ghost use Rattle.command_model.specs.Statuses.{good, check_condition, busy, task_set_full};

use crate::reply::{BUSY, CHECK_CONDITION, GOOD, TASK_SET_FULL};

/// Each constant is the status code of its name.
pub fn status_codes()
    ensures good { GOOD ≡ good }
    ensures check_condition { CHECK_CONDITION ≡ check_condition }
    ensures busy { BUSY ≡ busy }
    ensures task_set_full { TASK_SET_FULL ≡ task_set_full }
{}

/// A disk may be had of which a configuration says nothing.
pub fn plain_disk()
    ensures { is_identity plain_identity ≡ true }
{}
