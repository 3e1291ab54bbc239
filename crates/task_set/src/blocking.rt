//! The tasks that block one that enters (SAM-5 §8.6).

ghost use Rattle.std.specs.Prelude.{◌≡◌};
ghost use Rattle.unit_model.specs.Tasks.{blocks};
ghost use Rattle.task_set.specs.Inner.Tasks.{entries_of};

use crate::task::Task;
use request_intake::TaskAttribute;

/// Returns true if there is a task that isn't SIMPLE.
fn has_other_than_simple(tasks: &[Task]) -> bool
    ensures { result ≡ blocks TaskAttribute.Simple (entries_of tasks.now) (entries_of tasks.now) }
{
    for task in tasks {
        if task.attribute() != TaskAttribute::Simple {
            return true;
        }
    }
    false
}

/// Returns true if these tasks block one of this attribute that enters behind them.
pub(crate) fn block_next(tasks: &[Task], attribute: TaskAttribute) -> bool
    ensures { result ≡ blocks attribute (entries_of tasks.now) (entries_of tasks.now) }
{
    match attribute {
        TaskAttribute::HeadOfQueue => false,
        TaskAttribute::Simple => has_other_than_simple(tasks),
        TaskAttribute::Ordered => !tasks.is_empty(),
    }
}
