//! Laws that hold of the device in every order of its steps, from its opening on. `transitions_of` are the transitions
//! of a trace, the newest first; a law over all reached traces speaks of every moment of every run.

ghost use Rattle.std.specs.Prelude.{List};
ghost use Rattle.device_model.specs.World.{PlainWorld};
ghost use Rattle.device_model.specs.Happens.{Occurrence, Reached, transitions_of};
ghost use Rattle.device_model.specs.Happened.{NoneIsLost};
ghost use Rattle.device_model.specs.Histories.{AreHistories};
ghost use Rattle.device_model.specs.Entering.{AreEntered};
ghost use Rattle.device_model.specs.Answering.{AreAnswered};
ghost use Rattle.device_model.specs.Ordering.{AreInOrder};
ghost use Rattle.device_model.specs.Functions.{AreOver};
ghost use Rattle.device_model.specs.EventBuffers.{AreEvents};
ghost use Rattle.device_model.specs.Promise.{AreLogs, IsPromised};

use crate::laws::{
    a_trace_is_that_of_its_transitions, each_chain_stands_in_one_place, logs_are_numbered,
    memory_is_that_of_the_writes,
};

/// The history of each unit is lawful. It has the steps that the transitions tell, in their order, and no others. It
/// begins as the unit stood at the opening of the device. A step is taken only on a unit that is there.
pub fn histories_are_told()
    ensures { (old : PlainWorld) (trace : List Occurrence) (w : PlainWorld) (r : Reached old trace w) →
        AreHistories old (transitions_of old trace w r.runs) w }
{}

/// No unit is ever asked for a task that it doesn't have, and none is given a ticket before one that it saw.
pub fn none_is_lost()
    ensures { (old : PlainWorld) (trace : List Occurrence) (w : PlainWorld) (r : Reached old trace w) →
        NoneIsLost (transitions_of old trace w r.runs) }
{}

/// Each accepted chain was fetched once, as its queue offered it, with the bytes that stood in memory then. Its task
/// enters at most once, in one unit, and only where these bytes had no direct answer. Its unit, identifier, attribute,
/// command and data are what was decided of these bytes, whatever the guest wrote later.
pub fn tasks_enter_once()
    ensures { (old : PlainWorld) (trace : List Occurrence) (w : PlainWorld) (r : Reached old trace w) →
        AreEntered old (transitions_of old trace w r.runs) w }
{}

/// Each used ticket of a request queue has one answer. Its chain is that of a Fetch. Its bytes are those of its
/// outcome, written over the chain's parts in the queue as it stands then. Its outcome is true, and one of these:
///
/// - the direct answer to the bytes of the Fetch;
/// - the reply of the task's Commit, which is the reply to the history before it;
/// - the reason of the task's first mark, and then the task never has a Commit;
/// - a full unit;
/// - a unit that was refused memory.
pub fn answers_are_true()
    ensures { (old : PlainWorld) (trace : List Occurrence) (w : PlainWorld) (r : Reached old trace w) →
        AreAnswered old (transitions_of old trace w r.runs) w }
{}

/// Two commands that one unit ran, the second fetched after the first was answered, ran in that order. So a guest that
/// waits for an answer before its next request finds the order kept, whatever ran in between.
pub fn commands_keep_their_order()
    ensures { (old : PlainWorld) (trace : List Occurrence) (w : PlainWorld) (r : Reached old trace w) →
        AreInOrder (transitions_of old trace w r.runs) }
{}

/// A task management function is answered once two things hold. All units that its Fetch decided were visited, unless
/// memory was refused. All tasks that were alive at its marks and met by its rule, done or not, were answered and have
/// left.
///
/// It says that it succeeded exactly where a look of it found a task. It says that it failed exactly where a mark of it
/// was refused memory, and else that it is complete.
pub fn functions_end_after_their_tasks()
    ensures { (old : PlainWorld) (trace : List Occurrence) (w : PlainWorld) (r : Reached old trace w) →
        AreOver old (transitions_of old trace w r.runs) }
{}

/// Each event that a reset or a resize of the operator raises is given or missed, in the order in which they are raised. Buffers
/// are given in the order in which they came. An event is missed only where none is held. The next buffer that is long
/// enough then tells so at once.
pub fn events_are_given_in_order()
    ensures { (old : PlainWorld) (trace : List Occurrence) (w : PlainWorld) (r : Reached old trace w) →
        AreEvents old (transitions_of old trace w r.runs) w }
{}

/// The log of each queue is lawful: its accepted chains are numbered 0, 1, 2 and so on, and its used ones are its own,
/// accepted, and distinct.
pub fn logs_are_lawful()
    ensures { (old : PlainWorld) (trace : List Occurrence) (w : PlainWorld) → Reached old trace w → AreLogs w }
{
    logs_are_numbered();
    each_chain_stands_in_one_place();
}

/// The promise of the device is kept by every trace that reached a world: all that these laws say of it, in one record.
pub fn the_promise_is_kept()
    ensures { (old : PlainWorld) (trace : List Occurrence) (w : PlainWorld) (r : Reached old trace w) →
        IsPromised old trace w r }
{
    a_trace_is_that_of_its_transitions();
    histories_are_told();
    tasks_enter_once();
    answers_are_true();
    logs_are_lawful();
    each_chain_stands_in_one_place();
    commands_keep_their_order();
    functions_end_after_their_tasks();
    memory_is_that_of_the_writes();
    none_is_lost();
    events_are_given_in_order();
}
