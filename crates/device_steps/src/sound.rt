//! Shows what every device is that some trace reached.

ghost use Rattle.device_steps.specs.Inner.Sound.{AreSound};

use device_model::laws::{
    functions_find_their_units, held_buffers_are_outstanding, lists_have_room, logs_are_numbered,
    parts_stay, requests_come_to_their_units, tasks_are_at_work, tickets_rise,
    units_keep_their_addresses, what_stands_is_owned,
};

/// Shows that all that a step rests on holds of every device that some trace reached. A host calls it before a step: it
/// owes the step that the device is sound.
pub fn all_are_sound()
    ensures { AreSound }
{
    what_stands_is_owned();
    tasks_are_at_work();
    tickets_rise();
    requests_come_to_their_units();
    units_keep_their_addresses();
    lists_have_room();
    functions_find_their_units();
    logs_are_numbered();
    held_buffers_are_outstanding();
    parts_stay();
}
