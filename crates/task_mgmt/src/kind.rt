//! The acts of a function on each of its units.

ghost use Rattle.std.specs.Prelude.{◌≡◌, IfSome};
ghost use Rattle.task_mgmt.specs.Functions.{kind_of};
ghost use Rattle.task_mgmt.specs.Inner.Functions.{IsKnownKind};

use unit_attention::Code;
use unit_model::Rule;

/// The cause that marks the tasks of a unit.
#[derive(Clone, Copy)]
pub enum MarkBy {
    /// They are aborted (SAM-5 §7.2, §7.3, §7.5).
    Abort(Rule),
    /// Their unit is reset, and this code established (SAM-5 §7.6, §7.7).
    Reset(Code),
}

/// The act of a function on each of its units.
#[derive(Clone, Copy)]
pub enum Kind {
    /// It marks the tasks that are alive, and waits until those that it meets have left.
    Marking(MarkBy),
    /// It looks for a task that is alive (SAM-5 §7.8, §7.9); its checks wait for none.
    Querying(Rule),
}

/// Returns what the function of a subtype (VIRTIO 1.2 §5.6.6.2) does; `None` for one that isn't offered.
pub(crate) fn kind_of(subtype: u32, id: u64) -> Option<Kind>
    ensures kind { result ≡ kind_of subtype id }
    ensures known { IfSome result IsKnownKind }
{
    match subtype {
        0 => Some(Kind::Marking(MarkBy::Abort(Rule::Id(id)))),
        1 | 3 => Some(Kind::Marking(MarkBy::Abort(Rule::All))),
        4 => Some(Kind::Marking(MarkBy::Reset(Code::I_T_NEXUS_LOSS))),
        5 => Some(Kind::Marking(MarkBy::Reset(Code::BUS_DEVICE_RESET_FUNCTION))),
        6 => Some(Kind::Querying(Rule::Id(id))),
        7 => Some(Kind::Querying(Rule::All)),
        _ => None,
    }
}
