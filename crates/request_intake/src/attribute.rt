//! Task attributes.

ghost use Rattle.std.specs.Prelude.{◌≡◌};
ghost use Rattle.request_intake.specs.Decision.{attribute_of};

/// The task attributes that this device knows (SAM-5 §8.6): when a command may run beside others.
#[derive(Clone, Copy, PartialEq, Eq)]
pub enum TaskAttribute {
    /// Runs in any order with other SIMPLE tasks.
    Simple = 0,
    /// After all older tasks and before all younger ones.
    Ordered = 1,
    /// Runs at once.
    HeadOfQueue = 2,
}

/// Returns the attribute of this number in a request (VIRTIO 1.2 §5.6.6.1), if this device knows it.
pub(crate) fn attribute_of(number: u8) -> Option<TaskAttribute>
    ensures { result ≡ attribute_of number }
{
    match number {
        0 => Some(TaskAttribute::Simple),
        1 => Some(TaskAttribute::Ordered),
        2 => Some(TaskAttribute::HeadOfQueue),
        _ => None,
    }
}
