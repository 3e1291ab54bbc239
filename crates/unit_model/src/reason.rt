//! The reasons for which a command ends without having run.

/// The reason for which a task was marked. It ends without having run.
#[derive(Clone, Copy, PartialEq, Eq)]
pub enum Reason {
    /// An abort met it (SAM-5 §7.2, §7.3, §7.5): response ABORTED (VIRTIO 1.2 §5.6.6.1).
    Aborted,
    /// Its unit was reset (SAM-5 §7.6, §7.7): response RESET (VIRTIO 1.2 §5.6.6.1).
    Reset,
}
