//! The numbers of the device's queues (VIRTIO 1.2 §5.6.2).

/// The number of the control queue.
pub const CONTROL_QUEUE: u16 = 0;

/// The number of the event queue.
pub const EVENT_QUEUE: u16 = 1;

/// The number of the first request queue; the others follow it.
pub const FIRST_REQUEST_QUEUE: u16 = 2;
