//! The reasons for which a unit refuses a request.

/// The refusal of a request that came to its unit.
#[derive(Clone, Copy)]
pub enum Refusal {
    /// 64 tasks were alive.
    Full,
    /// Memory was refused.
    Busy,
    /// It names another unit, or a later ticket of its queue had come before. Neither ever happens in one device.
    Stale,
}
