//! The configuration of a device.

ghost use Rattle.std.specs.Prelude.{◌≡◌, ◌&&◌, nat_le, is_none, IfSome};
ghost use Rattle.config.specs.Config.{form_of, has_bit, is_config, is_config_for};
ghost use Rattle.config.specs.ConfigFault.{IsFault, IsFaultFor};

use crate::config_fault::{ConfigFault, fault_of_queues, fault_of_units};
use request_intake::UnitSpec;
use ring_core::{Form, Layout};
use std::error::Error;
use std::fmt;

/// VIRTIO_F_VERSION_1, which has to be set (VIRTIO 1.2, 6).
pub const VERSION_1: u64 = 1 << 32;

/// VIRTIO_F_RING_PACKED: packed virtqueues in place of split ones.
pub const RING_PACKED: u64 = 1 << 34;

/// VIRTIO_F_INDIRECT_DESC: a chain may end in a table of descriptors.
pub const INDIRECT_DESC: u64 = 1 << 28;

/// VIRTIO_F_EVENT_IDX: the driver names the completion behind which it wants a notice.
pub const EVENT_IDX: u64 = 1 << 29;

/// VIRTIO_SCSI_F_CHANGE: the driver is told of capacities that change (VIRTIO 1.2, 5.6.3).
pub const CHANGE: u64 = 1 << 2;

/// Names the features that any host may offer. A driver has to agree to `VERSION_1` (VIRTIO 1.2, 6.1).
pub const FEATURES: u64 = VERSION_1 + RING_PACKED + INDIRECT_DESC + CHANGE;

/// Names all features that the device takes: `FEATURES` and `EVENT_IDX`.
///
/// By itself the device never writes `avail_event` or its event area. A driver of a split queue that agreed to
/// `EVENT_IDX` tells of a new chain only where `avail_event` names it, so it stops after its first chain. A host offers
/// `EVENT_IDX` for packed queues alone, or asks anew by `ask` of the device after each call that served the queue.
pub const ACCEPTED_FEATURES: u64 = FEATURES + EVENT_IDX;

/// A device that is wanted.
#[derive(Debug, Drop)]
pub struct Config {
    /// Guest memory in pages of 4,096 bytes, 1 to 65,536, where the device has a memory of its own. A device on a memory
    /// of the embedder's doesn't look at it: that memory says how many bytes it has.
    pub pages: u32,
    /// The features agreed: `VERSION_1`, and any others of `ACCEPTED_FEATURES`.
    pub features: u64,
    /// The control queue, the event queue, and 1 to 16 request queues, each of 2 to 1,024
    /// descriptors.
    pub queues: Vec<Layout>,
    /// The number of workers that serve the request queues, 1 to 8.
    pub workers: u16,
    /// The most jobs that each seat may have handed off and that none took yet, 1 to 4,096.
    pub handoff: u16,
    /// 1 to 64 units in rising order of target and LUN, each target with LUN 0.
    pub units: Vec<UnitSpec>,
}

/// The cause for which a device doesn't start. `BadConfig` is tested first.
#[derive(Clone, Copy, Debug, PartialEq, Eq)]
pub enum StartFault {
    /// The configuration lies outside the limits, or a ring refuses its layout.
    BadConfig = 1,
    /// A growth was refused.
    NoMemory = 2,
}

impl fmt::Display for StartFault {
    fn fmt<W: fmt::Write>(&self, f: &mut fmt::Formatter<W>) -> fmt::Result {
        match self {
            StartFault::BadConfig => write!(f, "bad configuration"),
            StartFault::NoMemory => write!(f, "no memory"),
        }
    }
}

impl Error for StartFault {}

/// Returns the form of queue that features ask for; `None` where the device doesn't take these features.
pub fn form(features: u64) -> Option<Form>
    ensures { result ≡ form_of features }
{
    if features & VERSION_1 != VERSION_1 || features & ACCEPTED_FEATURES != features {
        None
    } else if features & RING_PACKED == RING_PACKED {
        Some(Form::Packed)
    } else {
        Some(Form::Split)
    }
}

/// Returns true if a driver that agreed to these features is told of capacities that change.
pub fn tells_changes(features: u64) -> bool
    ensures { result ≡ has_bit features 2 }
{
    features & CHANGE == CHANGE
}

/// Returns true if a number is at least the one and at most the other.
fn lies_within(number: u64, least: u64, most: u64) -> bool
    ensures { result ≡ (nat_le least number && nat_le number most) }
{
    number >= least && number <= most
}

impl Config {
    /// Returns why the device doesn't take it; `None` exactly where it does. Asked before a device is made, to say why
    /// `World::new` would answer `BadConfig`. Pages are looked at first, then what `fault_for` looks at.
    pub fn fault(&self) -> Option<ConfigFault>
        ensures none { is_none result ≡ is_config self.now }
        ensures cause { IfSome result (λ fault. IsFault self.now fault) }
    {
        if !lies_within(self.pages as u64, 1, 65536) {
            return Some(ConfigFault::Pages);
        }
        self.fault_for(self.pages as u64 * 4096)
    }

    /// Returns why the device doesn't take it on a memory of so many bytes; `None` exactly where it does. Asked before a
    /// device is made on a memory of the embedder's, to say why `LiveWorld::new` would answer `BadConfig`. Features are
    /// looked at first, then queues, workers, the hand-off and units; pages aren't.
    pub fn fault_for(&self, memory: u64) -> Option<ConfigFault>
        ensures none { is_none result ≡ is_config_for memory self.now }
        ensures cause { IfSome result (λ fault. IsFaultFor memory self.now fault) }
    {
        let Some(form) = form(self.features) else {
            return Some(ConfigFault::Features);
        };
        if let Some(fault) = fault_of_queues(form, memory, self.queues.as_slice()) {
            return Some(fault);
        }
        if !lies_within(self.workers as u64, 1, 8) {
            return Some(ConfigFault::Workers);
        }
        if !lies_within(self.handoff as u64, 1, 4096) {
            return Some(ConfigFault::Handoff);
        }
        fault_of_units(self.units.as_slice())
    }

    /// Returns true if the device takes it.
    pub fn is_valid(&self) -> bool
        ensures { result ≡ is_config self.now }
    {
        self.fault().is_none()
    }

    /// Returns true if the device takes it on a memory of so many bytes.
    pub fn is_valid_for(&self, memory: u64) -> bool
        ensures { result ≡ is_config_for memory self.now }
    {
        self.fault_for(memory).is_none()
    }
}
