//! The reasons for which a device isn't taken.

ghost use Rattle.std.specs.Prelude.{◌≡◌, not, is_none, false, IfSome, map, position};
ghost use Rattle.std.specs.List.{list_any};
ghost use Rattle.request_intake.specs.Inventory.{address_of, stands_before, is_rising};
ghost use Rattle.config.specs.Config.{is_queue, is_unit, has_lun_0, naa_of, shares, has_own_naa, are_units, are_queues};
ghost use Rattle.config.specs.ConfigFault.{IsQueueFault, IsQueuesFault, IsUnitFault, IsUnitsFault, Falls};

use request_intake::UnitSpec;
use ring_core::{Form, Layout, LayoutFault};
use std::error::Error;
use std::fmt;
use virtqueue::placement;

/// The most descriptors of a queue, in the profile of this device.
pub const MOST_DESCRIPTORS: u16 = 1024;

/// The most blocks of a unit, of 512 bytes each: a unit has at most 512 tebibytes.
pub const MOST_BLOCKS: u64 = 1 << 40;

/// The cause for which the device doesn't take a configuration. An index counts from 0; it is the first that has this
/// cause.
#[derive(Clone, Copy, Debug, PartialEq, Eq)]
pub enum ConfigFault {
    /// There are no pages, or more than 65,536.
    Pages,
    /// The features lack `VERSION_1`, or have one that isn't among `ACCEPTED_FEATURES`.
    Features,
    /// There are fewer than 3 queues, or more than 18.
    QueueCount,
    /// The queue of this number has fewer than 2 descriptors, or more than 1,024.
    QueueSize(usize),
    /// The ring of the queue of this number refuses its layout.
    QueueLayout(usize, LayoutFault),
    /// There are no workers, or more than 8.
    Workers,
    /// A seat may hand off no job, or more than 4,096.
    Handoff,
    /// There are no units, or more than 64.
    UnitCount,
    /// The unit at this index has a LUN above 16,383.
    UnitLun(usize),
    /// The unit at this index has no blocks, or more than 2^40.
    UnitBlocks(usize),
    /// The unit at this index doesn't stand above the one before it, by target and LUN.
    UnitOrder(usize),
    /// The target of the unit at this index has no LUN 0.
    NoLun0(usize),
    /// The unit at this index says of itself what no unit may: [`Identity::is_valid`] denies it.
    UnitIdentity(usize),
    /// Another unit has the NAA designator of the unit at this index.
    UnitNaa(usize),
}

impl fmt::Display for ConfigFault {
    fn fmt<W: fmt::Write>(&self, f: &mut fmt::Formatter<W>) -> fmt::Result {
        match self {
            ConfigFault::Pages => write!(f, "pages out of range"),
            ConfigFault::Features => write!(f, "features aren't offered"),
            ConfigFault::QueueCount => write!(f, "number of queues out of range"),
            ConfigFault::QueueSize(index) => write!(f, "queue {index}: size out of range"),
            ConfigFault::QueueLayout(index, fault) => write!(f, "queue {index}: {fault}"),
            ConfigFault::Workers => write!(f, "number of workers out of range"),
            ConfigFault::Handoff => write!(f, "room of the hand-off out of range"),
            ConfigFault::UnitCount => write!(f, "number of units out of range"),
            ConfigFault::UnitLun(index) => write!(f, "unit {index}: LUN out of range"),
            ConfigFault::UnitBlocks(index) => write!(f, "unit {index}: capacity out of range"),
            ConfigFault::UnitOrder(index) => write!(f, "unit {index}: not above the one before"),
            ConfigFault::NoLun0(index) => write!(f, "unit {index}: target without LUN 0"),
            ConfigFault::UnitIdentity(index) => write!(f, "unit {index}: names out of range"),
            ConfigFault::UnitNaa(index) => write!(f, "unit {index}: NAA of another unit"),
        }
    }
}

impl Error for ConfigFault {}

/// Returns true if a queue lies within the limits.
fn check_queue(form: Form, memory: u64, layout: &Layout) -> bool
    ensures { result ≡ is_queue form memory layout.now }
{
    layout.size >= 2 && layout.size <= MOST_DESCRIPTORS && placement(form, memory, layout).is_none()
}

/// Returns why a queue doesn't lie within the limits.
fn fault_of_queue(form: Form, memory: u64, queue_index: usize, layout: &Layout) -> ConfigFault
    requires { is_queue form memory layout.now ≡ false }
    ensures { IsQueueFault form memory queue_index layout.now result }
{
    if layout.size < 2 || layout.size > MOST_DESCRIPTORS {
        return ConfigFault::QueueSize(queue_index);
    }
    match placement(form, memory, layout) {
        Some(fault) => ConfigFault::QueueLayout(queue_index, fault),
        None => unreachable!(),
    }
}

/// Returns the first queue that doesn't lie within the limits.
fn first_refused(form: Form, memory: u64, queues: &[Layout]) -> Option<usize>
    ensures { result ≡ position (λ l. not (is_queue form memory l)) queues.now }
{
    queues
        .iter()
        .position(|layout| !check_queue(form, memory, layout))
}

/// Returns why there aren't queues of each kind, within the limits.
pub(crate) fn fault_of_queues(form: Form, memory: u64, queues: &[Layout]) -> Option<ConfigFault>
    ensures none { is_none result ≡ are_queues (Some form) memory queues.now }
    ensures cause { IfSome result (λ fault. IsQueuesFault form memory queues.now fault) }
{
    if queues.len() < 3 || queues.len() > 18 {
        return Some(ConfigFault::QueueCount);
    }
    match first_refused(form, memory, queues) {
        Some(queue_index) => Some(fault_of_queue(form, memory, queue_index, &queues[queue_index])),
        None => None,
    }
}

/// Returns true if a unit lies within the limits.
fn check_unit(unit: &UnitSpec) -> bool
    ensures { result ≡ is_unit unit.now }
{
    unit.lun <= 16383 && unit.blocks >= 1 && unit.blocks <= MOST_BLOCKS && unit.identity.is_valid()
}

/// Returns why a unit doesn't lie within the limits.
fn fault_of_unit(unit_index: usize, unit: &UnitSpec) -> ConfigFault
    requires { is_unit unit.now ≡ false }
    ensures { IsUnitFault unit_index unit.now result }
{
    if unit.lun > 16383 {
        ConfigFault::UnitLun(unit_index)
    } else if unit.blocks < 1 || unit.blocks > MOST_BLOCKS {
        ConfigFault::UnitBlocks(unit_index)
    } else {
        ConfigFault::UnitIdentity(unit_index)
    }
}

/// Returns true if a target has LUN 0.
fn check_lun_0(units: &[UnitSpec], target: u8) -> bool
    ensures { result ≡ has_lun_0 units.now target }
{
    units
        .iter()
        .any(|unit| unit.target == target && unit.lun == 0)
}

/// Returns the first unit that doesn't lie within the limits.
fn first_unfit(units: &[UnitSpec]) -> Option<usize>
    ensures { result ≡ position (λ u. not (is_unit u)) units.now }
{
    units.iter().position(|unit| !check_unit(unit))
}

/// Returns the first unit whose target has no LUN 0.
fn first_lacking(units: &[UnitSpec]) -> Option<usize>
    ensures { result ≡ position (λ u. not (has_lun_0 units.now u.target)) units.now }
{
    units
        .iter()
        .position(|unit| !check_lun_0(units, unit.target))
}

/// Returns the number that a unit's NAA designator is; 0 where it has none.
fn naa(unit: &UnitSpec) -> u64
    ensures { result ≡ naa_of unit.now }
{
    match unit.identity.naa {
        None => 0,
        Some(bytes) => u64::from_be_bytes(bytes),
    }
}

/// Returns true if another unit has the NAA designator of a unit.
fn shares(unit: &UnitSpec, other: &UnitSpec) -> bool
    ensures { result ≡ shares unit.now other.now }
{
    naa(other) == naa(unit) && !(other.target == unit.target && other.lun == unit.lun)
}

/// Returns true if another of these units has the NAA designator of a unit.
fn is_shared(units: &[UnitSpec], unit: &UnitSpec) -> bool
    ensures { result ≡ list_any (shares unit.now) units.now }
{
    units.iter().any(|other| shares(unit, other))
}

/// Returns true if no other unit has the NAA designator of a unit.
fn has_own_naa(units: &[UnitSpec], unit: &UnitSpec) -> bool
    ensures { result ≡ has_own_naa units.now unit.now }
{
    naa(unit) == 0 || !is_shared(units, unit)
}

/// Returns the first unit whose NAA designator another has.
fn first_sharing(units: &[UnitSpec]) -> Option<usize>
    ensures { result ≡ position (λ u. not (has_own_naa units.now u)) units.now }
{
    units.iter().position(|unit| !has_own_naa(units, unit))
}

/// Returns true if one unit stands above another.
fn stands_above(before: &UnitSpec, unit: &UnitSpec) -> bool
    ensures { result ≡ stands_before (address_of before.now) (address_of unit.now) }
{
    before.target < unit.target || (before.target == unit.target && before.lun < unit.lun)
}

/// Returns the first unit that doesn't stand above the one before it.
fn first_fall(units: &[UnitSpec]) -> Option<usize>
    ensures none { is_none result ≡ is_rising (map address_of units.now) }
    ensures cause { IfSome result (λ index. Falls units.now index) }
{
    for unit_index in 1..units.len() {
        if !stands_above(&units[unit_index - 1], &units[unit_index]) {
            return Some(unit_index);
        }
    }
    None
}

/// Returns why the units don't lie within the limits.
pub(crate) fn fault_of_units(units: &[UnitSpec]) -> Option<ConfigFault>
    ensures none { is_none result ≡ are_units units.now }
    ensures cause { IfSome result (λ fault. IsUnitsFault units.now fault) }
{
    if units.len() < 1 || units.len() > 64 {
        return Some(ConfigFault::UnitCount);
    }
    if let Some(unit_index) = first_unfit(units) {
        return Some(fault_of_unit(unit_index, &units[unit_index]));
    }
    if let Some(unit_index) = first_fall(units) {
        return Some(ConfigFault::UnitOrder(unit_index));
    }
    if let Some(unit_index) = first_lacking(units) {
        return Some(ConfigFault::NoLun0(unit_index));
    }
    match first_sharing(units) {
        Some(unit_index) => Some(ConfigFault::UnitNaa(unit_index)),
        None => None,
    }
}
