//! The device that C wants.

ghost use Rattle.std.specs.Prelude.{◌≡◌, map, IfOk};
ghost use Rattle.c_calls.specs.Wanted.{layout_of, profile_of, sense_format_of, identity_of, spec_of, Asks};
ghost use Rattle.c_calls.specs.Calls.{layout_number as number_of_layout, cause_of, plain_cause};

use command_model::{Identity, SERIAL_BYTES};
use request_intake::{Profile, UnitSpec};
use sense::SenseFormat;
use std::alloc::{AllocError, Global};
use world::{Config, ConfigFault, Layout, LayoutFault};

/// One thread serves, so there is one worker.
pub(crate) const WORKERS: u16 = 1;

/// The number of jobs that stand between a seat and the worker.
pub(crate) const HANDOFF: u16 = 64;

/// Where a queue lies: the header's `struct vscsi_queue`.
#[repr(C)]
#[derive(Clone, Copy)]
pub struct WantedQueue {
    pub desc: u64,
    pub driver: u64,
    pub device: u64,
    pub size: u16,
}

impl WantedQueue {
    /// Returns it as a layout.
    fn layout(&self) -> Layout
        ensures { result ≡ layout_of self.now }
    {
        Layout::fresh(self.size, self.desc, self.driver, self.device)
    }
}

/// A unit that is wanted: the header's `struct vscsi_unit`, with its profile and its names, as `library/calls.c` hands it on.
#[repr(C)]
#[derive(Clone, Copy)]
pub struct WantedUnit {
    pub blocks: u64,
    pub lun: u16,
    pub target: u8,
    /// 0: the unit begins with POWER ON, RESET, OR BUS DEVICE RESET OCCURRED pending.
    pub calm: u8,
    /// 0: the narrow profile; else the wide one.
    pub profile: u8,
    pub physical_exponent: u8,
    pub rotation_rate: u16,
    pub vendor: [u8; 8],
    pub product: [u8; 16],
    pub revision: [u8; 4],
    pub serial: [u8; SERIAL_BYTES],
    pub serial_len: u8,
    /// 0: there is no NAA designator.
    pub has_naa: u8,
    pub naa: [u8; 8],
    /// 0: the unit sends sense data in the fixed format; else in the descriptor format.
    pub sense_format: u8,
    /// 0: the unit has no write cache.
    pub write_cache: u8,
    /// 0: the unit may be written.
    pub read_only: u8,
}

/// Returns the profile of this number.
fn profile(number: u8) -> Profile
    ensures { result ≡ profile_of number }
{
    if number == 0 {
        Profile::Narrow
    } else {
        Profile::Wide
    }
}

/// Returns the format of sense data of this number.
fn sense_format(number: u8) -> SenseFormat
    ensures { result ≡ sense_format_of number }
{
    if number == 0 {
        SenseFormat::Fixed
    } else {
        SenseFormat::Descriptor
    }
}

impl WantedUnit {
    /// Returns what it says of itself.
    fn identity(&self) -> Identity
        ensures { result ≡ identity_of self.now }
    {
        let naa = if self.has_naa == 0 {
            None
        } else {
            Some(self.naa)
        };
        Identity {
            vendor: self.vendor,
            product: self.product,
            revision: self.revision,
            serial: self.serial,
            serial_len: self.serial_len,
            naa,
            physical_exponent: self.physical_exponent,
            rotation_rate: self.rotation_rate,
            sense_format: sense_format(self.sense_format),
            write_cache: self.write_cache != 0,
            read_only: self.read_only != 0,
        }
    }

    /// Returns it as a specification.
    fn spec(&self) -> UnitSpec
        ensures { result ≡ spec_of self.now }
    {
        UnitSpec {
            target: self.target,
            lun: self.lun,
            blocks: self.blocks,
            calm: self.calm != 0,
            profile: profile(self.profile),
            identity: self.identity(),
        }
    }
}

/// The cause for which a configuration isn't taken: the header's `struct vscsi_fault`.
#[repr(C)]
#[derive(Clone, Copy)]
pub struct Fault {
    pub place: u64,
    pub cause: u32,
    pub detail: u32,
}

/// Returns the number of what a ring says of a layout.
fn layout_number(fault: LayoutFault) -> u32
    ensures { result ≡ number_of_layout fault }
{
    match fault {
        LayoutFault::BadSize => 1,
        LayoutFault::BadAlignment => 2,
        LayoutFault::Outside => 3,
        LayoutFault::NoMemory => 4,
        LayoutFault::BadStart => 5,
    }
}

/// Returns a cause in numbers.
fn cause(cause: u32, place: usize, detail: u32) -> Fault
    ensures { plain_cause result ≡ record { cause = cause; place = place; detail = detail } }
{
    Fault {
        place: place as u64,
        cause,
        detail,
    }
}

/// Returns why a configuration isn't taken, in numbers.
pub(crate) fn fault_of(fault: ConfigFault) -> Fault
    ensures { plain_cause result ≡ cause_of fault }
{
    match fault {
        ConfigFault::Pages => cause(1, 0, 0),
        ConfigFault::Features => cause(2, 0, 0),
        ConfigFault::QueueCount => cause(3, 0, 0),
        ConfigFault::QueueSize(queue_index) => cause(4, queue_index, 0),
        ConfigFault::QueueLayout(queue_index, why) => cause(5, queue_index, layout_number(why)),
        ConfigFault::Workers => cause(6, 0, 0),
        ConfigFault::Handoff => cause(7, 0, 0),
        ConfigFault::UnitCount => cause(8, 0, 0),
        ConfigFault::UnitLun(unit_index) => cause(9, unit_index, 0),
        ConfigFault::UnitBlocks(unit_index) => cause(10, unit_index, 0),
        ConfigFault::UnitOrder(unit_index) => cause(11, unit_index, 0),
        ConfigFault::NoLun0(unit_index) => cause(12, unit_index, 0),
        ConfigFault::UnitIdentity(unit_index) => cause(15, unit_index, 0),
        ConfigFault::UnitNaa(unit_index) => cause(16, unit_index, 0),
    }
}

/// Returns the layouts of queues.
fn layouts_of(alloc: Global, queues: &[WantedQueue]) -> Result<Vec<Layout>, AllocError>
    ensures { IfOk result (λ layouts. layouts.items ≡ map layout_of queues.now) }
{
    queues.iter().map(|queue| queue.layout()).collect(alloc)
}

/// Returns the specifications of units.
pub(crate) fn specs_of(alloc: Global, units: &[WantedUnit]) -> Result<Vec<UnitSpec>, AllocError>
    ensures { IfOk result (λ specs. specs.items ≡ map spec_of units.now) }
{
    units.iter().map(|unit| unit.spec()).collect(alloc)
}

/// Returns the configuration that is asked for.
pub(crate) fn config_of(
    alloc: Global,
    pages: u32,
    features: u64,
    queues: &[WantedQueue],
    units: &[WantedUnit],
) -> Result<Config, AllocError>
    ensures { IfOk result (λ c. Asks pages features queues.now units.now c) }
{
    let layouts = layouts_of(alloc, queues)?;
    let specs = specs_of(alloc, units)?;
    Ok(Config {
        pages,
        features,
        queues: layouts,
        workers: WORKERS,
        handoff: HANDOFF,
        units: specs,
    })
}
