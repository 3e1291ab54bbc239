//! A device on live memory opens.

ghost use Rattle.std.specs.Prelude.{◌≡◌, true, IfOk};
ghost use Rattle.config.specs.Config.{is_config_for};
ghost use Rattle.c_calls.specs.Live.{all_bytes, MakesLive};

use crate::live_served::LiveServed;
use crate::rings::Rings;
use foundation::NoMemory;
use host_bus::HostBus;
use live_mem::LiveMem;
use std::alloc::Global;
use world::{Config, LiveWorld, Notifications};

/// The bytes that a guest can address.
pub(crate) const ALL_BYTES: u64 = 1 << 52;

/// Opens the device of a configuration over what C mapped, of which no queue is served yet.
pub(crate) fn open(
    alloc: Global,
    map: u64,
    config: Config,
) -> Result<Box<LiveServed, Global>, NoMemory>
    requires { is_config_for all_bytes config ≡ true }
    ensures { IfOk result (λ served. MakesLive map config served.value) }
{
    let Ok(memory) = LiveMem::new(alloc, HostBus::new(map), ALL_BYTES) else {
        return Err(NoMemory);
    };
    let Ok(world) = LiveWorld::new(alloc, &config, memory) else {
        return Err(NoMemory);
    };
    let told = Notifications::new();
    let rings = Rings::of(config);
    match Box::new(alloc, LiveServed { world, told, rings }) {
        Ok(served) => Ok(served),
        Err(_) => Err(NoMemory),
    }
}
