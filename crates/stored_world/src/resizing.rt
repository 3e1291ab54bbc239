//! A disk is resized with its storage.

use crate::hosted::HostedDisk;
use crate::stored::StoredWorld;
use foundation::NoMemory;
use world::Event;

/// The most blocks that a storage is cut off at.
const MOST: u64 = 1 << 60;

impl StoredWorld {
    ghost use Rattle.std.specs.Prelude.{◌≡◌, ◌≤◌, ◌^◌};
    ghost use Rattle.device_model.specs.Events.{Event as AnEvent};
    ghost use Rattle.world.specs.Promise.{StepsAsPromised};
    ghost use Rattle.world.specs.Steps.{Steps};
    ghost use Rattle.stored_world.specs.Inner.Device.{world_of};

    /// Gives the unit at an index so many blocks, and cuts its storage off.
    pub(crate) fn resize(&mut self, unit_index: u16, blocks: u64) -> Result<bool, NoMemory>
        ensures steps { Steps (world_of self.old) (AnEvent.Resize unit_index blocks) result (world_of self.new) }
        ensures promise { StepsAsPromised (world_of self.old) (AnEvent.Resize unit_index blocks) result (world_of self.new) }
    {
        let disk = self.take_disk(unit_index);
        let resized = self.world.step(Event::Resize(unit_index, blocks));
        let Some(mut disk) = disk else {
            return resized;
        };
        match resized {
            Ok(true) => {
                let end = disk.capacity.min(blocks);
                if end <= MOST {
                    disk.storage.cut(end);
                    disk.capacity = blocks;
                    self.put_disk(unit_index, disk);
                }
            }
            Ok(false) => self.put_disk(unit_index, disk),
            Err(_) => self.put_disk(unit_index, disk),
        }
        resized
    }
}
