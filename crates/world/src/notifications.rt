//! Tells which drivers are owed a notification.

ghost use Rattle.std.specs.Prelude.{◌≡◌, ◌<◌, ◌≤◌, ◌^◌, length, replicate};
ghost use Rattle.world.specs.Notifications.{binary, owed_of, notices_at, IsAsked};

use crate::live_world::LiveWorld;
use crate::world::World;
use device_steps::Bay;
use guest_mem::WritableMemory;
use std::marker::Model;

/// The most queues that a device has.
const MOST_QUEUES: usize = 18;

/// Returns which queues have more notices than when they were last asked, a bit each.
fn owed_now(asked: &[u64], bays: &[Bay]) -> u32
    requires { length asked.now ≤ 18 }
    ensures owed { result ≡ binary (owed_of asked.now bays.now) }
    ensures below { result < 2 ^ length asked.now }
{
    let [count, others @ ..] = asked else {
        return 0;
    };
    let [bay, more @ ..] = bays else {
        return 0;
    };
    let owed = *count < bay.notices();
    2 * owed_now(others, more) + owed as u32
}

/// Returns how many notices a queue has.
fn notices_of(bays: &[Bay], number: usize) -> u64
    requires { number < length bays.now }
    ensures { result ≡ notices_at bays.now number }
{
    bays[number].notices()
}

/// Notes that the queues were asked now.
fn note(asked: &mut [u64], bays: &[Bay])
    requires { length bays.now ≤ length asked.old }
    ensures { IsAsked asked.old bays.now asked.new }
{
    for number in 0..bays.len() {
        asked[number] = notices_of(bays, number);
    }
}

/// The notices that each queue's driver had wanted when this was last asked. The embedder makes one beside its device.
/// It asks it after each `settle`, also after one that ended for want of memory, since what was answered before stands.
#[derive(Drop)]
pub struct Notifications {
    asked: [u64; MOST_QUEUES],
}

impl Model for Notifications {
    ghost use Rattle.std.specs.Prelude.{ℕ, List};

    ghost Value = { List ℕ };

    ghost view = { λ n. n.asked };
}

impl Notifications {
    /// Begins with a device of which nobody was told anything.
    pub fn new() -> Notifications
        ensures { result ≡ replicate 18 0 }
    {
        Notifications {
            asked: [0; MOST_QUEUES],
        }
    }

    /// Returns which of these queues have more notices than when they were last asked, and notes that they were asked now.
    fn ask(&mut self, bays: &[Bay]) -> u32
        requires { length bays.now ≤ 18 }
        ensures owed { result ≡ binary (owed_of self.old bays.now) }
        ensures asked { IsAsked self.old bays.now self.new }
    {
        let owed = owed_now(&self.asked, bays);
        note(&mut self.asked, bays);
        owed
    }

    /// Returns whose drivers are owed a notification: bit 0 is queue 0's. A bit is set exactly where the queue has more
    /// notices than when this was last asked. A driver that is notified looks at all that was used, so one notification
    /// is enough for all of them (VIRTIO 1.2, 2.7.10 and 2.8.21.3).
    pub fn owed(&mut self, world: &World) -> u32
        ensures owed { result ≡ binary (owed_of self.old world.now.queues) }
        ensures asked { IsAsked self.old world.now.queues self.new }
    {
        self.ask(world.bays())
    }

    /// Returns whose drivers are owed a notification, as `owed` does, of a device in a memory of the embedder's.
    pub fn owed_in<M: WritableMemory>(&mut self, world: &LiveWorld<M>) -> u32
        ensures owed { result ≡ binary (owed_of self.old world.now.device.queues) }
        ensures asked { IsAsked self.old world.now.device.queues self.new }
    {
        self.ask(world.bays())
    }
}
