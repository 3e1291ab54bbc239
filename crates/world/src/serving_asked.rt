//! A device with a memory of its own serves, and asks its drivers for notifications.

ghost use Rattle.std.specs.Prelude.{◌≡◌, ◌<◌, ◌&&◌, ◌||◌, ◌==◌, length};
ghost use Rattle.device_steps.specs.Settling.{asks};

use crate::served::Served;
use crate::world::World;
use foundation::NoMemory;
use ring_core::Notify;

/// Returns true if the bit of a queue is set.
pub(crate) fn is_among(queues: u32, number: u16) -> bool
    requires { number < 32 }
    ensures { result ≡ asks queues number }
{
    queues >> number & 1 == 1
}

/// Returns true if serving is over: more is left than may be served, or nothing came since the drivers were asked.
pub(crate) fn is_over(served: Served, asked: bool) -> bool
    ensures { result ≡ (served.more || (asked && (served.steps == 0))) }
{
    served.more || asked && served.steps == 0
}

impl World {
    ghost use Rattle.world.specs.ServingAsked.{AsksIf, AsksNext, AsksDrivers, ServesWhole, ServesAskedOrWants};

    /// Serves as [`serve`](World::serve) does, for a host that waits for notifications. Where nothing is left, it asks the
    /// driver of each queue that is set in `queues` for its next chain, as [`ask`](World::ask) does. Then it looks once more,
    /// and goes on until nothing is left behind that, or `most` steps were taken. To ask is no step. What it wrote may have
    /// made a chain available, where a guest laid one area over another.
    ///
    /// `more` is true exactly where `most` steps were taken and an event is left that would change something. If it is false,
    /// every driver of these queues was asked for its next chain, and nothing is left behind that. A queue that a fault broke
    /// isn't asked.
    ///
    /// `NoMemory` as of `serve`: everything served before stands, and the drivers may not be asked.
    pub fn serve_and_ask(&mut self, queues: u32, most: u64) -> Result<Served, NoMemory>
        ensures { ServesAskedOrWants (ServesWhole queues) (AsksDrivers queues) self.old most result self.new }
    {
        let mut steps = 0;
        let mut asked = false;
        'rounds: loop {
            match self.serve(queues, most - steps) {
                Ok(served) => {
                    steps += served.steps;
                    if is_over(served, asked) {
                        let more = served.more;
                        return Ok(Served { steps, more });
                    }
                }
                Err(NoMemory) => return Err(NoMemory),
            }
            self.ask_each(queues);
            asked = true;
        }
    }

    /// Asks the driver of each of these queues for its next chain.
    fn ask_each(&mut self, queues: u32)
        ensures { AsksDrivers queues self.old self.new }
    {
        let count = self.bays().len();
        for number in 0..count {
            self.ask_among(queues, number as u16);
        }
    }

    /// Asks the driver of a queue for its next chain, if the queue is one of these.
    fn ask_among(&mut self, queues: u32, number: u16)
        requires { number < 32 }
        ensures { AsksIf AsksNext (asks queues number) number self.old self.new }
    {
        if !is_among(queues, number) {
            return;
        }
        let _told = self.ask(number, Notify::Next);
    }
}
